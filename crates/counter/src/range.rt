// The range of K.
pub const LEAST: i32 = -64;

pub const MOST: i32 = 8191;
