// The limits of 01, 'What it covers', as the code has them: the largest drawing and the largest weight.
#![tactic(auto)]

pub const OBJECTS: usize = 128;

pub const CONSTRAINTS: usize = 512;

// The two ends of each constraint.
pub const ENDS: usize = 2 * CONSTRAINTS;

pub const WEIGHT: u8 = 15;
