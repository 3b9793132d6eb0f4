// The questions as C calls them, a file each: numbers and byte buffers, and no `requires`. Each has the one shape of statement that
// `Answers` says. What C calls has C's numbers: the code as its result, and c as a u32, from which no From leads to usize. The
// function below it has one shape of code: the net of the drawing, or its fault; what is asked, or its fault; count; write.
#![tactic(auto)]

pub mod any_dense;
pub mod check_sheet;
pub mod look_over;
pub mod one_constraint;
pub mod sheet;
