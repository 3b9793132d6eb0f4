// The counter: a net counted, the faults of what is asked, and the answer block and the sheet as bytes.
#![tactic(auto)]

pub mod block;
pub mod count;
pub mod fault;
pub mod range;
pub mod sheet;
