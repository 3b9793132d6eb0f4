// Settling: constraints hand out their weight along routes until nothing more can be given, and what the stuck ones reach is the answer.
// Over weights and ends alone. Arrays have room for the limits; a net says how many objects and constraints are in use.
#![tactic(auto)]

pub mod answer;
pub mod release;
pub mod settle;
