// A drawing as values: objects and constraints as read, their kinds, what is wrong with one, and the weights in force.
#![tactic(auto)]

pub mod entries;
pub mod fault;
pub mod front;
pub mod padded;
pub mod table;
pub mod weight;

ghost use Rattle.drawing.specs.WeightArrays.{WeightsIn};

use entries::Entries;
use limits::{CONSTRAINTS, OBJECTS};

// An object as read: its two bytes, whatever they are. The order of faults has other faults before those of its bytes.
#[derive(Clone, Copy)]
pub struct Object {
    pub kind: u8,
    pub stated: u8,
}

// A constraint as read, its bytes whatever they are. The two bytes stand first, so that where either may stand, each has its bytes at
// the same place.
#[derive(Clone, Copy)]
pub struct Constraint {
    pub kind: u8,
    pub stated: u8,
    pub first: u16,
    pub second: u16,
}

// The weights in force, zero past the counts: what the arrays of a net take (`WeightsIn`).
#[derive(Clone, Copy)]
pub struct Weights {
    pub objects: [u8; OBJECTS],
    pub constraints: [u8; CONSTRAINTS],
}

// Weighs a drawing. What is past its entries stays 0, and no turn is spent on it.
#[tactic(auto, using(crate::proofs::Filled::filled_more))]
pub fn weigh(entries: &Entries) -> Weights
    ensures { WeightsIn entries.now result.objects result.constraints }
{
    let mut objects = [0; OBJECTS];
    for i in 0..entries.objects.len() {
        objects[i] = entries.object_weight(i);
    }
    let mut constraints = [0; CONSTRAINTS];
    for e in 0..entries.constraints.len() {
        constraints[e] = entries.constraint_weight(e);
    }
    Weights {
        objects,
        constraints,
    }
}
