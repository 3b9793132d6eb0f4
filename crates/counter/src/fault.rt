// What is wrong with what is asked: the faults behind those of the drawing, in their order. Room and need stand apart, as in the rows of
// the definition (`room_fault`).
#![tactic(auto, unfolding(drawing::specs::Choice::pick))]

ghost use Rattle.std.specs.Prelude.{◌≡◌, ◌≤◌, OnOk};
ghost use Rattle.codes.specs.Codes.{fault_of};
ghost use Rattle.counter.specs.Fault.{room_fault, number_fault, range_fault, Named, Ranged};

use crate::range::{LEAST, MOST};
use codes::Fault;

// Of a call that needs room.
pub fn room_fault(room: usize, need: usize) -> Result<(), Fault>
    ensures is { fault_of result ≡ room_fault room need }
    ensures fine { OnOk result (need ≤ room) }
{
    if room < need {
        return Err(Fault::TooShort);
    }
    Ok(())
}

// Of a call about constraint c of m that needs room.
pub fn number_fault(m: usize, c: usize, room: usize, need: usize) -> Result<(), Fault>
    ensures is { fault_of result ≡ number_fault m c (room_fault room need) }
    ensures fine { OnOk result (Named m c need room) }
{
    if c >= m {
        return Err(Fault::NoSuchConstraint);
    }
    room_fault(room, need)
}

// Of a call at K that needs room.
pub fn range_fault(k: i32, room: usize, need: usize) -> Result<(), Fault>
    ensures is { fault_of result ≡ range_fault k (room_fault room need) }
    ensures fine { OnOk result (Ranged k need room) }
{
    if !(LEAST..=MOST).contains(&k) {
        return Err(Fault::KOutOfRange);
    }
    room_fault(room, need)
}
