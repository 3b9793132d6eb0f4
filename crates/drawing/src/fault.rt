// What is wrong with an entry, judged on its values.
ghost use Rattle.std.specs.Prelude.{◌≡◌, ◌<◌, OnOk};
ghost use Rattle.limits.specs.Limits.{most_objects, most_constraints};
ghost use Rattle.codes.specs.Codes.{fault_of};
ghost use Rattle.drawing.specs.Fault.{object_fault, constraint_fault};

use crate::table::{ObjectKind, table_weight};
use crate::{Constraint, Object};
use codes::Fault;
use limits::{CONSTRAINTS, OBJECTS, WEIGHT};

// An object after so many objects and constraints.
#[tactic(auto, using(crate::proofs::NoOther::judging), unfolding(crate::specs::Fault::object_fault, crate::specs::Choice::pick))]
pub fn object_fault(objects: usize, constraints: usize, o: Object) -> Result<(), Fault>
    ensures fault { fault_of result ≡ object_fault objects constraints o }
    ensures room { OnOk result (objects < most_objects) }
{
    if constraints > 0 {
        return Err(Fault::ObjectBehindConstraint);
    }
    if objects >= OBJECTS {
        return Err(Fault::OverLimit);
    }
    ObjectKind::try_from(o.kind)?;
    if o.stated > WEIGHT {
        return Err(Fault::StatedWeight);
    }
    Ok(())
}

// A constraint after so many objects and constraints, where a and b are the kinds of the objects that its ends name, as read:
// bytes, since the definition answers for every byte.
#[tactic(auto, using(crate::proofs::NoOther::judging), unfolding(crate::specs::Fault::constraint_fault, crate::specs::Choice::pick))]
pub fn constraint_fault(
    objects: usize,
    constraints: usize,
    a: u8,
    b: u8,
    c: Constraint,
) -> Result<(), Fault>
    ensures fault { fault_of result ≡ constraint_fault objects constraints a b c }
    ensures room { OnOk result (constraints < most_constraints) }
{
    if constraints >= CONSTRAINTS {
        return Err(Fault::OverLimit);
    }
    if usize::from(c.first) >= objects {
        return Err(Fault::BadEnd);
    }
    if usize::from(c.second) >= objects {
        return Err(Fault::BadEnd);
    }
    if c.first == c.second {
        return Err(Fault::BadEnd);
    }
    table_weight(c.kind, a, b).ok_or(Fault::NotInTable)?;
    if c.stated > WEIGHT {
        return Err(Fault::StatedWeight);
    }
    Ok(())
}
