// Arrays that hold a net, and the two ends of a constraint, which stand side by side. Arrays have room for the limits, since there is
// no heap; the net says how many objects and constraints are in use.
#![tactic(auto)]

ghost use Rattle.std.specs.Prelude.{◌≡◌, ◌+◌, ◌*◌, ◌<◌};
ghost use Rattle.limits.specs.Limits.{most_constraints};
ghost use Rattle.arrays.specs.At.{at};
ghost use Rattle.arrays.specs.Arrays.{Fair};

use limits::{CONSTRAINTS, ENDS, OBJECTS};

// A net, within the limits. Constraint e has its ends at the places 2e and 2e + 1, like the shares of a sheet; the weights of the
// objects and what each constraint takes are those in force.
#[derive(Clone, Copy)]
pub struct NetArrays {
    pub objects: usize,
    pub constraints: usize,
    pub ends: [u16; ENDS],
    pub weights: [u8; OBJECTS],
    pub takes: [u8; CONSTRAINTS],
    pub ghost fair: { Fair objects constraints ends weights takes },
}

// The two objects of a constraint.
#[derive(Clone, Copy)]
pub struct Ends {
    pub first: usize,
    pub second: usize,
}

// The two ends of constraint c.
pub fn ends_of(c: usize, ends: &[u16; ENDS]) -> Ends
    requires { c < most_constraints }
    ensures { (result.first ≡ at ends.now (2 * c)) × (result.second ≡ at ends.now (2 * c + 1)) }
{
    Ends {
        first: usize::from(ends[2 * c]),
        second: usize::from(ends[2 * c + 1]),
    }
}

impl NetArrays {
    ghost use Rattle.density.specs.Sheet.{ends_weigh};
    ghost use Rattle.arrays.specs.Held.{net_held};

    // The weights of the two ends of constraint c.
    pub fn ends_weigh(&self, c: usize) -> usize
        requires { c < self.now.constraints }
        ensures is { result ≡ ends_weigh (net_held self.now) c }
        ensures low { result < 256 + 256 }
    {
        let Ends { first, second } = ends_of(c, &self.ends);
        usize::from(self.weights[first]) + usize::from(self.weights[second])
    }
}
