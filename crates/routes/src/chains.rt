// The chains: from an object to each of its places, the last first, at the cost of its degree.
ghost use Rattle.std.specs.Prelude.{◌≡◌, ◌*◌, ◌<◌, ◌≤◌};
ghost use Rattle.limits.specs.Limits.{most_objects};
ghost use Rattle.arrays.specs.At.{at};
ghost use Rattle.routes.specs.Chains.{NamedEnds, Chained};

use limits::{ENDS, OBJECTS};

// The ends of the constraints by place; one more than the last place of each object, and one more than the place before of the
// same object, or 0 for none, as `Last` has it. Arrays of places, since there is no heap.
#[derive(Clone, Copy)]
pub struct Chains {
    pub constraints: usize,
    pub ends: [u16; ENDS],
    pub head: [u16; OBJECTS],
    pub next: [u16; ENDS],
    pub ghost chained: { Chained constraints ends head next },
}

// The places of an object that are still to come, the last first; left is one more than the next of them, or 0 for none.
#[derive(Drop)]
pub struct Places<'a> {
    pub chains: &'a Chains,
    pub left: usize,
    pub ghost within: { left ≤ 2 * chains.now.constraints },
}

impl Chains {
    // The places of the object v.
    pub fn places(&self, v: usize) -> Places<'_>
        requires { v < most_objects }
        ensures { (result.chains.now ≡ self.now) × (result.left ≡ at self.now.head v) }
    {
        Places {
            chains: self,
            left: usize::from(self.head[v]),
        }
    }
}

impl<'a> Iterator for Places<'a> {
    type Item = usize;

    ghost use Rattle.std.specs.Iterator.{at_most};
    ghost use Rattle.routes.specs.Places.{Passes};

    ghost remaining = { λ s. at_most s.left };

    ghost next_gives = { Passes };

    fn next(&mut self) -> Option<usize> {
        let k = self.left.checked_sub(1)?;
        self.left = usize::from(self.chains.next[k]);
        Some(k)
    }
}

// The chains of the ends of m constraints.
pub fn chain(m: usize, ends: &[u16; ENDS]) -> Chains
    requires { NamedEnds m ends.now }
    ensures { (result.constraints ≡ m) × (result.ends ≡ ends.now) }
{
    let mut head = [0u16; OBJECTS];
    let mut next = [0u16; ENDS];
    for (i, end) in ends[..2 * m].iter().enumerate() {
        let v = usize::from(*end);
        next[i] = head[v];
        // At most 1,024; no From leads down to u16.
        head[v] = (i + 1) as u16;
    }
    Chains {
        constraints: m,
        ends: *ends,
        head,
        next,
    }
}
