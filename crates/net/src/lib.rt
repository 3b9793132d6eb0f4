// The one door from a drawing's bytes to its net: read, or read and weighed.
#![tactic(auto)]

ghost use Rattle.std.specs.Prelude.{◌≡◌, ◌≤◌, length, replicate};
ghost use Rattle.limits.specs.Limits.{most_objects, most_constraints, most_ends};
ghost use Rattle.records.specs.Read.{read};
ghost use Rattle.net.specs.NetFor.{CountsFor, NetFor, EndsOf};

use arrays::NetArrays;
use codes::Fault;
use drawing::entries::Entries;
use drawing::{Weights, weigh};
use limits::ENDS;
use records::reader::fill;

// How many objects and constraints a drawing has.
#[derive(Clone, Copy)]
pub struct Counts {
    pub objects: usize,
    pub constraints: usize,
}

impl Counts {
    fn of(entries: &Entries) -> Self
        ensures objects { result.objects ≡ length entries.now.objects }
        ensures constraints { result.constraints ≡ length entries.now.constraints }
        ensures few { (result.objects ≤ most_objects) × (result.constraints ≤ most_constraints) }
    {
        Counts {
            objects: entries.objects.len(),
            constraints: entries.constraints.len(),
        }
    }
}

// How many objects and constraints a drawing has, or why it is refused.
pub fn counts_of(drawing: &[u8]) -> Result<Counts, Fault>
    ensures { CountsFor (read drawing.now) result }
{
    let mut entries = Entries::new();
    fill(drawing, &mut entries)?;
    Ok(Counts::of(&entries))
}

// The net of a drawing, or why it is refused.
pub fn net_of(drawing: &[u8]) -> Result<NetArrays, Fault>
    ensures { NetFor (read drawing.now) result }
{
    let mut entries = Entries::new();
    fill(drawing, &mut entries)?;
    let mut ends = [0; ENDS];
    put_ends(&entries, &mut ends);
    let Weights {
        objects: weights,
        constraints: takes,
    } = weigh(&entries);
    let Counts {
        objects,
        constraints,
    } = Counts::of(&entries);
    Ok(NetArrays {
        objects,
        constraints,
        ends,
        weights,
        takes,
    })
}

// Puts the ends of the constraints at their places, those of constraint e at 2e and 2e + 1, into an array of zeros.
#[tactic(auto, using(crate::proofs::Ends::ends_more))]
fn put_ends(entries: &Entries, ends: &mut [u16; ENDS])
    requires { ends.old ≡ replicate most_ends 0 }
    ensures { EndsOf entries.now ends.new }
{
    for (e, c) in entries.constraints.as_slice().iter().enumerate() {
        ends[2 * e] = c.first;
        ends[2 * e + 1] = c.second;
    }
}
