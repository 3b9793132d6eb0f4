// The check of a sheet: whether it is sound for c, and its claim the number claimed.
#![tactic(auto)]

ghost use Rattle.std.specs.Prelude.{◌≡◌, ◌↔◌, ◌+◌, ◌<◌, ◌≤◌, length, IsTrue, MatchOption};
ghost use Rattle.std.proofs.Math.IntN.{sub_ℕ};
ghost use Rattle.arrays.specs.Held.{net_held};
ghost use Rattle.checker.specs.Sheet.{sheet_size, sheet_in};
ghost use Rattle.checker.specs.Checked.{AllFit, AddedUp, HasRoom, Bare, Checking, Checked};

use arrays::{Ends, NetArrays, ends_of};
use limits::OBJECTS;
use records::format::two_at;

// The bytes of a sheet for each constraint, and for each share.
pub const ROW: usize = 4;

const SHARE: usize = 2;

// What the constraints of a sheet come to: the sum of their weights, the sum of their shares, and what each object receives.
#[derive(Clone, Copy)]
pub struct Tally {
    pub total: usize,
    pub given: usize,
    pub load: [u16; OBJECTS],
}

// Adds up the constraints of a sheet; None where the two shares of one exceed its weight.
fn add_up(net: &NetArrays, sheet: &[u8]) -> Option<Tally>
    requires { sheet_size net.now.constraints ≤ length sheet.now }
    ensures { MatchOption result (¬ AllFit net.now sheet.now) (λ t. AddedUp net.now sheet.now net.now.constraints t) }
{
    let mut tally = Tally {
        total: 0,
        given: 0,
        load: [0; OBJECTS],
    };
    // The ends, the weights and the sheet are read at each number.
    for e in 0..net.constraints {
        let x = two_at(sheet, ROW * e);
        let y = two_at(sheet, ROW * e + SHARE);
        let both = usize::from(x) + usize::from(y);
        let weight = usize::from(net.takes[e]);
        if both > weight {
            return None;
        }
        let Ends { first, second } = ends_of(e, &net.ends);
        tally.load[first] += x;
        tally.load[second] += y;
        tally.total += weight;
        tally.given += both;
    }
    Some(tally)
}

// Whether no object receives more than its weight.
fn has_room(net: &NetArrays, load: &[u16; OBJECTS]) -> bool
    ensures { IsTrue result ↔ HasRoom net.now load.now }
{
    load.iter()
        .zip(&net.weights)
        .take(net.objects)
        .all(|(received, weight)| *received <= u16::from(*weight))
}

// Whether the two ends of c receive nothing.
fn bare(net: &NetArrays, c: usize, load: &[u16; OBJECTS]) -> bool
    requires { c < net.now.constraints }
    ensures { IsTrue result ↔ Bare net.now c load.now }
{
    let Ends { first, second } = ends_of(c, &net.ends);
    load[first] == 0 && load[second] == 0
}

// Whether above less below is the number claimed: here two sums become one signed number.
fn equals(above: usize, below: usize, claimed: i32) -> bool
    requires { (above < 65536) × (below < 65536) }
    ensures { IsTrue result ↔ (sub_ℕ above below ≡ claimed) }
{
    // No From leads from usize to i64.
    above as i64 - below as i64 == i64::from(claimed)
}

// Whether the sheet is sound for c and its claim is the number claimed.
pub fn shows(net: &NetArrays, c: usize, sheet: &[u8], claimed: i32) -> bool
    requires { Checking net.now c sheet.now }
    ensures { Checked net.now c sheet.now claimed result }
{
    let Some(tally) = add_up(net, sheet) else {
        return false;
    };
    has_room(net, &tally.load)
        && bare(net, c, &tally.load)
        && equals(tally.total, tally.given + net.ends_weigh(c), claimed)
}
