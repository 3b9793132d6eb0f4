// Settling: each constraint gives what weight it has left along routes, or is stuck.
ghost use Rattle.std.specs.Prelude.{◌≡◌, ◌+◌};
ghost use Rattle.arrays.specs.At.{at};
ghost use Rattle.routes.specs.State.{seen_state, both_shares};
ghost use Rattle.settling.specs.Settle.{Kept, Settled, HandingOut, HandedOut, WithinWeight, NeedsRoute};

use limits::{CONSTRAINTS, ENDS};
use routes::chains::Chains;
use routes::search::{Marks, Sharing, from_constraint};

// What weight constraint e has left.
pub fn left(e: usize, shares: &[u16; ENDS], takes: &[u8; CONSTRAINTS]) -> usize
    requires { WithinWeight e takes.now shares.now }
    ensures { result + both_shares shares.now e ≡ at takes.now e }
{
    usize::from(takes[e]) - usize::from(shares[2 * e]) - usize::from(shares[2 * e + 1])
}

// Whether constraint e has weight left and is not marked. The weights stay, and the sharing is what changes, so each stands by itself here
// and below; marks go by value.
fn needs_route(e: usize, takes: &[u8; CONSTRAINTS], sharing: &Sharing) -> bool
    requires { WithinWeight e takes.now sharing.now.shares }
    ensures { NeedsRoute e takes.now sharing.now.stuck sharing.now.shares result }
{
    // One test of both: any dense asks it of every constraint for every constraint, and a machine does not foresee what is left.
    (left(e, &sharing.shares, takes) != 0) & (sharing.stuck[e] == 0)
}

// Constraint e hands out what weight it has left. The marks of a search that found a route are dropped; those of one that
// found none are kept for good.
fn hand_out(
    chains: &Chains,
    takes: &[u8; CONSTRAINTS],
    e: usize,
    marks: Marks,
    sharing: &mut Sharing,
) -> Marks
    requires { HandingOut chains.now.constraints e chains.now.ends takes.now (seen_state marks sharing.old) }
    ensures { HandedOut chains.now.constraints e chains.now.ends takes.now
        (seen_state marks sharing.old) (seen_state result sharing.new) }
{
    let before = sharing.stuck;
    // How many routes there are is not known before.
    while left(e, &sharing.shares, takes) != 0 {
        let route = from_constraint(chains, e, marks, sharing);
        if !route.found {
            return route.marks;
        }
        sharing.stuck = before;
    }
    marks
}

// Every constraint gives what weight it has left, or is stuck, and then its marks are there.
pub fn settle(
    chains: &Chains,
    takes: &[u8; CONSTRAINTS],
    marks: Marks,
    sharing: &mut Sharing,
) -> Marks
    requires { Kept chains.now.constraints chains.now.ends takes.now (seen_state marks sharing.old) }
    ensures { Settled chains.now.constraints chains.now.ends takes.now
        (seen_state marks sharing.old) (seen_state result sharing.new) }
{
    let mut reached = marks;
    // The weights, the shares and the marks are read at each number.
    for e in 0..chains.constraints {
        if needs_route(e, takes, sharing) {
            reached = hand_out(chains, takes, e, reached, sharing);
        }
    }
    reached
}
