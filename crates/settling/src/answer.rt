// The answer for a constraint: release its two ends, settle again, and the marked objects are its answer set.
// One base distribution serves every constraint; 'from nothing' is the same with an empty start.
ghost use Rattle.std.specs.Prelude.{◌≡◌, ◌+◌, ◌*◌, ◌<◌, ◌≤◌, ◌≤ℤ◌, ℕ, pos, negsuc};
ghost use Rattle.density.specs.Sheet.{claim};
ghost use Rattle.arrays.specs.At.{at};
ghost use Rattle.arrays.specs.Arrays.{net_in, shares_in};
ghost use Rattle.routes.specs.State.{seen_state, both_shares};
ghost use Rattle.settling.specs.Solved.{Solved};
ghost use Rattle.settling.specs.Answer.{Spread, EachWithin, Remainder, Claimed};

use crate::release::release;
use crate::settle::{left, settle};
use arrays::{NetArrays, ends_of};
use limits::{CONSTRAINTS, ENDS, OBJECTS};
use routes::chains::{Chains, chain};
use routes::search::{Marks, Sharing};

// What has been given: of a net, along its chains, how the shares are handed out, and the objects that the stuck constraints reach.
#[derive(Clone, Copy)]
pub struct Distribution {
    pub net: NetArrays,
    pub chains: Chains,
    pub sharing: Sharing,
    pub marks: Marks,
    pub ghost same_count: { chains.constraints ≡ net.constraints },
    pub ghost same_ends: { chains.ends ≡ net.ends },
    pub ghost spread: { Spread net.constraints net.ends net.weights net.takes (seen_state marks sharing) },
}

// The top density of a constraint, the sheet that shows it, and the answer set as marks.
#[derive(Clone, Copy)]
pub struct Solution {
    pub density: i32,
    pub shares: [u16; ENDS],
    pub marks: Marks,
}

// Nothing is given yet. The room of an object is its weight.
pub fn nothing(net: &NetArrays) -> Distribution
    ensures { result.net ≡ net.now }
{
    Distribution {
        net: *net,
        chains: chain(net.constraints, &net.ends),
        sharing: Sharing {
            stuck: [0; CONSTRAINTS],
            shares: [0; ENDS],
            room: net.weights,
        },
        marks: Marks {
            objects: [0; OBJECTS],
        },
    }
}

// Every constraint has given what it can, with all rooms open.
pub fn base(net: &NetArrays) -> Distribution
    ensures { result.net ≡ net.now }
{
    let Distribution {
        net,
        chains,
        mut sharing,
        marks,
    } = nothing(net);
    let marks = settle(&chains, &net.takes, marks, &mut sharing);
    Distribution {
        net,
        chains,
        sharing,
        marks,
    }
}

// The sum of the weight that all constraints have left.
#[tactic(auto, unfolding(density::specs::Sum::sum))]
fn remainder(net: &NetArrays, shares: &[u16; ENDS]) -> usize
    requires { EachWithin net.now.constraints net.now.takes shares.now }
    ensures { Remainder net.now.constraints net.now.takes shares.now result }
{
    let mut sum = 0;
    // As a sum over an iterator its proof did not close.
    for e in 0..net.constraints {
        sum += left(e, shares, &net.takes);
    }
    sum
}

// What the shares claim for constraint c: the weight that is left, less the weights of c's two ends.
#[tactic(auto, using(crate::proofs::answer::Claiming::claimed_is))]
fn claimed(c: usize, net: &NetArrays, shares: &[u16; ENDS]) -> i32
    requires is { c < net.now.constraints }
    requires fits { EachWithin net.now.constraints net.now.takes shares.now }
    ensures { Claimed c net.now shares.now result }
{
    let above = remainder(net, shares);
    let below = net.ends_weigh(c);
    // Both are small; no From leads from usize to i32.
    above as i32 - below as i32
}

// Top density and answer set of constraint c.
pub fn answer(c: usize, from: &Distribution) -> Solution
    requires is { c < from.now.net.constraints }
    requires some { 0 < at from.now.net.takes c }
    ensures { Solved from.now.net.objects from.now.net.constraints c from.now.net.ends from.now.net.weights from.now.net.takes
        result.marks.objects result.shares result.density }
{
    let both = ends_of(c, &from.net.ends);
    let mut sharing = from.sharing;
    release(&from.chains, both.first, &mut sharing);
    release(&from.chains, both.second, &mut sharing);
    let marks = settle(&from.chains, &from.net.takes, from.marks, &mut sharing);
    Solution {
        density: claimed(c, &from.net, &sharing.shares),
        shares: sharing.shares,
        marks,
    }
}
