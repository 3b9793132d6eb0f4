// Counting a net: the answer for one constraint, and the lowest constraint above K.
ghost use Rattle.std.specs.Prelude.{◌≡◌, ◌<◌};
ghost use Rattle.net.specs.NetFor.{Countable};
ghost use Rattle.counter.specs.Counting.{SolvedIn, block_from, Sought};

use crate::block::Block;
use arrays::NetArrays;
use settling::answer::{Solution, answer, base, nothing};

// Top density, answer set and sheet of constraint c. That every constraint takes something (`Countable`) is asked here and below, and is no
// part of the net's type: a base may be made of a net with constraints of weight 0.
pub fn one(net: &NetArrays, c: usize) -> Solution
    requires countable { Countable net.now }
    requires is { c < net.now.constraints }
    ensures { SolvedIn net.now c result }
{
    answer(c, &nothing(net))
}

// The block of constraint c, of which the answer is known.
pub fn block_of(c: usize, top: Solution) -> Block
    ensures { result ≡ block_from c top }
{
    Block {
        constraint: c,
        density: top.density,
        marks: top.marks,
    }
}

// The block of the lowest-numbered constraint whose top density is above K, if any. The net is settled once, and each constraint is
// answered from there.
#[tactic(auto, using(crate::proofs::count::Passing::none_passed))]
pub fn lowest_above(net: &NetArrays, k: i32) -> Option<Block>
    requires { Countable net.now }
    ensures { Sought net.now k result }
{
    let from = base(net);
    // As a search over an iterator its proof did not close.
    for c in 0..net.constraints {
        let top = answer(c, &from);
        if top.density > k {
            return Some(block_of(c, top));
        }
    }
    None
}
