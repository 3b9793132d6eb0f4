// One constraint: the greatest density of any set that holds constraint c, and the least such set.
ghost use Rattle.std.specs.Prelude.{length};
ghost use Rattle.codes.specs.Codes.{outcome_code};
ghost use Rattle.records.specs.Read.{read};
ghost use Rattle.counter.specs.Outcome.{Answers};
ghost use Rattle.counter.specs.Question.{one_constraint};

use codes::{Answer, Fault, code};
use counter::block::{BLOCK, put_block};
use counter::count::{block_of, one};
use counter::fault::number_fault;
use net::net_of;

// Writes the block of constraint c: its top density and its answer set.
#[unsafe(no_mangle)]
pub extern "C" fn brentivex_one_constraint(drawing: &[u8], c: u32, buffer: &mut [u8]) -> u32
    ensures { let before = buffer.old in let after = buffer.new in
        Answers (one_constraint c (length before)) (read drawing.now) result before after }
{
    // No From leads from u32 to usize.
    code(one_constraint(drawing, c as usize, buffer))
}

#[tactic(auto, using(counter::proofs::Statements::one_constraint_laws))]
fn one_constraint(drawing: &[u8], c: usize, buffer: &mut [u8]) -> Result<Answer, Fault>
    ensures { let before = buffer.old in let after = buffer.new in
        Answers (one_constraint c (length before)) (read drawing.now) (outcome_code result) before after }
{
    let net = net_of(drawing)?;
    number_fault(net.constraints, c, buffer.len(), BLOCK)?;
    put_block(block_of(c, one(&net, c)), buffer);
    Ok(Answer::Given)
}
