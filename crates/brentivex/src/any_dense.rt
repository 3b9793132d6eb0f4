// Any dense: whether any set that holds a constraint is denser than K.
ghost use Rattle.std.specs.Prelude.{length};
ghost use Rattle.codes.specs.Codes.{outcome_code};
ghost use Rattle.records.specs.Read.{read};
ghost use Rattle.counter.specs.Outcome.{Answers};
ghost use Rattle.counter.specs.Question.{any_dense};

use codes::{Answer, Fault, code};
use counter::block::{BLOCK, put_finding};
use counter::count::lowest_above;
use counter::fault::range_fault;
use net::net_of;

// Writes the block of the lowest-numbered constraint whose top density is above K; or answers none, and writes nothing.
#[unsafe(no_mangle)]
pub extern "C" fn brentivex_any_dense(drawing: &[u8], k: i32, buffer: &mut [u8]) -> u32
    ensures { let before = buffer.old in let after = buffer.new in
        Answers (any_dense k (length before)) (read drawing.now) result before after }
{
    code(any_dense(drawing, k, buffer))
}

#[tactic(auto, using(counter::proofs::Statements::any_dense_laws))]
fn any_dense(drawing: &[u8], k: i32, buffer: &mut [u8]) -> Result<Answer, Fault>
    ensures { let before = buffer.old in let after = buffer.new in
        Answers (any_dense k (length before)) (read drawing.now) (outcome_code result) before after }
{
    let net = net_of(drawing)?;
    range_fault(k, buffer.len(), BLOCK)?;
    Ok(put_finding(lowest_above(&net, k), buffer))
}
