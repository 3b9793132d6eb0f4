// Look over: how many objects and constraints the drawing has.
ghost use Rattle.std.specs.Prelude.{length};
ghost use Rattle.codes.specs.Codes.{outcome_code};
ghost use Rattle.records.specs.Read.{read};
ghost use Rattle.counter.specs.Outcome.{Answers};
ghost use Rattle.counter.specs.Question.{look_over};

use codes::{Answer, Fault, code};
use counter::block::{TWO_NUMBERS, put_numbers};
use counter::fault::room_fault;
use net::counts_of;

// Writes the number of objects and of constraints, two bytes each.
#[unsafe(no_mangle)]
pub extern "C" fn brentivex_look_over(drawing: &[u8], buffer: &mut [u8]) -> u32
    ensures { let before = buffer.old in let after = buffer.new in
        Answers (look_over (length before)) (read drawing.now) result before after }
{
    code(look_over(drawing, buffer))
}

#[tactic(auto, using(counter::proofs::Statements::look_over_laws))]
fn look_over(drawing: &[u8], buffer: &mut [u8]) -> Result<Answer, Fault>
    ensures { let before = buffer.old in let after = buffer.new in
        Answers (look_over (length before)) (read drawing.now) (outcome_code result) before after }
{
    let counts = counts_of(drawing)?;
    room_fault(buffer.len(), TWO_NUMBERS)?;
    put_numbers(counts.objects, counts.constraints, buffer);
    Ok(Answer::Given)
}
