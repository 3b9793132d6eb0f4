// Sheet: why no set that holds constraint c is denser than its top density.
ghost use Rattle.std.specs.Prelude.{length};
ghost use Rattle.codes.specs.Codes.{outcome_code};
ghost use Rattle.records.specs.Read.{read};
ghost use Rattle.counter.specs.Outcome.{Answers};
ghost use Rattle.counter.specs.Question.{sheet_for};

use checker::ROW;
use codes::{Answer, Fault, code};
use counter::count::one;
use counter::fault::number_fault;
use counter::sheet::put_sheet;
use net::net_of;

// Writes a sound sheet for constraint c whose claim is its top density, four bytes for each constraint.
#[unsafe(no_mangle)]
pub extern "C" fn brentivex_sheet(drawing: &[u8], c: u32, buffer: &mut [u8]) -> u32
    ensures { let before = buffer.old in let after = buffer.new in
        Answers (sheet_for c (length before)) (read drawing.now) result before after }
{
    // No From leads from u32 to usize.
    code(sheet_for(drawing, c as usize, buffer))
}

#[tactic(auto, using(counter::proofs::Statements::sheet_laws))]
fn sheet_for(drawing: &[u8], c: usize, buffer: &mut [u8]) -> Result<Answer, Fault>
    ensures { let before = buffer.old in let after = buffer.new in
        Answers (sheet_for c (length before)) (read drawing.now) (outcome_code result) before after }
{
    let net = net_of(drawing)?;
    number_fault(net.constraints, c, buffer.len(), ROW * net.constraints)?;
    put_sheet(net.constraints, &one(&net, c).shares, buffer);
    Ok(Answer::Given)
}
