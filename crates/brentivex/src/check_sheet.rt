// Check: whether a sheet shows a claim.
ghost use Rattle.codes.specs.Codes.{outcome_code};
ghost use Rattle.records.specs.Read.{read};
ghost use Rattle.counter.specs.Outcome.{Replies};
ghost use Rattle.counter.specs.Question.{check};

use checker::{ROW, shows};
use codes::{Answer, Fault, code};
use counter::fault::number_fault;
use net::net_of;

// Whether a sheet for constraint c is sound and its claim is the number claimed; bytes behind the sheet are ignored.
#[unsafe(no_mangle)]
pub extern "C" fn brentivex_check(drawing: &[u8], c: u32, sheet: &[u8], claimed: i32) -> u32
    ensures { Replies (check c sheet.now claimed) (read drawing.now) result }
{
    // No From leads from u32 to usize.
    code(check(drawing, c as usize, sheet, claimed))
}

#[tactic(auto, using(counter::proofs::Statements::check_laws))]
fn check(drawing: &[u8], c: usize, sheet: &[u8], claimed: i32) -> Result<Answer, Fault>
    ensures { Replies (check c sheet.now claimed) (read drawing.now) (outcome_code result) }
{
    let net = net_of(drawing)?;
    number_fault(net.constraints, c, sheet.len(), ROW * net.constraints)?;
    if shows(&net, c, sheet, claimed) {
        Ok(Answer::Given)
    } else {
        Ok(Answer::NotShown)
    }
}
