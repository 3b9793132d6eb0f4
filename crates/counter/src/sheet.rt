// The writer of a sheet's bytes.
ghost use Rattle.std.specs.Prelude.{◌≤◌, length};
ghost use Rattle.limits.specs.Limits.{most_constraints};
ghost use Rattle.checker.specs.Sheet.{sheet_size};
ghost use Rattle.counter.specs.Written.{SheetWritten};

use crate::block::put_two;
use limits::ENDS;

// Writes the shares of m constraints, two bytes each: first end, second end.
#[tactic(auto, using(crate::proofs::sheet::Writing::share_laws))]
pub fn put_sheet(m: usize, shares: &[u16; ENDS], buffer: &mut [u8])
    requires { (m ≤ most_constraints) × (sheet_size m ≤ length buffer.old) }
    ensures { SheetWritten m shares.now buffer.old buffer.new }
{
    for (i, share) in shares[..2 * m].iter().enumerate() {
        put_two(buffer, 2 * i, usize::from(*share));
    }
}
