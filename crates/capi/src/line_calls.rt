// The call on a line that combines lists.
ghost use Rattle.std.specs.Prelude.{[], ◌∷◌};
ghost use Rattle.capi.specs.CallContracts.{Combining};

use crate::answer::{Answer, code_number};
use combined_lists::combine::combine;

// Writes what a line comes to, with the rolls A to D, of which those of no bytes were not sent.
#[unsafe(no_mangle)]
pub extern "C" fn howhiruke_combine(
    line: &[u8],
    a: &[u8],
    b: &[u8],
    c: &[u8],
    d: &[u8],
    work: &mut [u64],
    out: &mut [u8],
) -> Answer
    ensures { Combining line.now (a.now ∷ b.now ∷ c.now ∷ d.now ∷ []) work.old out.old result work.new out.new }
{
    let wrote = combine(line, &[a, b, c, d], work, out);
    code_number(wrote)
}
