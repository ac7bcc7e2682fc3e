// The call for the closing listing. It lends a work area.
ghost use Rattle.std.specs.Prelude.{length};
ghost use Rattle.closing_report.specs.Listing.{listing};
ghost use Rattle.capi.specs.CallContracts.{Listing};

use crate::answer::{Answer, code_number};
use closing_report::report::closing_report;

// Writes the closing listing of an input.
#[unsafe(no_mangle)]
pub extern "C" fn howhiruke_closing_report(input: &[u8], work: &mut [u64], out: &mut [u8]) -> Answer
    ensures { Listing (listing input.now (length work.old)) (listing input.now (length work.old)) work.old out.old result work.new out.new }
{
    let wrote = closing_report(input, work, out);
    code_number(wrote)
}
