// The calls for what commutes with every Pauli of a list.
ghost use Rattle.std.specs.Prelude.{length};
ghost use Rattle.centralizer.specs.Calls.{within_checked, within_call, own_checked, own_call};
ghost use Rattle.capi.specs.CallContracts.{Listing};

use crate::answer::{Answer, code_number};
use centralizer::calls::{centralizer_of, centralizer_within};

#[unsafe(no_mangle)]
pub extern "C" fn howhiruke_centralizer_of(roll: &[u8], work: &mut [u64], out: &mut [u8]) -> Answer
    ensures { Listing (own_call roll.now (length work.old)) (own_checked roll.now (length work.old)) work.old out.old result work.new out.new }
{
    let wrote = centralizer_of(roll, work, out);
    code_number(wrote)
}

// The named support is a list of numbers.
#[unsafe(no_mangle)]
pub extern "C" fn howhiruke_centralizer_within(
    roll: &[u8],
    named: &[u32],
    work: &mut [u64],
    out: &mut [u8],
) -> Answer
    ensures { Listing (within_call roll.now named.now (length work.old)) (within_checked roll.now named.now (length work.old)) work.old out.old result work.new out.new }
{
    let wrote = centralizer_within(roll, named, work, out);
    code_number(wrote)
}
