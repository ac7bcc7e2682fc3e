// The calls that tell sizes before the work.
ghost use Rattle.std.specs.Prelude.{◌≡◌, length};
ghost use Rattle.pauli_group.specs.Calls.{one_list};
ghost use Rattle.sizes.specs.Calls.{joined_sizes, standard_bound, page_call};
ghost use Rattle.capi.specs.Code.{code_number, code_sizes};
ghost use Rattle.pauli_group.specs.Promises.{promise_numbered};
ghost use Rattle.capi.specs.CallContracts.{Telling};

use crate::answer::{Answer, code_number, code_sizes};
use pauli_group::promise::Promise;
use sizes::bound::standard_bound;
use sizes::joined::joined_sizes;
use sizes::page::page_size;

// How large the joined roll is.
#[unsafe(no_mangle)]
pub extern "C" fn howhiruke_joined_sizes(left: &[u8], right: &[u8]) -> Answer
    ensures { result ≡ code_sizes (joined_sizes left.now right.now) }
{
    let found = joined_sizes(left, right);
    code_sizes(found)
}

// The length that the standard roll of a list cannot exceed.
#[unsafe(no_mangle)]
pub extern "C" fn howhiruke_standard_bound(roll: &[u8]) -> Answer
    ensures { result ≡ code_number (standard_bound roll.now) }
{
    let found = standard_bound(roll);
    code_number(found)
}

// How many elements a page of the group's elements holds.
#[unsafe(no_mangle)]
pub extern "C" fn howhiruke_page_size(
    roll: &[u8],
    promise: u64,
    start: u32,
    count: u32,
    work: &mut [u64],
) -> Answer
    ensures { Telling (code_number (page_call (promise_numbered promise) start count roll.now (length work.old))) (one_list roll.now (length work.old)) work.old result work.new }
{
    let promised = Promise::from(promise);
    let found = page_size(roll, promised, start, count, work);
    code_number(found)
}
