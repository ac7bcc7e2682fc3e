// The calls on two lists. Each lends a work area.
ghost use Rattle.std.specs.Prelude.{◌≡◌, length};
ghost use Rattle.pauli_group.specs.Calls.{common_call, two_lists, order_call, modulo_call, quotient_call};
ghost use Rattle.capi.specs.Code.{code_order};
ghost use Rattle.pauli_group.specs.Promises.{promise_of, promise_numbered};
ghost use Rattle.capi.specs.CallContracts.{Telling, Listing};

use crate::answer::{Answer, code_number, code_order};
use pauli_group::common::bitand;
use pauli_group::modulo::modulo;
use pauli_group::order::partial_cmp;
use pauli_group::promise::{Promise, Promises};
use pauli_group::quotient::try_quotient;

// The promises of two lists, by their numbers.
fn promises_of(left: u64, right: u64) -> Promises
    ensures { (promise_of result.left ≡ promise_numbered left) × (promise_of result.right ≡ promise_numbered right) }
{
    Promises {
        left: Promise::from(left),
        right: Promise::from(right),
    }
}

// Compares the groups of two lists.
#[unsafe(no_mangle)]
pub extern "C" fn howhiruke_partial_cmp(
    left: &[u8],
    right: &[u8],
    left_promise: u64,
    right_promise: u64,
    work: &mut [u64],
) -> Answer
    ensures { Telling (code_order (order_call (promise_numbered left_promise) (promise_numbered right_promise) left.now right.now (length work.old))) (two_lists left.now right.now (length work.old)) work.old result work.new }
{
    let promises = promises_of(left_promise, right_promise);
    let found = partial_cmp(left, right, promises, work);
    code_order(found)
}

// Writes the left list modulo the right one. The left promise is not read.
#[unsafe(no_mangle)]
pub extern "C" fn howhiruke_modulo(
    left: &[u8],
    right: &[u8],
    left_promise: u64,
    right_promise: u64,
    work: &mut [u64],
    out: &mut [u8],
) -> Answer
    ensures { Listing (modulo_call (promise_numbered right_promise) left.now right.now (length work.old)) (two_lists left.now right.now (length work.old)) work.old out.old result work.new out.new }
{
    let promises = promises_of(left_promise, right_promise);
    let wrote = modulo(left, right, promises, work, out);
    code_number(wrote)
}

// Writes the quotient of the left list by the right one, the divisor.
#[unsafe(no_mangle)]
pub extern "C" fn howhiruke_try_quotient(
    left: &[u8],
    right: &[u8],
    left_promise: u64,
    right_promise: u64,
    work: &mut [u64],
    out: &mut [u8],
) -> Answer
    ensures { Listing (quotient_call (promise_numbered left_promise) (promise_numbered right_promise) left.now right.now (length work.old)) (two_lists left.now right.now (length work.old)) work.old out.old result work.new out.new }
{
    let promises = promises_of(left_promise, right_promise);
    let wrote = try_quotient(left, right, promises, work, out);
    code_number(wrote)
}

// Writes the common part of the groups of two lists. The promises are not read.
#[unsafe(no_mangle)]
pub extern "C" fn howhiruke_bitand(
    left: &[u8],
    right: &[u8],
    left_promise: u64,
    right_promise: u64,
    work: &mut [u64],
    out: &mut [u8],
) -> Answer
    ensures { Listing (common_call left.now right.now (length work.old)) (two_lists left.now right.now (length work.old)) work.old out.old result work.new out.new }
{
    let promises = promises_of(left_promise, right_promise);
    let wrote = bitand(left, right, promises, work, out);
    code_number(wrote)
}
