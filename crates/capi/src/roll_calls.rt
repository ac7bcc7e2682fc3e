// The calls on rolls alone. No call here uses a work area.
ghost use Rattle.std.specs.Prelude.{◌≡◌, ◌<◌};
ghost use Rattle.pauli.specs.Roll.{count_of};
ghost use Rattle.pauli.specs.OneQubit.{one_qubit_call};
ghost use Rattle.pauli.specs.Told.{answer};
ghost use Rattle.pauli.specs.JoinCalls.{join_of, entry_of, stretch_in};
ghost use Rattle.capi.specs.Code.{code_number, code_looked, code_body};
ghost use Rattle.capi.specs.CallContracts.{Writing, Multiplying, Locating};

use crate::answer::{Answer, code_looked, code_number, code_product, code_refusal, code_values};
use pauli::join::join;
use pauli::joined::Pair;
use pauli::lookup::joined_entry;
use pauli::one_qubit::one_qubit_product;
use pauli::product::product;
use pauli::refusal::Reason;
use pauli::roll::{Roll, check_roll};

// How many Paulis a roll has.
#[unsafe(no_mangle)]
pub extern "C" fn howhiruke_check_roll(roll: &[u8]) -> Answer
    ensures { result ≡ code_number (count_of roll.now) }
{
    let checked = check_roll(roll);
    code_number(checked)
}

// Writes the product of Pauli i of the one roll and Pauli j of the other, and tells whether the two anticommute.
#[unsafe(no_mangle)]
pub extern "C" fn howhiruke_product(
    left: &[u8],
    i: usize,
    right: &[u8],
    j: usize,
    out: &mut [u8],
) -> Answer
    ensures { Multiplying left.now i right.now j out.old result out.new }
{
    let made = product(left, i, right, j, out);
    code_product(made)
}

// The product of two signed Paulis on one qubit, by their numbers.
#[unsafe(no_mangle)]
pub extern "C" fn howhiruke_one_qubit_product(a: usize, b: usize) -> Answer
    ensures { result ≡ code_number (one_qubit_call a b) }
{
    let found = one_qubit_product(a, b);
    code_number(found)
}

// Writes the joined roll.
#[unsafe(no_mangle)]
pub extern "C" fn howhiruke_join(left: &[u8], right: &[u8], out: &mut [u8]) -> Answer
    ensures { Writing (join_of left.now right.now) out.old result out.new }
{
    let wrote = join(left, right, out);
    code_number(wrote)
}

// Generator n of the joined list: its exponent value and its counts.
#[unsafe(no_mangle)]
pub extern "C" fn howhiruke_joined_entry(left: &[u8], right: &[u8], n: usize) -> Answer
    ensures { result ≡ code_looked (entry_of left.now right.now n) }
{
    let found = joined_entry(left, right, n);
    code_looked(found)
}

// Where the body of Pauli i of a roll stands in it; side is 0 for the left roll and 1 for the right one. The sum is that of
// pauli's condense_from, which says why it is no function.
fn stretch_in(side: usize, roll: Roll, i: usize) -> Answer
    requires { i < roll.count }
    ensures { result ≡ code_body (answer (stretch_in side roll.entry.bytes.now i)) }
{
    let e = roll.entry(i);
    code_values(
        side,
        2 + 10 * roll.count + 4 * e.start,
        4 * (e.xcount + e.zcount),
    )
}

// Where the body of generator n of the joined list stands: in roll 0, the left one, or 1. Which one is told by two comparisons, as
// in joined_entry, which says why.
#[unsafe(no_mangle)]
pub extern "C" fn howhiruke_joined_body(left: &[u8], right: &[u8], n: usize) -> Answer
    ensures { Locating left.now right.now n result }
{
    let pair = match Pair::read(left, right) {
        Ok(pair) => pair,
        Err(refusal) => return code_refusal(refusal),
    };
    let l = pair.left;
    let r = pair.right;
    if n < l.count {
        return stretch_in(0, l, n);
    }
    if n - l.count < r.count {
        return stretch_in(1, r, n - l.count);
    }
    code_refusal(Reason::Number.into())
}
