// Standard generators in the work area, and what they tell of the group.
ghost use Rattle.std.specs.Prelude.{◌≡◌, ◌+◌, ◌*◌, ◌/◌, ◌^◌, ◌<◌, ◌≤◌, length};
ghost use Rattle.pauli.specs.Signed.{list_in, paulis_in};
ghost use Rattle.pauli_theory.specs.Standard.{if_zero, step_of};
ghost use Rattle.pauli_group.specs.Inner.Area.{standard_at, Outside};
ghost use Rattle.pauli_group.specs.Promises.{promise_of};
ghost use Rattle.pauli_group.specs.Inner.Lists.{step_told, from_products, clash_of, stabilizer_of};
ghost use Rattle.pauli_group.specs.Answers.{yes_number};

use crate::answers::Phases;
use crate::area::{STANDARD, Span, WORK_WORDS};
use crate::promise::Promise;
use crate::scan::{
    append_phase, modulus_of, some_anticommute, some_imaginary, some_minus, some_order_four,
    take_mod,
};

// What the standard generators tell: the phases, whether the group is not abelian, and whether it is a stabilizer group.
#[derive(Clone, Copy)]
pub struct Signs {
    pub phases: Phases,
    pub clash: bool,
    pub stabilizer: bool,
}

// Makes the standard generators of the n products that stand in their place, the first rank of them of nonzero rows; tells how
// many there are.
pub(crate) fn standardize(w: &mut [u64; WORK_WORDS], n: usize, rank: usize) -> usize
    requires { (n ≤ 128) × (rank ≤ n) }
    ensures count { result ≡ length (from_products rank (list_in w.old standard_at n)) }
    ensures list { list_in w.new standard_at result ≡ from_products rank (list_in w.old standard_at n) }
    ensures rest { Outside standard_at (5 * n + 5) w.old w.new }
{
    let powers = Span::at(STANDARD + 5 * rank, n - rank);
    let m = modulus_of(powers.paulis(w));
    let list = Span::at(STANDARD, rank);
    take_mod(w, list, m);
    if some_order_four(list.paulis(w)) || some_anticommute(list.paulis(w)) {
        take_mod(w, list, 2);
        return append_phase(w, list, m % 2);
    }
    append_phase(w, list, m)
}

// Whether the group of these standard generators is not abelian, or is promised not to be.
fn clash_of(list: &[[u64; 5]], promise: Promise) -> bool
    ensures { yes_number result ≡ clash_of (promise_of promise) (paulis_in list.now) }
{
    match promise {
        Promise::Abelian => false,
        Promise::NotAbelian => true,
        Promise::None => some_anticommute(list),
    }
}

// The phases, by whether one is odd, and else by whether -I is missing.
fn phases_for(imaginary: bool, stabilizer: bool) -> Phases
    ensures { step_told result ≡ if_zero (yes_number imaginary) (if_zero (yes_number stabilizer) 2 4) 1 }
{
    if imaginary {
        return Phases::All;
    }
    if stabilizer {
        Phases::Zero
    } else {
        Phases::ZeroTwo
    }
}

// What standard generators tell.
pub fn signs_of(list: &[[u64; 5]], promise: Promise) -> Signs
    ensures clash { yes_number result.clash ≡ clash_of (promise_of promise) (paulis_in list.now) }
    ensures step { step_told result.phases ≡ step_of (clash_of (promise_of promise) (paulis_in list.now)) (paulis_in list.now) }
    ensures stabilizer { yes_number result.stabilizer ≡ stabilizer_of (clash_of (promise_of promise) (paulis_in list.now)) (paulis_in list.now) }
{
    let clash = clash_of(list, promise);
    let order_four = some_order_four(list);
    let minus = some_minus(list);
    let stabilizer = !clash && !order_four && !minus;
    Signs {
        phases: phases_for(some_imaginary(list), stabilizer),
        clash,
        stabilizer,
    }
}
