// Tests and changes of the phases of the Paulis in the work area.
ghost use Rattle.std.specs.Prelude.{◌≡◌, ℕ, ◌+◌, ◌*◌, ◌<◌, ◌≤◌, [], ◌∷◌, ◌++◌, map, length};
ghost use Rattle.pauli.specs.Signed.{held, list_in, paulis_in};
ghost use Rattle.pauli.specs.Pauli.{Pauli as PauliOf, phase};
ghost use Rattle.pauli_theory.specs.Standard.{modulus_of, exponent_mod, some_order_four, anticommutes_with_some, some_anticommute, appended, some_imaginary, some_minus};
ghost use Rattle.pauli_group.specs.Inner.Area.{Outside};
ghost use Rattle.pauli_group.specs.Inner.Lists.{SomeTested};
ghost use Rattle.pauli_group.specs.Answers.{yes_number};

use crate::area::{Span, WORK_WORDS};
use pauli::places::Places;
use pauli::signed::{Pauli, store};

// The modulus of the Paulis of a list, which are powers of i: 4; 2 if one is -I; 1 if one is odd.
pub(crate) fn modulus_of(list: &[[u64; 5]]) -> u64
    ensures { result ≡ modulus_of (map (λ (p : PauliOf). p.e) (paulis_in list.now)) }
{
    let mut m = 4;
    for words in list {
        let e = words[0];
        if e % 2 == 1 {
            return 1;
        }
        if e / 2 % 2 == 1 {
            m = 2;
        }
    }
    m
}

// Takes the exponents of the Paulis of a list mod m.
pub(crate) fn take_mod(w: &mut [u64; WORK_WORDS], list: Span, m: u64)
    requires { 0 < m }
    ensures list { list_in w.new list.base list.count ≡ map (exponent_mod m) (list_in w.old list.base list.count) }
    ensures rest { Outside list.base (5 * list.count) w.old w.new }
{
    for i in 0..list.count {
        w[list.base + 5 * i] = w[list.base + 5 * i] % m;
    }
}

// Whether a test holds of one of the Paulis of a list.
fn some<F: Fn(Pauli) -> bool>(list: &[[u64; 5]], test: F) -> bool
    requires { F.IsAlwaysCallable test }
    ensures { SomeTested (F.post test) list.now result }
{
    list.iter().any(|words| test(Pauli::from_words(words)))
}

// Whether one of the Paulis of a list is of order four.
pub(crate) fn some_order_four(list: &[[u64; 5]]) -> bool
    ensures { yes_number result ≡ some_order_four (paulis_in list.now) }
{
    some(list, |p| !p.is_order_two())
}

// Whether one of the Paulis of a list anticommutes with p.
fn anticommutes_with_some(list: &[[u64; 5]], p: Pauli) -> bool
    ensures { yes_number result ≡ anticommutes_with_some (held p) (paulis_in list.now) }
{
    some(list, |q| p.times(q).anticommute)
}

// Whether two of the Paulis of a list anticommute.
pub(crate) fn some_anticommute(list: &[[u64; 5]]) -> bool
    ensures { yes_number result ≡ some_anticommute (paulis_in list.now) }
{
    let mut rest = list;
    while let Some((words, others)) = rest.split_first() {
        if anticommutes_with_some(others, Pauli::from_words(words)) {
            return true;
        }
        rest = others;
    }
    false
}

// Whether one of the Paulis of a list is of weight 0 and has an odd phase.
pub(crate) fn some_imaginary(list: &[[u64; 5]]) -> bool
    ensures { yes_number result ≡ some_imaginary (paulis_in list.now) }
{
    some(list, |p| p.weight() == 0 && p.exponent % 2 == 1)
}

// Whether one of the Paulis of a list is -I.
pub(crate) fn some_minus(list: &[[u64; 5]]) -> bool
    ensures { yes_number result ≡ some_minus (paulis_in list.now) }
{
    some(list, |p| p.weight() == 0 && p.exponent % 4 == 2)
}

// Writes i^k to the five words from word at on.
pub fn put_phase(w: &mut [u64; WORK_WORDS], at: usize, k: u8)
    requires { (at + 5 ≤ 4096) × (k < 4) }
    ensures list { list_in w.new at 1 ≡ phase k ∷ [] }
    ensures rest { Outside at 5 w.old w.new }
{
    store(
        w,
        at,
        Pauli {
            exponent: k,
            x: Places::none(),
            z: Places::none(),
        },
    );
}

// Appends to the Paulis of a list what the modulus asks for; tells how many there are then.
pub(crate) fn append_phase(w: &mut [u64; WORK_WORDS], list: Span, m: u64) -> usize
    requires { (list.base + 5 * list.count + 5 ≤ 4096) × (m ≤ 4) }
    ensures count { result ≡ length (list_in w.old list.base list.count ++ appended m (list_in w.old list.base list.count)) }
    ensures list { list_in w.new list.base result ≡ list_in w.old list.base list.count ++ appended m (list_in w.old list.base list.count) }
    ensures rest { Outside (list.base + 5 * list.count) 5 w.old w.new }
{
    if m == 0 {
        return list.count;
    }
    if m < 3 {
        put_phase(w, list.base + 5 * list.count, m as u8);
        return list.count + 1;
    }
    if list.count == 0 {
        put_phase(w, list.base, 0);
        return 1;
    }
    list.count
}
