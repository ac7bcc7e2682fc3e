// The result: the rows of the kernel as Paulis on the named qubits, and X and Z on each named qubit that the list does not use.
ghost use Rattle.std.specs.Prelude.{◌≡◌, ◌+◌, ◌*◌, ◌^◌, ◌<◌, ◌≤◌, map, length, drop};
ghost use Rattle.binar.specs.Kernel.{without};
ghost use Rattle.binar.specs.Words.{row_at, matrix};
ghost use Rattle.pauli.specs.Condense.{condensed};
ghost use Rattle.pauli.specs.Signed.{held, list_in};
ghost use Rattle.pauli.specs.Support.{All, Rising};
ghost use Rattle.pauli_theory.specs.Centralizer.{x_and_z};
ghost use Rattle.pauli_theory.specs.Inner.ModuloPlaces.{moved_pauli};
ghost use Rattle.pauli_group.specs.Inner.Area.{Outside};
ghost use Rattle.pauli_group.specs.Inner.Moved.{MovablePauli};
ghost use Rattle.centralizer.specs.Stacked.{kernel_at, result_at, places_of_row};

use crate::stacked::unit_at;
use pauli::places::Places;
use pauli::signed::{Pauli, store};
use pauli::support::Place;
use pauli_group::area::{ROW_WORDS, WORK_WORDS};
use pauli_group::moved::move_pauli;

// Where the kernel's rows stand, in place of the stacked Paulis, of which only the form is needed then.
pub(crate) const KERNEL: usize = 2304;

// Where the result stands, five words each: behind the kernel's rows, of which there are at most 126, of four words.
pub(crate) const RESULT: usize = 2816;

// The Pauli over s places whose row stands at word at.
fn pauli_of_row(w: &[u64; WORK_WORDS], at: usize, s: usize) -> Pauli
    requires { (at + 4 ≤ 4096) × (s ≤ 63) × (row_at w.now at 4 < 2 ^ (2 * s)) }
    ensures { held result ≡ places_of_row s (row_at w.now at 4) }
{
    if s == 0 {
        return Pauli::identity();
    }
    let low = w[at];
    let high = w[at + 1];
    Pauli {
        exponent: 0,
        x: Places {
            low: low % (1u64 << s),
            high: 0,
        },
        z: Places {
            low: (high << (64 - s)) + (low >> s),
            high: 0,
        },
    }
}

// Puts the Paulis of the n rows of the kernel, from the list's own places to the named ones, in the result's place.
pub(crate) fn put_kernel(w: &mut [u64; WORK_WORDS], n: usize, own: &[u32], named: &[u32])
    requires { (n ≤ 126) × (length own.now ≤ 63) × (length named.now ≤ 63) × All (λ u. (u < 2 ^ (2 * length own.now)) × MovablePauli own.now named.now (places_of_row (length own.now) u)) (matrix 4 n (drop kernel_at w.old)) }
    ensures list { list_in w.new result_at n ≡ map (λ u. moved_pauli own.now named.now (places_of_row (length own.now) u)) (matrix 4 n (drop kernel_at w.old)) }
    ensures rest { Outside result_at (5 * n) w.old w.new }
{
    for i in 0..n {
        let p = pauli_of_row(w, KERNEL + ROW_WORDS * i, own.len());
        store(w, RESULT + 5 * i, move_pauli(p, own, named));
    }
}

// Puts X and Z on each named qubit that is not among the list's own behind the first Paulis of the result; tells how many there are then.
pub(crate) fn put_further(
    w: &mut [u64; WORK_WORDS],
    first: usize,
    own: &[u32],
    named: &[u32],
) -> usize
    requires { (first ≤ 126) × (length named.now ≤ 63) × Rising 0 named.now }
    ensures count { result ≡ first + 2 * length (without own.now named.now) }
    ensures list { list_in w.new (result_at + 5 * first) (2 * length (without own.now named.now)) ≡ map (condensed named.now) (x_and_z (without own.now named.now)) }
    ensures rest { Outside (result_at + 5 * first) (10 * length (without own.now named.now)) w.old w.new }
{
    let mut count = first;
    for (i, number) in named.iter().enumerate() {
        if !own.contains(number) {
            store(w, RESULT + 5 * count, unit_at(Place(i), true));
            store(w, RESULT + 5 * count + 5, unit_at(Place(i), false));
            count += 2;
        }
    }
    count
}
