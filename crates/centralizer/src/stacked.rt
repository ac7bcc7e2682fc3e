// The Paulis whose rows are the stacked matrix: those of the list with X and Z exchanged, then X and then Z at each of their places
// that is not named.
ghost use Rattle.std.specs.Prelude.{◌≡◌, ◌+◌, ◌*◌, ◌^◌, ◌<◌, ◌≤◌, map, length};
ghost use Rattle.pauli.specs.Condense.{list_of};
ghost use Rattle.pauli.specs.Signed.{held, list_in};
ghost use Rattle.pauli.specs.Support.{Rising};
ghost use Rattle.pauli_group.specs.Inner.Area.{Outside};
ghost use Rattle.pauli_group.specs.Inner.Lists.{ReadableAll};
ghost use Rattle.pauli_theory.specs.Centralizer.{unnamed};
ghost use Rattle.centralizer.specs.Stacked.{stacked_at, exchanged_over, unit_at};

use pauli::condense::{condense_from, with_place};
use pauli::places::Places;
use pauli::roll::Roll;
use pauli::signed::{Pauli, store};
use pauli::support::Place;
use pauli_group::area::WORK_WORDS;

// Where they stand, five words each: behind a form of 254 rows of 8 words and its pivots.
pub(crate) const STACKED: usize = 2304;

// X at a place, or else Z.
pub(crate) fn unit_at(place: Place, is_x: bool) -> Pauli
    requires { place.0 < 128 }
    ensures { held result ≡ unit_at is_x place.0 }
{
    let none = Places::none();
    let set = with_place(none, place);
    if is_x {
        Pauli {
            exponent: 0,
            x: set,
            z: none,
        }
    } else {
        Pauli {
            exponent: 0,
            x: none,
            z: set,
        }
    }
}

// Reads the Paulis of a roll over the places of a support that has their qubits, X and Z exchanged.
pub(crate) fn read_exchanged(roll: Roll, own: &[u32], w: &mut [u64; WORK_WORDS])
    requires { ReadableAll roll.bytes.now roll.count own.now × (length own.now ≤ 128) }
    ensures list { list_in w.new stacked_at roll.entry.count ≡ map (exchanged_over own.now) (list_of roll.entry.bytes.now) }
    ensures rest { Outside stacked_at (5 * roll.entry.count) w.old w.new }
{
    for i in 0..roll.count {
        let p = condense_from(roll, i, own);
        let exchanged = Pauli {
            exponent: 0,
            x: p.z,
            z: p.x,
        };
        store(w, STACKED + 5 * i, exchanged);
    }
}

// Puts X, or else Z, at each place of the list's own that is not named behind the first stacked Paulis; tells how many there are then.
pub(crate) fn put_unnamed(
    w: &mut [u64; WORK_WORDS],
    first: usize,
    own: &[u32],
    named: &[u32],
    is_x: bool,
) -> usize
    requires { (length own.now ≤ 63) × (first ≤ 191) × Rising 0 own.now }
    ensures count { result ≡ first + length (unnamed named.now own.now) }
    ensures list { list_in w.new (stacked_at + 5 * first) (length (unnamed named.now own.now)) ≡ map (unit_at is_x) (unnamed named.now own.now) }
    ensures rest { Outside (stacked_at + 5 * first) (5 * length (unnamed named.now own.now)) w.old w.new }
{
    let mut count = first;
    for (i, number) in own.iter().enumerate() {
        if !named.contains(number) {
            store(w, STACKED + 5 * count, unit_at(Place(i), is_x));
            count += 1;
        }
    }
    count
}
