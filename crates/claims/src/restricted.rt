// Paulis of a roll on the qubits of a support alone, over its places.
ghost use Rattle.std.specs.Prelude.{◌≡◌, ◌<◌, ◌≤◌, length, slice_index_or};
ghost use Rattle.pauli.specs.Bytes.{u32s_in};
ghost use Rattle.pauli.specs.Condense.{condensed, list_of, nothing};
ghost use Rattle.pauli.specs.PlaceSet.{set_in};
ghost use Rattle.pauli.specs.Sets.{set_of, condense, pauli_of};
ghost use Rattle.pauli.specs.Signed.{held};
ghost use Rattle.pauli.specs.Support.{Rising};

use pauli::bytes::numbers_at;
use pauli::condense::with_place;
use pauli::places::Places;
use pauli::roll::Roll;
use pauli::signed::Pauli;
use pauli::support::{Place, Qubit, place_from, qubit_at};

// The places of those of the rising numbers that are in the support.
fn places_within(numbers: &[[u8; 4]], support: &[u32]) -> Places
    requires { (length support.now ≤ 128) × Rising 0 (u32s_in numbers.now) × Rising 0 support.now }
    ensures { set_in result ≡ condense support.now (set_of (u32s_in numbers.now)) }
{
    let mut set = Places::none();
    let mut from = Place(0);
    for bytes in numbers {
        let q = Qubit(u32::from_le_bytes(*bytes));
        let place = place_from(support, from, q);
        if place.0 < support.len() {
            if qubit_at(support, place) == q {
                set = with_place(set, place);
            }
        }
        from = place;
    }
    set
}

// Pauli i of a roll on the qubits of a support alone, over its places.
pub(crate) fn restrict_from(roll: Roll, i: usize, support: &[u32]) -> Pauli
    requires { (i < roll.count) × (length support.now ≤ 128) × Rising 0 support.now }
    ensures { held result ≡ condensed support.now (pauli_of (slice_index_or (list_of roll.entry.bytes.now) i nothing)) }
{
    let e = roll.entry(i);
    // As in condense_from, which says why this sum is no function.
    let at = 2 + 10 * roll.count + 4 * e.start;
    let x = places_within(numbers_at(roll.bytes, at, e.xcount), support);
    let z = places_within(numbers_at(roll.bytes, at + 4 * e.xcount, e.zcount), support);
    Pauli {
        exponent: e.exponent,
        x: x,
        z: z,
    }
}
