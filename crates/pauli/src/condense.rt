// Paulis of a roll over the places of a support.
ghost use Rattle.std.specs.Prelude.{◌≡◌, ◌^◌, ◌<◌, ◌≤◌, length, bit_or, slice_index_or};
ghost use Rattle.pauli.specs.Bytes.{u32s_in};
ghost use Rattle.pauli.specs.Sets.{set_of, condense, pauli_of};
ghost use Rattle.pauli.specs.Signed.{held};
ghost use Rattle.pauli.specs.PlaceSet.{set_in};
ghost use Rattle.pauli.specs.Condense.{Covered, Readable, list_of, condensed, nothing};

use crate::bytes::numbers_at;
use crate::places::Places;
use crate::roll::Roll;
use crate::signed::Pauli;
use crate::support::{Place, Qubit, place_from};

// The set with one place more.
pub fn with_place(set: Places, p: Place) -> Places
    requires { p.0 < 128 }
    ensures { set_in result ≡ bit_or (set_in set) (2 ^ p.0) }
{
    let i = p.0;
    if i < 64 {
        return Places {
            low: set.low | (1u64 << i),
            high: set.high,
        };
    }
    Places {
        low: set.low,
        high: set.high | (1u64 << (i - 64)),
    }
}

// The places of rising numbers.
fn places_of(numbers: &[[u8; 4]], support: &[u32]) -> Places
    requires { (length support.now ≤ 128) × Covered (u32s_in numbers.now) support.now }
    ensures { set_in result ≡ condense support.now (set_of (u32s_in numbers.now)) }
{
    let mut set = Places::none();
    let mut from = Place(0);
    for bytes in numbers {
        let q = Qubit(u32::from_le_bytes(*bytes));
        let place = place_from(support, from, q);
        set = with_place(set, place);
        from = Place(place.0 + 1);
    }
    set
}

// Pauli i of a roll over the places of a support that has its qubits. Here and elsewhere a support is a slice of at most 128
// numbers: a `&Support` would ask more of callers.
pub fn condense_from(roll: Roll, i: usize, support: &[u32]) -> Pauli
    requires { Readable roll.bytes.now roll.count i support.now × (length support.now ≤ 128) }
    ensures { held result ≡ condensed support.now (pauli_of (slice_index_or (list_of roll.entry.bytes.now) i nothing)) }
{
    let e = roll.entry(i);
    // The same sum stands in body_in, is_supported and capi: a function would have to tie the entry to the roll, which `Readable`
    // does here and the roll's being accepted does there.
    let at = 2 + 10 * roll.count + 4 * e.start;
    let x = places_of(numbers_at(roll.bytes, at, e.xcount), support);
    let z = places_of(numbers_at(roll.bytes, at + 4 * e.xcount, e.zcount), support);
    Pauli {
        exponent: e.exponent,
        x: x,
        z: z,
    }
}
