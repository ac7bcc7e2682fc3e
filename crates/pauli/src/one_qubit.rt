// Signed Paulis on one qubit, by their numbers: 4 times (2 times x + z), plus the exponent.
ghost use Rattle.std.specs.Prelude.{◌≡◌, ◌+◌, ◌*◌, ◌/◌, ◌%◌, ◌<◌, ◌==◌, bit_or};
ghost use Rattle.binar.specs.Row.{weight, if_bit};
ghost use Rattle.pauli.specs.Pauli.{normal, times, anticommute};
ghost use Rattle.pauli.specs.PlaceSet.{set_in};
ghost use Rattle.pauli.specs.Signed.{held};
ghost use Rattle.pauli.specs.OneQubit.{product_number, OneQubitCall};

use crate::places::Places;
use crate::refusal::{Reason, Refusal};
use crate::signed::{Pauli, Product};

// The last number.
const LAST: usize = 15;

// The number of each product: that of a times b is entry 16 a + b. Each line has the products of one a, which it names.
pub const PRODUCTS: [u8; 256] = [
    0, 1, 2, 3, 4, 5, 6, 7, 8, 9, 10, 11, 12, 13, 14, 15, // I
    1, 2, 3, 0, 5, 6, 7, 4, 9, 10, 11, 8, 13, 14, 15, 12, // i I
    2, 3, 0, 1, 6, 7, 4, 5, 10, 11, 8, 9, 14, 15, 12, 13, // -I
    3, 0, 1, 2, 7, 4, 5, 6, 11, 8, 9, 10, 15, 12, 13, 14, // -i I
    4, 5, 6, 7, 0, 1, 2, 3, 14, 15, 12, 13, 10, 11, 8, 9, // Z
    5, 6, 7, 4, 1, 2, 3, 0, 15, 12, 13, 14, 11, 8, 9, 10, // i Z
    6, 7, 4, 5, 2, 3, 0, 1, 12, 13, 14, 15, 8, 9, 10, 11, // -Z
    7, 4, 5, 6, 3, 0, 1, 2, 13, 14, 15, 12, 9, 10, 11, 8, // -i Z
    8, 9, 10, 11, 12, 13, 14, 15, 0, 1, 2, 3, 4, 5, 6, 7, // X
    9, 10, 11, 8, 13, 14, 15, 12, 1, 2, 3, 0, 5, 6, 7, 4, // i X
    10, 11, 8, 9, 14, 15, 12, 13, 2, 3, 0, 1, 6, 7, 4, 5, // -X
    11, 8, 9, 10, 15, 12, 13, 14, 3, 0, 1, 2, 7, 4, 5, 6, // -i X
    12, 13, 14, 15, 8, 9, 10, 11, 6, 7, 4, 5, 2, 3, 0, 1, // XZ
    13, 14, 15, 12, 9, 10, 11, 8, 7, 4, 5, 6, 3, 0, 1, 2, // i XZ
    14, 15, 12, 13, 10, 11, 8, 9, 4, 5, 6, 7, 0, 1, 2, 3, // -XZ
    15, 12, 13, 14, 11, 8, 9, 10, 5, 6, 7, 4, 1, 2, 3, 0, // -i XZ
];

// The number of the product of the Paulis with these numbers.
fn entry(a: usize, b: usize) -> usize
    requires { (a < 16) × (b < 16) }
    ensures { result ≡ product_number a b }
{
    PRODUCTS[16 * a + b] as usize
}

// Multiplies the Pauli with number a by the one with number b, on one qubit.
pub fn one_qubit_product(a: usize, b: usize) -> Result<usize, Refusal>
    ensures { OneQubitCall a b result }
{
    if a > LAST {
        return Err(Reason::Number.into());
    }
    if b > LAST {
        return Err(Reason::Number.into());
    }
    Ok(entry(a, b))
}

// The number of a Pauli on one place: there the size of a set is its bit.
fn number(p: Pauli) -> usize
    ensures { result ≡ 4 * (2 * weight (set_in p.x) + weight (set_in p.z)) + p.exponent % 4 }
{
    let x = p.x;
    let z = p.z;
    4 * (2 * x.weight() + z.weight()) + (p.exponent % 4) as usize
}

// The set if the bit is 1, else none.
fn if_bit(bit: usize, set: Places) -> Places
    requires { bit < 2 }
    ensures { set_in result ≡ if_bit bit (set_in set) 0 }
{
    if bit == 1 {
        return set;
    }
    Places::none()
}

// The Pauli with number n on the place that the set has.
fn numbered(n: usize, place: Places) -> Pauli
    ensures e { result.exponent ≡ n % 4 }
    ensures x { set_in result.x ≡ if_bit (n / 8 % 2) (set_in place) 0 }
    ensures z { set_in result.z ≡ if_bit (n / 4 % 2) (set_in place) 0 }
{
    Pauli {
        exponent: (n % 4) as u8,
        x: if_bit(n / 8 % 2, place),
        z: if_bit(n / 4 % 2, place),
    }
}

// The places that p or q lies on.
fn places_of_both(p: Pauli, q: Pauli) -> Places
    ensures { set_in result ≡ bit_or (bit_or (set_in p.x) (set_in p.z)) (bit_or (set_in q.x) (set_in q.z)) }
{
    let x = p.x;
    let z = p.z;
    let u = q.x;
    let v = q.z;
    (x | z) | (u | v)
}

// The product of p and q, and whether the two anticommute: from the table where both lie on no place or on one and the same. There
// they anticommute if the products in both orders differ.
pub(crate) fn multiply(p: Pauli, q: Pauli) -> Product
    ensures pauli { normal (held result.pauli) ≡ times (held p) (held q) }
    ensures anticommute { result.anticommute ≡ (anticommute (held p) (held q) == 1) }
{
    let place = places_of_both(p, q);
    if place.weight() > 1 {
        return p.times(q);
    }
    let a = number(p);
    let b = number(q);
    let n = entry(a, b);
    Product {
        pauli: numbered(n, place),
        anticommute: n != entry(b, a),
    }
}
