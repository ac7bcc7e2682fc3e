// Written rolls: exponents 0 to 3, given 1, starts as counted.
ghost use Rattle.std.specs.Prelude.{◌≡◌, ℕ, ◌+◌, ◌*◌, ◌%◌, ◌^◌, ◌<◌, ◌≤◌, map, length};
ghost use Rattle.pauli.specs.Bytes.{le16, le32, le32s};
ghost use Rattle.pauli.specs.Pauli.{select};
ghost use Rattle.pauli.specs.Roll.{numbers};
ghost use Rattle.pauli.specs.Signed.{paulis_in};
ghost use Rattle.pauli.specs.PlaceSet.{set_in};
ghost use Rattle.pauli.specs.Told.{answer};
ghost use Rattle.pauli.specs.Writing.{put_bytes, entry_bytes, numbers_of, table_of, sparse_over, OnPlaces, roll_over, told_bytes, left_in};
ghost use Rattle.pauli.specs.Refusals.{told_of};

use crate::places::Places;
use crate::refusal::{Reason, Refusal};
use crate::signed::Pauli;
use crate::support::qubit_at;

// Writes bytes from byte at on. A loop, and never inlined: so the library for C takes no name from outside but memset, where the compiler
// makes memcpy or memmove of a copied slice, and of a loop that copies an array of its caller's.
#[inline(never)]
pub fn put_slice(out: &mut [u8], at: usize, bytes: &[u8])
    requires { at + length bytes.now ≤ length out.old }
    ensures { out.new ≡ put_bytes out.old at bytes.now }
{
    for (k, byte) in bytes.iter().enumerate() {
        out[at + k] = *byte;
    }
}

// Writes a number as two bytes.
pub fn put_u16(out: &mut [u8], at: usize, v: usize)
    requires { (at + 2 ≤ length out.old) × (v < 65536) }
    ensures { out.new ≡ put_bytes out.old at (le16 v) }
{
    out[at..at + 2].copy_from_slice(&(v as u16).to_le_bytes());
}

// Writes a number as four bytes. Beside `put_u16`: the two have one line each, and are given numbers of two types.
pub fn put_u32(out: &mut [u8], at: usize, number: u32)
    requires { at + 4 ≤ length out.old }
    ensures { out.new ≡ put_bytes out.old at (le32 number) }
{
    out[at..at + 4].copy_from_slice(&number.to_le_bytes());
}

// Writes the entry of a Pauli.
pub(crate) fn put_entry(
    out: &mut [u8],
    at: usize,
    exponent: u8,
    start: u32,
    xcount: usize,
    zcount: usize,
)
    requires { (at + 10 ≤ length out.old) × (xcount < 65536) × (zcount < 65536) }
    ensures { out.new ≡ put_bytes out.old at (entry_bytes exponent start xcount zcount) }
{
    out[at] = 1;
    out[at + 1] = exponent % 4;
    put_u32(out, at + 2, start);
    put_u16(out, at + 6, xcount);
    put_u16(out, at + 8, zcount);
}

// Writes the qubit numbers of a set of places, rising, and returns the byte past them.
fn put_set(out: &mut [u8], at: usize, set: Places, support: &[u32]) -> usize
    requires { (length support.now ≤ 128) × (at + 4 * length (select (set_in set) support.now) ≤ length out.old) }
    ensures left { out.new ≡ put_bytes out.old at (le32s (select (set_in set) support.now)) }
    ensures next { result ≡ at + 4 * length (select (set_in set) support.now) }
{
    let mut next = at;
    for p in set.iter() {
        if p.0 < support.len() {
            put_u32(out, next, qubit_at(support, p).0);
            next += 4;
        }
    }
    next
}

// How many qubit numbers the bodies of the Paulis of a list hold.
fn numbers_in(list: &[[u64; 5]]) -> usize
    requires { length list.now ≤ 256 }
    ensures { (result ≡ numbers_of (paulis_in list.now)) × (result ≤ 256 * length list.now) }
{
    let mut total = 0;
    for words in list {
        let p = Pauli::from_words(words);
        let x = p.x;
        let z = p.z;
        total += x.weight() + z.weight();
    }
    total
}

// Writes the entries of the Paulis of a list, behind the count.
fn put_table(out: &mut [u8], list: &[[u64; 5]])
    requires { (length list.now ≤ 256) × (2 + 10 * length list.now ≤ length out.old) }
    ensures { out.new ≡ put_bytes out.old 2 (table_of 0 (paulis_in list.now)) }
{
    let mut before = 0;
    for (i, words) in list.iter().enumerate() {
        let p = Pauli::from_words(words);
        let x = p.x;
        let z = p.z;
        let xcount = x.weight();
        let zcount = z.weight();
        put_entry(out, 2 + 10 * i, p.exponent, before as u32, xcount, zcount);
        before += xcount + zcount;
    }
}

// Writes the bodies of the Paulis of a list, from byte at on.
fn put_bodies(out: &mut [u8], at: usize, list: &[[u64; 5]], support: &[u32])
    requires { (length support.now ≤ 128) × (at + 4 * length (numbers (map (sparse_over support.now) (paulis_in list.now))) ≤ length out.old) }
    ensures { out.new ≡ put_bytes out.old at (le32s (numbers (map (sparse_over support.now) (paulis_in list.now)))) }
{
    let mut next = at;
    for words in list {
        let p = Pauli::from_words(words);
        let x = p.x;
        let z = p.z;
        let middle = put_set(out, next, x, support);
        next = put_set(out, middle, z, support);
    }
}

// Writes the roll of the Paulis of a list, which stand over the places of a support, if the output has room. That they stand over
// these places is a fact of the words of the list (`OnPlaces`), which no value carries.
pub fn write_roll(list: &[[u64; 5]], support: &[u32], out: &mut [u8]) -> Result<usize, Refusal>
    requires { (length list.now ≤ 256) × (length support.now ≤ 128) × OnPlaces (length support.now) (paulis_in list.now) }
    ensures told { told_of result ≡ told_bytes (answer (roll_over support.now (paulis_in list.now))) out.old }
    ensures left { out.new ≡ left_in (answer (roll_over support.now (paulis_in list.now))) out.old }
{
    let table = 2 + 10 * list.len();
    let size = table + 4 * numbers_in(list);
    if out.len() < size {
        return Err(Reason::Output.into());
    }
    put_u16(out, 0, list.len());
    put_table(out, list);
    put_bodies(out, table, list, support);
    Ok(size)
}
