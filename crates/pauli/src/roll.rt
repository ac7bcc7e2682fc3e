// Rolls: the reader. It uses no work area, and indexes nothing by a qubit number.
ghost use Rattle.std.specs.Prelude.{◌≡◌, ℕ, suc, ◌+◌, ◌*◌, ◌<◌, ◌≤◌, min, [], length, drop, slice_index, IfOk};
ghost use Rattle.pauli.specs.Bytes.{u32s_in};
ghost use Rattle.pauli.specs.Roll.{most_paulis, entry_at, entries_at, paulis_at, check_entries, check_set, check_sets, numbers, bodies, count_of};
ghost use Rattle.pauli.specs.Support.{most_qubits, insert_all};
ghost use Rattle.pauli.specs.Told.{refused, answer};
ghost use Rattle.pauli.specs.RollAnswers.{told_entry};
ghost use Rattle.pauli.specs.Refusals.{number_of, told_of, told_by};
ghost use Rattle.pauli.specs.Condense.{list_of};
ghost use Rattle.pauli.specs.Known.{Gathered};

use crate::bytes::{numbers_at, u16_at, u32_at};
use crate::refusal::{Reason, Refusal};
use crate::support::{MOST_QUBITS, Support};

// The most Paulis of a list.
pub const MOST_PAULIS: usize = 128;

// What the table says of a Pauli.
#[derive(Clone, Copy)]
pub struct Entry {
    // the byte as read: above 1 where the roll is not checked yet
    pub given: usize,
    pub exponent: u8,
    pub start: usize,
    pub xcount: usize,
    pub zcount: usize,
}

// The entry of Pauli i.
pub fn entry_at(b: &[u8], i: usize) -> Entry
    requires { 2 + 10 * i + 10 ≤ length b.now }
    ensures { (told_entry result ≡ entry_at b.now (2 + 10 * i)) × (result.xcount < 65536) × (result.zcount < 65536) }
{
    let at = 2 + 10 * i;
    let given = b[at] as usize;
    let exponent = b[at + 1];
    let start = u32_at(b, at + 2) as usize;
    let xcount = u16_at(b, at + 6);
    let zcount = u16_at(b, at + 8);
    Entry {
        given: given,
        exponent: exponent,
        start: start,
        xcount: xcount,
        zcount: zcount,
    }
}

// Checks the n entries in turn, by number: the number of the entry is what a refusal tells.
fn check_entries(b: &[u8], n: usize) -> Result<usize, Refusal>
    requires { (2 + 10 * n ≤ length b.now) × (n ≤ most_paulis) }
    ensures { told_of result ≡ check_entries 0 0 (entries_at b.now 2 n) }
{
    let mut before: usize = 0;
    for i in 0..n {
        let e = entry_at(b, i);
        if e.given > 1 {
            return Err(Refusal {
                reason: Reason::Entry,
                place: i,
            });
        }
        if e.start != before {
            return Err(Refusal {
                reason: Reason::Entry,
                place: i,
            });
        }
        if e.given == 0 {
            return Err(Refusal {
                reason: Reason::Exponent,
                place: i,
            });
        }
        before = before + e.xcount + e.zcount;
    }
    Ok(before)
}

// Checks a set of Pauli i in turn.
fn check_set(numbers: &[[u8; 4]], i: usize) -> Result<(), Refusal>
    ensures { told_of result ≡ check_set i 0 (u32s_in numbers.now) }
{
    let mut least: u64 = 0;
    for bytes in numbers {
        let number = u32::from_le_bytes(*bytes) as u64;
        if number < least {
            return Err(Refusal {
                reason: Reason::Rising,
                place: i,
            });
        }
        least = number + 1;
    }
    Ok(())
}

// Checks the sets of the n Paulis in turn, whose bodies fill the rest of the roll; by number, as `check_entries`.
fn check_sets(b: &[u8], n: usize) -> Result<(), Refusal>
    requires { 2 + 10 * n + 4 * length (numbers (paulis_at b.now (2 + 10 * n) (entries_at b.now 2 n))) ≡ length b.now }
    ensures { told_of result ≡ check_sets 0 (paulis_at b.now (2 + 10 * n) (entries_at b.now 2 n)) }
{
    let mut at = 2 + 10 * n;
    for i in 0..n {
        let e = entry_at(b, i);
        check_set(numbers_at(b, at, e.xcount), i)?;
        check_set(numbers_at(b, at + 4 * e.xcount, e.zcount), i)?;
        at = at + 4 * (e.xcount + e.zcount);
    }
    Ok(())
}

// How many of the numbers are distinct; where there are more than a list may have, one more than that.
fn distinct(numbers: &[[u8; 4]]) -> usize
    ensures { result ≡ min (length (insert_all (u32s_in numbers.now) [])) (suc most_qubits) }
{
    let mut support = Support::new();
    support.gather(numbers);
    support.len()
}

// Checks a roll; tells how many Paulis it has.
pub fn check_roll(b: &[u8]) -> Result<usize, Refusal>
    ensures { told_of result ≡ count_of b.now }
{
    if b.len() < 2 {
        return Err(Reason::Length.into());
    }
    let n = u16_at(b, 0);
    if n > MOST_PAULIS {
        return Err(Reason::Paulis.into());
    }
    if b.len() < 2 + 10 * n {
        return Err(Reason::Length.into());
    }
    let total = check_entries(b, n)?;
    if b.len() != 2 + 10 * n + 4 * total {
        return Err(Reason::Length.into());
    }
    check_sets(b, n)?;
    if distinct(numbers_at(b, 2 + 10 * n, total)) > MOST_QUBITS {
        return Err(Reason::Qubits.into());
    }
    Ok(n)
}

// An accepted roll, and how many Paulis it has.
#[derive(Clone, Copy)]
pub struct Roll<'a> {
    pub bytes: &'a [u8],
    pub count: usize,
    pub ghost accepted: { count_of bytes.now ≡ answer count },
    pub ghost low: { (i : ℕ) → slice_index bytes.now i < 256 },
}

impl<'a> Roll<'a> {
    // The roll that these bytes are, or why they are refused.
    pub fn read(bytes: &'a [u8]) -> Result<Roll<'a>, Refusal>
        ensures count { told_by (λ roll. roll.count) result ≡ count_of bytes.now }
        ensures bytes { IfOk result (λ roll. roll.bytes ≡ bytes.entry) }
    {
        let count = check_roll(bytes)?;
        Ok(Roll { bytes, count })
    }

    // The entry of Pauli i.
    pub fn entry(self, i: usize) -> Entry
        requires { i < self.count }
        ensures { (told_entry result ≡ entry_at self.entry.bytes.now (2 + 10 * i)) × (result.xcount < 65536) × (result.zcount < 65536) }
    {
        entry_at(self.bytes, i)
    }

    // How many qubit numbers its bodies hold.
    pub fn numbers(self) -> usize
        ensures { (result ≡ length (numbers (list_of self.entry.bytes.now))) × (result ≤ 16777216) }
    {
        (self.bytes.len() - (2 + 10 * self.count)) / 4
    }

    // Its bodies, which are what follows the table, but for the first `past` qubit numbers.
    pub fn bodies(self, past: usize) -> &'a [u8]
        requires { past ≤ length (numbers (list_of self.bytes.now)) }
        ensures { result.now ≡ drop (4 * past) (bodies (list_of self.entry.bytes.now)) }
    {
        &self.bytes[2 + 10 * self.count + 4 * past..]
    }

    // Puts its qubits in among those that are known.
    pub fn gather(self, support: &mut Support)
        ensures { Gathered (insert_all (numbers (list_of self.entry.bytes.now)) support.old) support.new }
    {
        support.gather(numbers_at(self.bytes, 2 + 10 * self.count, self.numbers()));
    }
}
