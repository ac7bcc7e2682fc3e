// Qubits and their places in a support: the rising list of the qubits in use.
ghost use Rattle.std.specs.Prelude.{◌≡◌, suc, ◌<◌, ◌≤◌, [], length, if◌then◌else◌, nat_lt, slice_index, IfSome};
ghost use Rattle.pauli.specs.Bytes.{u32s_in};
ghost use Rattle.pauli.specs.Support.{most_qubits, insert, insert_all, Rising};
ghost use Rattle.pauli.specs.Known.{place_of, lower, Gathered};

use std::marker::Model;

// The most distinct qubits of a list.
pub const MOST_QUBITS: usize = 128;

// A qubit's number.
#[derive(Clone, Copy, PartialEq, Eq, PartialOrd)]
pub struct Qubit(pub u32);

// A place in a support.
#[derive(Clone, Copy)]
pub struct Place(pub usize);

// The qubits that are known, rising: at most one more than a list may have.
#[derive(Drop)]
pub struct Support {
    numbers: [u32; MOST_QUBITS + 1],
    count: usize,
}

impl Model for Support {
    ghost use Rattle.std.specs.Prelude.{ℕ, ◌≤◌, List, take};
    ghost use Rattle.pauli.specs.Support.{Rising};

    ghost Value = { List ℕ };

    ghost view = { λ s. take s.count s.numbers };

    ghost invariant = { λ s. (s.count ≤ 129) × Rising 0 (take s.count s.numbers) };
}

impl Support {
    pub fn new() -> Support
        ensures { result ≡ [] }
    {
        Support {
            numbers: [0; MOST_QUBITS + 1],
            count: 0,
        }
    }

    // The qubits, as a slice.
    pub fn qubits(&self) -> &[u32]
        ensures list { result.now ≡ self.now }
        ensures rises { Rising 0 self.now }
    {
        &self.numbers[..self.count]
    }

    // How many qubits are known.
    pub fn len(&self) -> usize
        ensures { result ≡ length self.now }
    {
        self.qubits().len()
    }

    // Whether more qubits are known than a list may have.
    pub fn is_past_limit(&self) -> bool
        ensures { result ≡ nat_lt most_qubits (length self.now) }
    {
        self.count > MOST_QUBITS
    }

    // Puts q in, if it is not known yet; tells the place past it. The numbers before the place `from` are below it.
    // Its two callers each call it in a loop that is most of their time.
    #[inline(always)]
    fn note(&mut self, from: Place, q: Qubit) -> Place
        requires { (length self.old ≤ most_qubits) × (from.0 ≤ lower q.0 self.old) }
        ensures known { self.new ≡ insert q.0 self.old }
        ensures next { result.0 ≡ suc (lower q.0 self.old) }
    {
        let count = self.count;
        let i = place_from(&self.numbers[..count], from, q).0;
        if i >= count {
            // above all that are known, as most new ones are: nothing moves
            self.numbers[count] = q.0;
            self.count = count + 1;
            return Place(count + 1);
        }
        if Qubit(self.numbers[i]) == q {
            return Place(i + 1);
        }
        // the numbers from there on move one place up
        self.numbers.copy_within(i..count, i + 1);
        self.numbers[i] = q.0;
        self.count = count + 1;
        Place(i + 1)
    }

    // Puts the numbers in, until more are known than a list may have. A set that rises is put in by one walk.
    pub fn gather(&mut self, numbers: &[[u8; 4]])
        ensures { Gathered (insert_all (u32s_in numbers.now) self.old) self.new }
    {
        // opened, so that the check knows its invariant
        let _ = &self.count;
        let mut from = Place(0);
        let mut last = Qubit(0);
        for bytes in numbers {
            if self.is_past_limit() {
                return;
            }
            let q = Qubit(u32::from_le_bytes(*bytes));
            from = self.note(walk_start(last, from, q), q);
            last = q;
        }
    }

    // The same, of qubits that are numbers already.
    pub fn gather_qubits(&mut self, qubits: &[u32])
        ensures gathered { Gathered (insert_all qubits.now self.old) self.new }
        ensures rises { Rising 0 self.old }
    {
        // opened, so that the check knows its invariant
        let _ = &self.count;
        let mut from = Place(0);
        let mut last = Qubit(0);
        for number in qubits {
            if self.is_past_limit() {
                return;
            }
            let q = Qubit(*number);
            from = self.note(walk_start(last, from, q), q);
            last = q;
        }
    }
}

// The qubit at place p.
pub fn qubit_at(support: &[u32], p: Place) -> Qubit
    requires { p.0 < length support.now }
    ensures { result.0 ≡ slice_index support.now p.0 }
{
    Qubit(support[p.0])
}

// The place of q, or the support's length, as its definition tells it; its one caller always finds q.
pub fn place_of(support: &[u32], q: Qubit) -> Place
    ensures { result.0 ≡ place_of support.now q.0 }
{
    let found = support.iter().position(|number| *number == q.0);
    Place(found.unwrap_or(support.len()))
}

// The place that q has if the numbers from the place `from` on follow one another without a gap, if q stands there.
fn guess_from(support: &[u32], from: Place, q: Qubit) -> Option<Place>
    ensures { IfSome result (λ p. (p.0 < length support.now) × (slice_index support.now p.0 ≡ q.0)) }
{
    let number = q.0;
    let start = from.0;
    if start < support.len() {
        let base = support[start];
        if base <= number {
            let ahead = (number - base) as usize;
            if ahead < support.len() - start {
                let guess = start + ahead;
                if support[guess] == number {
                    return Some(Place(guess));
                }
            }
        }
    }
    None
}

// The place at which q is to stand. The numbers before the place `from` are below it, and are not looked at. That the slice rises
// is asked, since no slice carries it. What the guess misses is found by a walk: the guess is nearly always right.
pub fn place_from(support: &[u32], from: Place, q: Qubit) -> Place
    requires { (from.0 ≤ lower q.0 support.now) × Rising 0 support.now }
    ensures { result.0 ≡ lower q.0 support.now }
{
    if let Some(guess) = guess_from(support, from, q) {
        return guess;
    }
    let rest = &support[from.0..];
    let found = rest.iter().position(|number| *number >= q.0);
    Place(from.0 + found.unwrap_or(rest.len()))
}

// Where the walk to q starts: at the place `from`, past the qubit met last, if q is above that one, else anew.
pub fn walk_start(last: Qubit, from: Place, q: Qubit) -> Place
    ensures { result.0 ≡ (if nat_lt last.0 q.0 then from.0 else 0) }
{
    if last < q {
        return from;
    }
    Place(0)
}
