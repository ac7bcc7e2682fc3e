// The group of a list: its form and its standard generators in the work area.
ghost use Rattle.std.specs.Prelude.{◌≡◌, ℕ, ◌≤◌, List, ◌++◌};
ghost use Rattle.pauli.specs.Condense.{list_of};
ghost use Rattle.pauli.specs.Pauli.{Pauli};
ghost use Rattle.pauli.specs.Signed.{list_in};
ghost use Rattle.pauli.specs.Writing.{OnPlaces};
ghost use Rattle.pauli_theory.specs.Group.{none};
ghost use Rattle.pauli_group.specs.Promises.{promise_of};
ghost use Rattle.pauli_group.specs.Inner.Area.{list_at, standard_at, further_at, Outside};
ghost use Rattle.pauli_group.specs.WorkArea.{cleared};
ghost use Rattle.pauli_group.specs.Inner.Groups.{Built, Grouped, facts_in, facts_of};
ghost use Rattle.pauli_group.specs.Calls.{paulis};
ghost use Rattle.pauli_group.specs.Inner.Sources.{listed, counted};

use crate::area::{LIST, STANDARD, Span, WORK_WORDS, clear};
use crate::form::{form_of, put_products};
use crate::promise::Promise;
use crate::source::{Source, SourcePair};
use crate::standard::{Signs, signs_of, standardize};
use pauli::roll::Roll;
use pauli::support::Support;

// The numbers of a group whose list is in the work area: how many generators, the places of the support, the rank, and how many
// standard generators.
#[derive(Clone, Copy)]
pub struct Group {
    pub count: usize,
    pub places: usize,
    pub rank: usize,
    pub total: usize,
    pub ghost few: { (count ≤ 128) × (places ≤ 128) × (total ≤ 129) },
}

impl Group {
    // Where the generators stand.
    pub fn generators(self) -> Span
        ensures { (result.base ≡ list_at) × (result.count ≡ self.count) }
    {
        Span::at(LIST, self.count)
    }

    // Where the standard generators stand.
    pub fn standards(self) -> Span
        ensures { (result.base ≡ standard_at) × (result.count ≡ self.total) }
    {
        Span::at(STANDARD, self.total)
    }
}

// What the calls tell of a group: its rank, and what its standard generators tell.
#[derive(Clone, Copy)]
pub struct Description {
    pub rank: usize,
    pub signs: Signs,
}

// Makes the form and the standard generators of the n generators over s places.
// `OnPlaces` is a fact of the words in the area, which the next store may change: no value carries it.
pub(crate) fn build(w: &mut [u64; WORK_WORDS], n: usize, s: usize) -> Group
    requires { (n ≤ 128) × (s ≤ 128) × OnPlaces s (list_in w.old list_at n) }
    ensures built { Built w.old n s w.new result.rank result.total }
    ensures count { result.count ≡ n }
    ensures places { result.places ≡ s }
{
    let list = Span::at(LIST, n);
    let products = Span::at(STANDARD, n);
    let rank = form_of(w, list, s);
    put_products(w, n, 0, list, products);
    let total = standardize(w, n, rank);
    Group {
        count: n,
        places: s,
        rank,
        total,
    }
}

// Reads a list, and builds its group.
pub fn group_of(source: Source, known: &mut Support, w: &mut [u64; WORK_WORDS]) -> Group
    ensures count { result.count ≡ counted source.entry }
    ensures group { Grouped (listed source.entry) known.new w.new result.places result.rank result.total }
    ensures rest { Outside 0 further_at w.old w.new }
{
    *known = Support::new();
    source.gather(known);
    let qubits = known.qubits();
    source.read(qubits, w, LIST);
    build(w, source.count(), qubits.len())
}

// Reads two lists that can be joined, one after the other, and builds the group of the joined list.
fn group_of_two(pair: SourcePair, known: &mut Support, w: &mut [u64; WORK_WORDS]) -> Group
    ensures { Grouped (listed pair.entry.left ++ listed pair.entry.right) known.new w.new result.places result.rank result.total }
{
    pair.gather(known);
    let qubits = known.qubits();
    let first = pair.left.count();
    pair.left.read(qubits, w, LIST);
    pair.right.read(qubits, w, LIST + 5 * first);
    build(w, first + pair.right.count(), qubits.len())
}

// What the calls tell of the group of a list, which is in the work area.
fn describe_group(group: Group, promise: Promise, w: &[u64; WORK_WORDS]) -> Description
    ensures { (gs : List Pauli) (known : List ℕ) → Grouped gs known w.now group.places group.rank group.total → facts_in result ≡ facts_of (promise_of promise) gs }
{
    Description {
        rank: group.rank,
        signs: signs_of(group.standards().paulis(w), promise),
    }
}

// What the calls tell of the group of a list.
pub(crate) fn describe(source: Source, promise: Promise, w: &mut [u64; WORK_WORDS]) -> Description
    ensures { facts_in result ≡ facts_of (promise_of promise) (listed source.entry) }
{
    let mut known = Support::new();
    let g = group_of(source, &mut known, w);
    describe_group(g, promise, w)
}

// What the calls tell of the group of two lists joined, without promise.
pub(crate) fn describe_two(pair: SourcePair, w: &mut [u64; WORK_WORDS]) -> Description
    ensures { facts_in result ≡ facts_of none (listed pair.entry.left ++ listed pair.entry.right) }
{
    let mut known = Support::new();
    let g = group_of_two(pair, &mut known, w);
    describe_group(g, Promise::None, w)
}

// Describes the group of a roll, and clears the work area.
pub(crate) fn describe_once(roll: Roll, promise: Promise, w: &mut [u64; WORK_WORDS]) -> Description
    ensures told { facts_in result ≡ facts_of (promise_of promise) (paulis (list_of roll.entry.bytes.now)) }
    ensures area { w.new ≡ cleared w.old }
{
    let d = describe(Source::Rolled(roll), promise, w);
    clear(w);
    d
}
