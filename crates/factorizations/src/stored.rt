// Results of membership, kept in the work area, five words each: the exponent, or 4 for an element that is no member, and the two
// words of the index set.
ghost use Rattle.std.specs.Prelude.{◌≡◌, map, ◌+◌, ◌≤◌, length};
ghost use Rattle.pauli.specs.Condense.{list_of};
ghost use Rattle.pauli_theory.specs.Membership.{factorization_of};
ghost use Rattle.pauli_group.specs.Calls.{paulis};
ghost use Rattle.pauli_group.specs.Promises.{promise_of};
ghost use Rattle.pauli_group.specs.Inner.Area.{further_at};
ghost use Rattle.pauli_group.specs.Inner.Groups.{facts_in, facts_of};
ghost use Rattle.pauli_group.specs.Inner.Lists.{step_told};
ghost use Rattle.pauli_group.specs.Inner.Members.{factoring_told, Asked};
ghost use Rattle.factorizations.specs.Stored.{result_in, put_member, put_other, stored_in, results_in, Storable, Stored};

use pauli::places::Places;
use pauli::roll::Roll;
use pauli::support::Support;
use pauli_group::answers::Phases;
use pauli_group::area::{FURTHER, Span, WORK_WORDS};
use pauli_group::checks::Rolls;
use pauli_group::group::{Description, Group, group_of};
use pauli_group::member::{IndexSet, factor};
use pauli_group::promise::Promise;
use pauli_group::source::Source;
use pauli_group::standard::signs_of;

// The exponent's word of an element that is no member. The area is lent, and words: a number has to stand for none, and a result is
// named by where its five words start.
const NO_MEMBER: u64 = 4;

fn store_member(w: &mut [u64], at: usize, set: Places, exponent: u8)
    requires { at + 5 ≤ length w.old }
    ensures { w.new ≡ put_member w.old at exponent set.low set.high }
{
    w[at] = exponent as u64;
    w[at + 1] = set.low;
    w[at + 2] = set.high;
}

fn store_other(w: &mut [u64], at: usize)
    requires { at + 5 ≤ length w.old }
    ensures { w.new ≡ put_other w.old at }
{
    w[at] = NO_MEMBER;
}

// Stores what membership tells of an element.
fn store_result(w: &mut [u64], at: usize, factoring: Option<IndexSet>)
    requires { (at + 5 ≤ length w.old) × Storable (factoring_told factoring) }
    ensures { Stored w.old at (factoring_told factoring) w.new }
{
    match factoring {
        None => store_other(w, at),
        Some(found) => store_member(w, at, found.set, found.exponent),
    }
}

// The result that is in five words.
pub fn result_of(words: &[u64; 5]) -> Option<IndexSet>
    ensures { factoring_told result ≡ result_in words.now 0 }
{
    let exponent = words[0];
    if exponent >= NO_MEMBER {
        return None;
    }
    let set = Places {
        low: words[1],
        high: words[2],
    };
    Some(IndexSet {
        set,
        exponent: exponent as u8,
    })
}

// The m results in place of a further list, each as its five words.
pub fn results(w: &[u64; WORK_WORDS], m: usize) -> &[[u64; 5]]
    requires { m ≤ 128 }
    ensures list { results_in result.now ≡ stored_in w.now further_at m }
    ensures count { length result.now ≡ m }
{
    Span::at(FURTHER, m).paulis(w)
}

// Factors the Paulis of a roll by a group that is in the work area, which has these phases, and stores the results in place of a
// further list.
fn factor_all(roll: Roll, known: &[u32], group: Group, phases: Phases, w: &mut [u64; WORK_WORDS])
    requires { Asked known.now w.old group.count group.places group.rank group.total (step_told phases) }
    ensures { (g : Asked known.now w.old group.count group.places group.rank group.total (step_told phases)) → stored_in w.new further_at roll.entry.count ≡ map (factorization_of g.promise g.list) (paulis (list_of roll.entry.bytes.now)) }
{
    for k in 0..roll.count {
        let factoring = factor(roll, k, known, group, phases, w);
        store_result(w, FURTHER + 5 * k, factoring);
    }
}

// Describes the group of the generators, factors the elements by it, and stores the results in place of a further list.
pub fn factor_rolls(rolls: Rolls, promise: Promise, w: &mut [u64; WORK_WORDS]) -> Description
    ensures told { facts_in result ≡ facts_of (promise_of promise) (paulis (list_of rolls.entry.generators.bytes.now)) }
    ensures results { stored_in w.new further_at rolls.entry.elements.count ≡ map (factorization_of (promise_of promise) (paulis (list_of rolls.entry.generators.bytes.now))) (paulis (list_of rolls.entry.elements.bytes.now)) }
{
    let mut known = Support::new();
    let g = group_of(Source::Rolled(rolls.generators), &mut known, w);
    let signs = signs_of(g.standards().paulis(w), promise);
    factor_all(rolls.elements, known.qubits(), g, signs.phases, w);
    Description {
        rank: g.rank,
        signs,
    }
}
