// The call for comparison.
ghost use Rattle.std.specs.Prelude.{◌≡◌, ◌/◌};
ghost use Rattle.pauli.specs.Condense.{list_of};
ghost use Rattle.pauli_theory.specs.Order.{partial_cmp, no_more};
ghost use Rattle.pauli_group.specs.Promises.{promise_of};
ghost use Rattle.pauli_group.specs.Answers.{order_of};
ghost use Rattle.pauli_group.specs.WorkArea.{cleared};
ghost use Rattle.pauli_group.specs.Inner.Lists.{step_told};
ghost use Rattle.pauli_group.specs.Calls.{paulis};
ghost use Rattle.pauli_group.specs.Inner.Sources.{listed};
ghost use Rattle.pauli_group.specs.Inner.Compare.{ranks_in, order_by};
ghost use Rattle.pauli_group.specs.CallContracts.{OrderCall};

use crate::area::{WORK_WORDS, area_of, clear};
use crate::checks::check_pair;
use crate::group::{Description, describe, describe_two};
use crate::promise::Promises;
use crate::source::SourcePair;
use pauli::joined::Pair;
use pauli::refusal::Refusal;
use std::cmp::Ordering;

// How many phases a group has, and its rank.
#[derive(Clone, Copy, PartialEq, Eq)]
pub(crate) struct GroupRanks {
    pub phases: u64,
    pub rank: usize,
}

fn ranks_of(d: Description) -> GroupRanks
    ensures { (result.phases ≡ 4 / step_told d.signs.phases) × (result.rank ≡ d.rank) }
{
    GroupRanks {
        phases: d.signs.phases.count(),
        rank: d.rank,
    }
}

// Whether neither number of a is above that of b.
#[tactic(auto, unfolding(pauli_theory::specs::Order::no_more))]
fn no_more(a: GroupRanks, b: GroupRanks) -> bool
    ensures { result ≡ no_more (ranks_in a) (ranks_in b) }
{
    a.phases <= b.phases && a.rank <= b.rank
}

// The order of two groups, by their numbers and those of the two joined.
#[tactic(auto, unfolding(pauli_theory::specs::Order::same_ranks, pauli_theory::specs::Order::first_of, crate::specs::Inner::Compare::order_by))]
fn order_by(a: GroupRanks, b: GroupRanks, both: GroupRanks) -> Option<Ordering>
    ensures { order_of result ≡ order_by (ranks_in a) (ranks_in b) (ranks_in both) }
{
    if a == b && a == both {
        return Some(Ordering::Equal);
    }
    if no_more(a, b) && b == both {
        return Some(Ordering::Less);
    }
    if a == both {
        return Some(Ordering::Greater);
    }
    None
}

// How the groups of two lists that can be joined compare.
pub(crate) fn order_of(
    pair: SourcePair,
    promises: Promises,
    w: &mut [u64; WORK_WORDS],
) -> Option<Ordering>
    ensures { order_of result ≡ partial_cmp (promise_of promises.left) (promise_of promises.right) (listed pair.entry.left) (listed pair.entry.right) }
{
    let a = describe(pair.left, promises.left, w);
    let b = describe(pair.right, promises.right, w);
    let both = describe_two(pair, w);
    order_by(ranks_of(a), ranks_of(b), ranks_of(both))
}

// Compares the groups of two rolls that can be joined, and clears the work area.
fn compare(pair: Pair, promises: Promises, w: &mut [u64; WORK_WORDS]) -> Option<Ordering>
    ensures told { order_of result ≡ partial_cmp (promise_of promises.left) (promise_of promises.right) (paulis (list_of pair.entry.left.bytes.now)) (paulis (list_of pair.entry.right.bytes.now)) }
    ensures area { w.new ≡ cleared w.old }
{
    let order = order_of(SourcePair::rolled(pair), promises, w);
    clear(w);
    order
}

// Compares the groups of two lists: each may have a promise, and the two joined have none.
pub fn partial_cmp(
    left: &[u8],
    right: &[u8],
    promises: Promises,
    work: &mut [u64],
) -> Result<Option<Ordering>, Refusal>
    ensures { OrderCall (promise_of promises.left) (promise_of promises.right) left.now right.now work.old result work.new }
{
    let pair = check_pair(left, right, work.len())?;
    let order = compare(pair, promises, area_of(work));
    Ok(order)
}
