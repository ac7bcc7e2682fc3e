// The call for the quotient of a list by another.
ghost use Rattle.std.specs.Prelude.{◌≡◌, IfErr, IfOk};
ghost use Rattle.std.proofs.Math.Option.{some, none};
ghost use Rattle.pauli.specs.Condense.{list_of};
ghost use Rattle.pauli.specs.Writing.{told_bytes, left_in};
ghost use Rattle.pauli_theory.specs.Modulo.{modulo, try_quotient};
ghost use Rattle.pauli_group.specs.WorkArea.{cleared};
ghost use Rattle.pauli_group.specs.Calls.{paulis, quotient_bytes};
ghost use Rattle.pauli_group.specs.Promises.{promise_of};
ghost use Rattle.pauli_group.specs.Answers.{order_of};
ghost use Rattle.pauli_group.specs.Inner.Compare.{is_below};
ghost use Rattle.pauli_group.specs.Inner.Further.{FurtherHas};
ghost use Rattle.pauli_group.specs.Inner.Sources.{listed};
ghost use Rattle.pauli_group.specs.CallContracts.{QuotientCall};
ghost use Rattle.pauli.specs.Refusals.{number_of, told_of};

use crate::area::{WORK_WORDS, area_of, clear};
use crate::checks::check_pair;
use crate::further::write_further;
use crate::modulo::remainder;
use crate::order::order_of;
use crate::promise::Promises;
use crate::source::SourcePair;
use pauli::joined::Pair;
use pauli::refusal::{Reason, Refusal};
use pauli::support::Support;
use std::cmp::Ordering;

// Whether the left group is inside the right one.
fn is_below(order: Option<Ordering>) -> bool
    ensures { result ≡ is_below (order_of order) }
{
    matches!(order, Some(Ordering::Equal | Ordering::Less))
}

// Leaves the quotient of the left list by the right one in the further list, if the right group is inside the left one, over the
// places of their joint support, which it leaves in known; tells how many Paulis it has.
pub fn quotient_of(
    pair: SourcePair,
    promises: Promises,
    known: &mut Support,
    w: &mut [u64; WORK_WORDS],
) -> Result<usize, Refusal>
    ensures answered { IfOk result (λ n. (try_quotient (promise_of promises.left) (promise_of promises.right) (listed pair.entry.left) (listed pair.entry.right) ≡ some (modulo (promise_of promises.right) (listed pair.entry.left) (listed pair.entry.right))) × FurtherHas known.new (modulo (promise_of promises.right) (listed pair.entry.left) (listed pair.entry.right)) w.new n) }
    ensures refused { IfErr result (λ e. (try_quotient (promise_of promises.left) (promise_of promises.right) (listed pair.entry.left) (listed pair.entry.right) ≡ none) × (number_of e.reason ≡ 11) × (e.place ≡ 0)) }
{
    let swapped = SourcePair {
        left: pair.right,
        right: pair.left,
    };
    let exchanged = Promises {
        left: promises.right,
        right: promises.left,
    };
    let order = order_of(swapped, exchanged, w);
    if !is_below(order) {
        return Err(Reason::Subgroup.into());
    }
    Ok(remainder(pair, promises.right, known, w))
}

// Writes the quotient of two rolls that can be joined, if the right group is inside the left one, and clears the work area.
fn write_quotient(
    pair: Pair,
    promises: Promises,
    w: &mut [u64; WORK_WORDS],
    out: &mut [u8],
) -> Result<usize, Refusal>
    ensures told { told_of result ≡ told_bytes (quotient_bytes (try_quotient (promise_of promises.left) (promise_of promises.right) (paulis (list_of pair.entry.left.bytes.now)) (paulis (list_of pair.entry.right.bytes.now)))) out.old }
    ensures left { out.new ≡ left_in (quotient_bytes (try_quotient (promise_of promises.left) (promise_of promises.right) (paulis (list_of pair.entry.left.bytes.now)) (paulis (list_of pair.entry.right.bytes.now)))) out.old }
    ensures area { w.new ≡ cleared w.old }
{
    let mut joint = Support::new();
    match quotient_of(SourcePair::rolled(pair), promises, &mut joint, w) {
        Ok(count) => write_further(count, joint.qubits(), w, out),
        Err(refusal) => {
            clear(w);
            Err(refusal)
        }
    }
}

// The quotient of the left list by the right one, the divisor. Each list may have a promise.
pub fn try_quotient(
    left: &[u8],
    right: &[u8],
    promises: Promises,
    work: &mut [u64],
    out: &mut [u8],
) -> Result<usize, Refusal>
    ensures { QuotientCall (promise_of promises.left) (promise_of promises.right) left.now right.now work.old out.old result work.new out.new }
{
    let pair = check_pair(left, right, work.len())?;
    write_quotient(pair, promises, area_of(work), out)
}
