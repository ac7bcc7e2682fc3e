// Two rolls joined: left's Paulis, then right's.
ghost use Rattle.std.specs.Prelude.{◌≡◌, suc, ◌+◌, ◌*◌, min, ◌++◌, ◌≤◌, length, IfOk};
ghost use Rattle.pauli.specs.Roll.{support, write};
ghost use Rattle.pauli.specs.Support.{most_qubits};
ghost use Rattle.pauli.specs.Known.{Gathered};
ghost use Rattle.pauli.specs.Condense.{list_of};
ghost use Rattle.pauli.specs.JoinCalls.{counts_of};
ghost use Rattle.pauli.specs.Refusals.{told_by};

use crate::refusal::{Reason, Refusal};
use crate::roll::{MOST_PAULIS, Roll};
use crate::support::{MOST_QUBITS, Support};

// Gathers the support of two rolls.
pub fn join_support(left: Roll, right: Roll) -> Support
    ensures { Gathered (support (list_of left.entry.bytes.now ++ list_of right.entry.bytes.now)) result }
{
    let mut support = Support::new();
    left.gather(&mut support);
    right.gather(&mut support);
    support
}

// How many bytes the roll of two rolls joined has.
pub fn joined_bytes(left: Roll, right: Roll) -> usize
    ensures { result ≡ length (write (list_of left.entry.bytes.now ++ list_of right.entry.bytes.now)) }
{
    2 + 10 * (left.count + right.count) + 4 * (left.numbers() + right.numbers())
}

// How many distinct qubits two rolls have; where there are more than a list may have, one more than that.
pub fn joined_qubits(left: Roll, right: Roll) -> usize
    ensures { result ≡ min (length (support (list_of left.entry.bytes.now ++ list_of right.entry.bytes.now))) (suc most_qubits) }
{
    join_support(left, right).len()
}

// Two accepted rolls that can be joined.
#[derive(Clone, Copy)]
pub struct Pair<'a> {
    pub left: Roll<'a>,
    pub right: Roll<'a>,
    pub ghost few: { left.count + right.count ≤ 128 },
    pub ghost qubits: { length (support (list_of left.bytes.now ++ list_of right.bytes.now)) ≤ most_qubits },
}

impl<'a> Pair<'a> {
    // Checks two rolls, then the limits of the joined list.
    pub fn read(left: &'a [u8], right: &'a [u8]) -> Result<Pair<'a>, Refusal>
        ensures counts { told_by (λ pair. record { left = pair.left.count; right = pair.right.count }) result ≡ counts_of left.now right.now }
        ensures rolls { IfOk result (λ pair. (pair.left.bytes ≡ left.entry) × (pair.right.bytes ≡ right.entry)) }
    {
        let left = Roll::read(left)?;
        let right = Roll::read(right)?;
        if left.count + right.count > MOST_PAULIS {
            return Err(Reason::Paulis.into());
        }
        if joined_qubits(left, right) > MOST_QUBITS {
            return Err(Reason::Qubits.into());
        }
        Ok(Pair { left, right })
    }
}
