// Where a list of Paulis comes from: a roll, or words that keep it.
ghost use Rattle.std.specs.Prelude.{◌≡◌, ℕ, ◌+◌, ◌*◌, ◌≤◌, ◌++◌, map, length, IfOk};
ghost use Rattle.pauli.specs.Known.{Gathered};
ghost use Rattle.pauli.specs.Refusals.{told_by};
ghost use Rattle.pauli.specs.Roll.{numbers, support};
ghost use Rattle.pauli.specs.Signed.{list_in};
ghost use Rattle.pauli.specs.Support.{most_qubits, insert_all};
ghost use Rattle.pauli.specs.Told.{answer};
ghost use Rattle.pauli_group.specs.Inner.Area.{Outside};
ghost use Rattle.pauli_group.specs.Inner.Lists.{over_places};
ghost use Rattle.pauli_group.specs.Inner.Sources.{sparse_in, listed, counted, joinable, PlacedIn};
ghost use Rattle.pauli_group.specs.declared.source.Source.TheVariants.{Rolled};

use crate::area::WORK_WORDS;
use crate::kept::KeptList;
use crate::list::read_list;
use pauli::joined::Pair;
use pauli::refusal::{Reason, Refusal};
use pauli::roll::{MOST_PAULIS, Roll};
use pauli::support::Support;

// Where a list comes from.
#[derive(Clone, Copy)]
pub enum Source<'a> {
    Rolled(Roll<'a>),
    Kept(KeptList<'a>),
}

impl<'a> Source<'a> {
    // How many Paulis it has.
    pub fn count(self) -> usize
        ensures { result ≡ counted self.entry }
    {
        match self {
            Source::Rolled(roll) => roll.count,
            Source::Kept(list) => list.paulis.len(),
        }
    }

    // Puts its qubits in among those that are known.
    pub fn gather(self, known: &mut Support)
        ensures { Gathered (insert_all (numbers (sparse_in self.entry)) known.old) known.new }
    {
        match self {
            Source::Rolled(roll) => roll.gather(known),
            Source::Kept(list) => known.gather_qubits(list.qubits),
        }
    }

    // Reads its Paulis, over the places of a support that has their qubits, to the words from word base on.
    pub(crate) fn read(self, support: &[u32], w: &mut [u64; WORK_WORDS], base: usize)
        requires { PlacedIn self support.now × (length support.now ≤ 128) × (base + 5 * counted self ≤ 4096) }
        ensures list { list_in w.new base (counted self.entry) ≡ map (over_places support.now) (sparse_in self.entry) }
        ensures rest { Outside base (5 * counted self.entry) w.old w.new }
    {
        match self {
            Source::Rolled(roll) => read_list(roll, support, w, base),
            Source::Kept(list) => list.read(support, w, base),
        }
    }
}

// Gathers the support of two lists joined, in place of what was known.
fn gather_both(left: Source, right: Source, known: &mut Support)
    ensures { Gathered (support (sparse_in left.entry ++ sparse_in right.entry)) known.new }
{
    *known = Support::new();
    left.gather(known);
    right.gather(known);
}

// Two lists that can be joined.
#[derive(Clone, Copy)]
pub struct SourcePair<'a> {
    pub left: Source<'a>,
    pub right: Source<'a>,
    pub ghost few: { counted left + counted right ≤ 128 },
    pub ghost qubits: { length (support (sparse_in left ++ sparse_in right)) ≤ most_qubits },
}

impl<'a> SourcePair<'a> {
    // The lists of two rolls.
    pub fn rolled(pair: Pair<'a>) -> SourcePair<'a>
        ensures { (result.left ≡ Rolled pair.entry.left) × (result.right ≡ Rolled pair.entry.right) }
    {
        SourcePair {
            left: Source::Rolled(pair.left),
            right: Source::Rolled(pair.right),
        }
    }

    // Checks the limits of the joined list.
    pub fn checked(left: Source<'a>, right: Source<'a>) -> Result<SourcePair<'a>, Refusal>
        ensures told { told_by {B = ℕ} (λ pair. 0) result ≡ joinable (listed left.entry) (listed right.entry) (answer 0) }
        ensures sources { IfOk result (λ pair. (pair.left ≡ left.entry) × (pair.right ≡ right.entry)) }
    {
        if left.count() + right.count() > MOST_PAULIS {
            return Err(Reason::Paulis.into());
        }
        let mut known = Support::new();
        gather_both(left, right, &mut known);
        if known.is_past_limit() {
            return Err(Reason::Qubits.into());
        }
        Ok(SourcePair { left, right })
    }

    // Gathers the support of the joined list, in place of what was known.
    pub fn gather(self, known: &mut Support)
        ensures { Gathered (support (sparse_in self.entry.left ++ sparse_in self.entry.right)) known.new }
    {
        gather_both(self.left, self.right, known);
    }

    // The support of the joined list, by value.
    pub fn support(self) -> Support
        ensures { Gathered (support (sparse_in self.entry.left ++ sparse_in self.entry.right)) result }
    {
        let mut known = Support::new();
        self.gather(&mut known);
        known
    }
}
