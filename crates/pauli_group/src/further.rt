// The further list, where a call on two lists leaves what it has worked out.
ghost use Rattle.std.specs.Prelude.{◌≡◌, ℕ, List, ◌++◌, map, length};
ghost use Rattle.pauli.specs.Pauli.{normal};
ghost use Rattle.pauli.specs.Refusals.{told_of};
ghost use Rattle.pauli.specs.Told.{answer};
ghost use Rattle.pauli.specs.Writing.{told_bytes, left_in};
ghost use Rattle.pauli_group.specs.WorkArea.{cleared};
ghost use Rattle.pauli_group.specs.Calls.{list_bytes};
ghost use Rattle.pauli_group.specs.Inner.Further.{FurtherHas, SomeFurther};
ghost use Rattle.pauli_group.specs.Inner.Sources.{listed};

use crate::area::{FURTHER, Span, WORK_WORDS, clear};
use crate::source::{Source, SourcePair};
use pauli::refusal::Refusal;
use pauli::support::Support;
use pauli::write::write_roll;

// Reads a list to the further list's place, over the places of its support, which it leaves in known; tells how many Paulis it has.
pub fn read_one(source: Source, known: &mut Support, w: &mut [u64; WORK_WORDS]) -> usize
    ensures { FurtherHas known.new (map normal (listed source.entry)) w.new result }
{
    *known = Support::new();
    source.gather(known);
    source.read(known.qubits(), w, FURTHER);
    source.count()
}

// Reads two lists that can be joined, one after the other, in the same way.
pub fn read_two(pair: SourcePair, known: &mut Support, w: &mut [u64; WORK_WORDS]) -> usize
    ensures { FurtherHas known.new (map normal (listed pair.entry.left ++ listed pair.entry.right)) w.new result }
{
    pair.gather(known);
    let qubits = known.qubits();
    let first = pair.left.count();
    pair.left.read(qubits, w, FURTHER);
    pair.right.read(qubits, w, FURTHER + 5 * first);
    first + pair.right.count()
}

// Writes the n Paulis of the further list, which are over the places of joint, and clears the work area.
pub(crate) fn write_further(
    n: usize,
    joint: &[u32],
    w: &mut [u64; WORK_WORDS],
    out: &mut [u8],
) -> Result<usize, Refusal>
    requires { SomeFurther joint.now w.old n }
    ensures told { (f : SomeFurther joint.now w.old n) → told_of result ≡ told_bytes (answer (list_bytes f.list)) out.old }
    ensures left { (f : SomeFurther joint.now w.old n) → out.new ≡ left_in (answer (list_bytes f.list)) out.old }
    ensures area { (work : List ℕ) → length work ≡ 4096 → w.new ≡ cleared work }
{
    let list = Span::at(FURTHER, n);
    let wrote = write_roll(list.paulis(w), joint, out);
    clear(w);
    wrote
}
