// Lists of Paulis kept in words.
ghost use Rattle.std.specs.Prelude.{◌≡◌, ℕ, ◌+◌, ◌*◌, ◌≤◌, map, length};
ghost use mathlib.Core.List.{Memᴰ as Mem};
ghost use Rattle.pauli.specs.Signed.{list_in};
ghost use Rattle.pauli.specs.Support.{Rising};
ghost use Rattle.pauli_group.specs.Inner.Area.{Outside};
ghost use Rattle.pauli_group.specs.Inner.Kept.{spread, KeptOver};
ghost use Rattle.pauli_group.specs.Inner.Lists.{over_places};

use crate::area::WORK_WORDS;
use crate::moved::move_words;

// A list kept in words, five for each Pauli, over the places of the qubits that it uses.
#[derive(Clone, Copy)]
pub struct KeptList<'a> {
    pub qubits: &'a [u32],
    pub paulis: &'a [[u64; 5]],
    pub ghost kept: { KeptOver qubits.now paulis.now },
}

impl<'a> KeptList<'a> {
    // Reads its Paulis, over the places of a support that has its qubits, to the words from word base on.
    pub(crate) fn read(self, support: &[u32], w: &mut [u64; WORK_WORDS], base: usize)
        requires { Rising 0 support.now × ((q : ℕ) → Mem q self.qubits.now → Mem q support.now) × (length support.now ≤ 128) × (base + 5 * length self.paulis.now ≤ 4096) }
        ensures list { list_in w.new base (length self.entry.paulis.now) ≡ map (over_places support.now) (spread self.entry.qubits.now self.entry.paulis.now) }
        ensures rest { Outside base (5 * length self.entry.paulis.now) w.old w.new }
    {
        move_words(self.paulis, self.qubits, support, w, base);
    }
}
