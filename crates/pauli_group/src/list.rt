// Lists of Paulis read into the work area, and copied in it.
ghost use Rattle.std.specs.Prelude.{◌≡◌, ◌+◌, ◌*◌, ◌<◌, ◌≤◌, ◌⊎◌, map, length};
ghost use Rattle.pauli.specs.Condense.{list_of};
ghost use Rattle.pauli.specs.Pauli.{normal};
ghost use Rattle.pauli.specs.Signed.{list_in};
ghost use Rattle.pauli_group.specs.Inner.Area.{Outside};
ghost use Rattle.pauli_group.specs.Inner.Lists.{ReadableAll, over_places};

use crate::area::{Span, WORK_WORDS};
use pauli::condense::condense_from;
use pauli::roll::Roll;
use pauli::signed::{load, store};

// Reads the Paulis of a roll, over the places of a support that has their qubits, to the words from word base on.
pub(crate) fn read_list(roll: Roll, support: &[u32], w: &mut [u64; WORK_WORDS], base: usize)
    requires { ReadableAll roll.bytes.now roll.count support.now × (length support.now ≤ 128) × (base + 5 * roll.count ≤ 4096) }
    ensures list { list_in w.new base roll.entry.count ≡ map (over_places support.now) (list_of roll.entry.bytes.now) }
    ensures rest { Outside base (5 * roll.entry.count) w.old w.new }
{
    for i in 0..roll.count {
        store(w, base + 5 * i, condense_from(roll, i, support));
    }
}

// Copies the Paulis of a list to word to, each by its value: a copy of the words would keep their exponents as they stand.
// A loop of its own: one over a closure would tell what the closure's relation says, to be turned back into this equation.
pub(crate) fn copy_list(w: &mut [u64; WORK_WORDS], from: Span, to: usize)
    requires { (to + 5 * from.count ≤ 4096) × ((to + 5 * from.count ≤ from.base) ⊎ (from.base + 5 * from.count ≤ to)) }
    ensures list { list_in w.new to from.count ≡ map normal (list_in w.old from.base from.count) }
    ensures rest { Outside to (5 * from.count) w.old w.new }
{
    for i in 0..from.count {
        let p = load(w, from.base + 5 * i);
        store(w, to + 5 * i, p);
    }
}
