// Paulis moved from the places of one support to those of another. The two supports are two arguments: a struct of them would be
// made at each call, of supports that are owned elsewhere, and what must hold of them (MovablePauli) speaks of the Pauli too.
ghost use Rattle.std.specs.Prelude.{◌≡◌, ◌+◌, ◌*◌, ◌^◌, ◌<◌, ◌≤◌, map, length};
ghost use Rattle.pauli.specs.Pauli.{normal};
ghost use Rattle.pauli.specs.Signed.{held, list_in, paulis_in};
ghost use Rattle.pauli.specs.PlaceSet.{set_in};
ghost use Rattle.pauli.specs.Writing.{OnPlaces};
ghost use Rattle.pauli.specs.Support.{All};
ghost use Rattle.pauli_theory.specs.Inner.ModuloPlaces.{moved_set, moved_pauli};
ghost use Rattle.pauli_group.specs.Inner.Area.{Outside};
ghost use Rattle.pauli_group.specs.Inner.Moved.{Movable, MovablePauli};

use crate::area::{Span, WORK_WORDS};
use pauli::condense::with_place;
use pauli::places::Places;
use pauli::signed::{Pauli, load, store};
use pauli::support::{Place, place_from, qubit_at};

// A set of places of the first support as the places of the same qubits in the second.
fn move_set(set: Places, own: &[u32], joint: &[u32]) -> Places
    requires { (length joint.now ≤ 128) × (set_in set < 2 ^ length own.now) × Movable own.now joint.now (set_in set) }
    ensures { set_in result ≡ moved_set own.now joint.now (set_in set) }
{
    let mut moved = Places::none();
    let mut from = Place(0);
    for p in set.iter() {
        let place = place_from(joint, from, qubit_at(own, p));
        moved = with_place(moved, place);
        from = place;
    }
    moved
}

// A Pauli over the places of the first support as one over those of the second.
pub fn move_pauli(p: Pauli, own: &[u32], joint: &[u32]) -> Pauli
    requires { (length joint.now ≤ 128) × ((held p).x < 2 ^ length own.now) × ((held p).z < 2 ^ length own.now) × MovablePauli own.now joint.now (held p) }
    ensures { held result ≡ moved_pauli own.now joint.now (held p) }
{
    Pauli {
        exponent: p.exponent,
        x: move_set(p.x, own, joint),
        z: move_set(p.z, own, joint),
    }
}

// The Paulis of a list in words, moved to the words of w from word base on.
// A loop of its own: one over a closure would tell what the closure's relation says, to be turned back into this equation.
pub fn move_words(list: &[[u64; 5]], own: &[u32], joint: &[u32], w: &mut [u64], base: usize)
    requires { (length joint.now ≤ 128) × (base + 5 * length list.now ≤ length w.old) × OnPlaces (length own.now) (paulis_in list.now) × All (MovablePauli own.now joint.now) (paulis_in list.now) }
    ensures list { list_in w.new base (length list.now) ≡ map (λ p. normal (moved_pauli own.now joint.now p)) (paulis_in list.now) }
    ensures rest { Outside base (5 * length list.now) w.old w.new }
{
    for i in 0..list.len() {
        let p = Pauli::from_words(&list[i]);
        store(w, base + 5 * i, move_pauli(p, own, joint));
    }
}

// The Paulis of a list, moved to the words from word to on, behind them.
// `OnPlaces` is a fact of the words in the area, which the next store may change: no value carries it.
// A loop of its own: one over a closure would tell what the closure's relation says, to be turned back into this equation.
pub(crate) fn move_list(
    w: &mut [u64; WORK_WORDS],
    from: Span,
    to: usize,
    own: &[u32],
    joint: &[u32],
)
    requires { (from.base + 5 * from.count ≤ to) × (to + 5 * from.count ≤ 4096) × (length joint.now ≤ 128) × OnPlaces (length own.now) (list_in w.old from.base from.count) × All (MovablePauli own.now joint.now) (list_in w.old from.base from.count) }
    ensures list { list_in w.new to from.count ≡ map (λ p. normal (moved_pauli own.now joint.now p)) (list_in w.old from.base from.count) }
    ensures rest { Outside to (5 * from.count) w.old w.new }
{
    for i in 0..from.count {
        let p = load(w, from.base + 5 * i);
        store(w, to + 5 * i, move_pauli(p, own, joint));
    }
}
