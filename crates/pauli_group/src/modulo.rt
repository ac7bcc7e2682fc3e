// The call for the remainder of a list by another.
ghost use Rattle.std.specs.Prelude.{◌≡◌, ◌+◌, ◌*◌, ◌<◌, ◌≤◌, map, length};
ghost use Rattle.pauli.specs.Support.{All};
ghost use Rattle.pauli.specs.Told.{answer};
ghost use Rattle.pauli.specs.Condense.{list_of};
ghost use Rattle.pauli.specs.Pauli.{normal};
ghost use Rattle.pauli.specs.Signed.{held, list_in};
ghost use Rattle.pauli.specs.Writing.{told_bytes, left_in};
ghost use Rattle.pauli_theory.specs.Modulo.{modulo};
ghost use Rattle.pauli_theory.specs.Inner.ModuloPlaces.{multiplied_at};
ghost use Rattle.pauli_group.specs.Inner.Area.{further_at, Outside};
ghost use Rattle.pauli_group.specs.WorkArea.{cleared};
ghost use Rattle.pauli_group.specs.Calls.{paulis, list_bytes};
ghost use Rattle.pauli_group.specs.Promises.{promise_of};
ghost use Rattle.pauli_group.specs.CallContracts.{ModuloCall};
ghost use Rattle.pauli_group.specs.Inner.Further.{FurtherHas};
ghost use Rattle.pauli_group.specs.Inner.Remainder.{multiplied_stored, Other, remainder_by};
ghost use Rattle.pauli_group.specs.Inner.Sources.{listed};
ghost use Rattle.pauli.specs.Refusals.{told_of};

use crate::area::{FURTHER, STANDARD, Span, WORK_WORDS, area_of};
use crate::checks::check_pair;
use crate::form::stride_of;
use crate::further::write_further;
use crate::group::{Group, group_of};
use crate::moved::{move_list, move_pauli};
use crate::promise::{Promise, Promises};
use crate::scan::take_mod;
use crate::source::SourcePair;
use crate::standard::signs_of;
use pauli::joined::Pair;
use pauli::refusal::Refusal;
use pauli::signed::{Pauli, load, store};
use pauli::support::{Place, Support, place_of, qubit_at};

// The Pauli times other, if it has a one at the place: in x, or else in z. is_x is the pivot's half of the columns, as the
// definition multiplied_at takes it.
fn multiplied(p: Pauli, is_x: bool, place: Place, other: Pauli) -> Pauli
    requires { place.0 < 128 }
    ensures { held result ≡ multiplied_stored is_x place.0 (held other) (held p) }
{
    let mut set = p.z;
    if is_x {
        set = p.x;
    }
    if set.contains(place) {
        return p.times(other).pauli;
    }
    p
}

// Multiplies those Paulis of a list that have a one at the place by other.
// A loop of its own: one over a closure would tell what the closure's relation says, to be turned back into this equation.
fn multiply_at(w: &mut [u64; WORK_WORDS], list: Span, is_x: bool, place: Place, other: Pauli)
    requires { place.0 < 128 }
    ensures list { list_in w.new list.base list.count ≡ map (λ p. normal (multiplied_at is_x place.0 (held other) p)) (list_in w.old list.base list.count) }
    ensures rest { Outside list.base (5 * list.count) w.old w.new }
{
    for i in 0..list.count {
        let p = load(w, list.base + 5 * i);
        store(w, list.base + 5 * i, multiplied(p, is_x, place, other));
    }
}

// Multiplies the m Paulis of the further list by the standard generators of a group, each at its pivot. The group is over the
// places of own, the further list over those of joint.
// m is a number: a Span would need, in place of m ≤ 128, that it stands behind the standard generators. Own and joint are no struct
// for the reason in moved, and own's length is the group's places since it is the support of that list.
fn multiply_all(w: &mut [u64; WORK_WORDS], m: usize, group: Group, own: &[u32], joint: &[u32])
    requires { (m ≤ 128) × (group.places ≡ length own.now) × (length joint.now ≤ 128) × Other own.now joint.now w.old group.count group.rank group.total × All (λ p. p.e < 4) (list_in w.old further_at m) }
    ensures list { list_in w.new further_at m ≡ remainder_by own.now joint.now w.old group.count group.rank group.total (list_in w.old further_at m) }
    ensures rest { Outside further_at (5 * m) w.old w.new }
{
    let list = Span::at(FURTHER, m);
    let places = group.places;
    let at = group.count * stride_of(group.count);
    for k in 0..group.rank {
        let pivot = w[at + k] as usize;
        let other = load(w, STANDARD + 5 * k);
        let moved = move_pauli(other, own, joint);
        let place = place_of(joint, qubit_at(own, Place(pivot % places)));
        multiply_at(w, list, pivot < places, place, moved);
    }
}

// Leaves the remainder of the left list by the right one in the further list, over the places of their joint support, which it
// leaves in known; tells how many Paulis it has.
pub fn remainder(
    pair: SourcePair,
    promise: Promise,
    known: &mut Support,
    w: &mut [u64; WORK_WORDS],
) -> usize
    ensures { FurtherHas known.new (modulo (promise_of promise) (listed pair.entry.left) (listed pair.entry.right)) w.new result }
{
    pair.gather(known);
    let joint = known.qubits();
    let mut own = Support::new();
    let a = group_of(pair.left, &mut own, w);
    move_list(w, a.standards(), FURTHER, own.qubits(), joint);
    let mut other = Support::new();
    let b = group_of(pair.right, &mut other, w);
    let signs = signs_of(b.standards().paulis(w), promise);
    multiply_all(w, a.total, b, other.qubits(), joint);
    take_mod(w, Span::at(FURTHER, a.total), signs.phases.step());
    a.total
}

// Writes the remainder of two rolls that can be joined, and clears the work area.
fn write_modulo(
    pair: Pair,
    promise: Promise,
    w: &mut [u64; WORK_WORDS],
    out: &mut [u8],
) -> Result<usize, Refusal>
    ensures told { told_of result ≡ told_bytes (answer (list_bytes (modulo (promise_of promise) (paulis (list_of pair.entry.left.bytes.now)) (paulis (list_of pair.entry.right.bytes.now))))) out.old }
    ensures left { out.new ≡ left_in (answer (list_bytes (modulo (promise_of promise) (paulis (list_of pair.entry.left.bytes.now)) (paulis (list_of pair.entry.right.bytes.now))))) out.old }
    ensures area { w.new ≡ cleared w.old }
{
    let mut joint = Support::new();
    let count = remainder(SourcePair::rolled(pair), promise, &mut joint, w);
    write_further(count, joint.qubits(), w, out)
}

// The remainder of the left list by the right one. Each list may have a promise; the left one's is not read.
pub fn modulo(
    left: &[u8],
    right: &[u8],
    promises: Promises,
    work: &mut [u64],
    out: &mut [u8],
) -> Result<usize, Refusal>
    ensures { ModuloCall (promise_of promises.right) left.now right.now work.old out.old result work.new out.new }
{
    let pair = check_pair(left, right, work.len())?;
    write_modulo(pair, promises.right, area_of(work), out)
}
