// The call for the common part.
ghost use Rattle.std.specs.Prelude.{◌≡◌, ℕ, IfSome, List, ◌+◌, ◌*◌, ◌^◌, ◌<◌, ◌≤◌, ◌++◌, length};
ghost use Rattle.std.specs.List.{AllWithin};
ghost use Rattle.pauli.specs.Support.{All};
ghost use Rattle.pauli.specs.Told.{answer};
ghost use Rattle.pauli.specs.Condense.{list_of};
ghost use Rattle.pauli.specs.Signed.{held, pauli_in, list_in};
ghost use Rattle.pauli.specs.Writing.{OnPlaces, told_bytes, left_in};
ghost use Rattle.pauli_theory.specs.Group.{none};
ghost use Rattle.pauli_theory.specs.Standard.{support_of, standard, phase_step};
ghost use Rattle.pauli_theory.specs.Common.{phases_from};
ghost use Rattle.pauli_theory.specs.WholeCommon.{whole_part, whole_common};
ghost use Rattle.pauli_theory.specs.Inner.CommonPlaces.{shared_exponent};
ghost use Rattle.pauli_group.specs.Inner.Area.{target_at, list_at, further_at, stride_of, Outside};
ghost use Rattle.pauli_group.specs.WorkArea.{cleared};
ghost use Rattle.pauli_group.specs.Inner.Lists.{step_told, found};
ghost use Rattle.pauli_group.specs.Calls.{paulis, list_bytes, common_bytes};
ghost use Rattle.pauli_group.specs.CallContracts.{CommonCall};
ghost use Rattle.pauli_group.specs.Inner.Further.{FurtherHas, CommonIs, SomeCommon};
ghost use Rattle.pauli_group.specs.Inner.Sources.{listed};
ghost use Rattle.pauli_group.specs.Inner.Moved.{MovablePauli};
ghost use Rattle.pauli_group.specs.Inner.Shared.{Joint, Solving, exponent_over, exponent_for, NotedBy};
ghost use Rattle.pauli_group.specs.Inner.Whole.{whole_over};
ghost use Rattle.pauli.specs.Refusals.{told_of};

use crate::answers::Phases;
use crate::area::{FURTHER, LIST, Span, WORK_WORDS, area_of, clear};
use crate::basis::common_basis;
use crate::checks::check_pair;
use crate::further::write_further;
use crate::group::{Group, build, group_of};
use crate::list::copy_list;
use crate::member::solve;
use crate::moved::move_pauli;
use crate::noted::Exponents;
use crate::order::order_of;
use crate::promise::{Promise, Promises};
use crate::scan::put_phase;
use crate::source::{Source, SourcePair};
use crate::standard::signs_of;
use crate::whole::keep_whole;
use pauli::joined::Pair;
use pauli::refusal::Refusal;
use pauli::roll::MOST_PAULIS;
use pauli::signed::{indexed_product, load};
use pauli::support::Support;
use pauli::write::write_roll;
use std::cmp::Ordering;

// The exponent of the product of those generators of a group that solve for the Pauli at word at; the group is over the places of
// own, the Pauli over those of joint.
fn exponent_of(w: &mut [u64; WORK_WORDS], at: usize, group: Group, own: &[u32], joint: &[u32]) -> u8
    requires { (at + 5 ≤ 4096) × Solving w.old group.count group.places group.rank × (group.places ≡ length own.now) × ((pauli_in w.old at).x < 2 ^ length joint.now) × ((pauli_in w.old at).z < 2 ^ length joint.now) × MovablePauli joint.now own.now (pauli_in w.old at) }
    ensures told { result ≡ exponent_over joint.now own.now group.count group.places w.old (pauli_in w.old at) }
    ensures low { result < 4 }
    ensures rest { Outside target_at (stride_of group.count) w.old w.new }
{
    let p = move_pauli(load(w, at), joint, own);
    match solve(w, group, p) {
        None => 0,
        Some(set) => indexed_product(group.generators().paulis(w), set).exponent % 4,
    }
}

// Notes for each of the m Paulis of the further list the exponent of the product that solves for it.
// `OnPlaces` is a fact of the words in the area, which the next store may change: no value carries it. m is a number: a Span would
// need, in place of m ≤ 128, that it stands behind the form and the generators. Both hold of note_by too. Own and joint are no
// struct for the reason in moved, and own's length is the group's places since it is the support of that list.
fn note_exponents(
    w: &mut [u64; WORK_WORDS],
    m: usize,
    group: Group,
    own: &[u32],
    joint: &[u32],
    by: &mut [u8; MOST_PAULIS],
)
    requires { (m ≤ 128) × Solving w.old group.count group.places group.rank × (group.places ≡ length own.now) × OnPlaces (length joint.now) (list_in w.old further_at m) × All (MovablePauli joint.now own.now) (list_in w.old further_at m) }
    ensures by { NotedBy (exponent_over joint.now own.now group.count group.places w.old) by.new m w.old }
    ensures low { AllWithin (λ e. e < 4) by.new 0 128 }
    ensures rest { Outside target_at (stride_of group.count) w.old w.new }
{
    *by = [0; MOST_PAULIS];
    for i in 0..m {
        by[i] = exponent_of(w, FURTHER + 5 * i, group, own, joint);
    }
}

// Notes for each of the m Paulis of the further list the exponent by the group of a list; tells its phases.
fn note_by(
    source: Source,
    joint: &[u32],
    w: &mut [u64; WORK_WORDS],
    m: usize,
    by: &mut [u8; MOST_PAULIS],
) -> Phases
    requires { (m ≤ 128) × OnPlaces (length joint.now) (list_in w.old further_at m) × All (MovablePauli joint.now (support_of (listed source))) (list_in w.old further_at m) }
    ensures step { step_told result ≡ phase_step none (listed source.entry) }
    ensures by { NotedBy (exponent_for joint.now (listed source.entry)) by.new m w.old }
    ensures low { AllWithin (λ e. e < 4) by.new 0 128 }
    ensures rest { Outside 0 further_at w.old w.new }
{
    let mut known = Support::new();
    let group = group_of(source, &mut known, w);
    let signs = signs_of(group.standards().paulis(w), Promise::None);
    note_exponents(w, m, group, known.qubits(), joint, by);
    signs.phases
}

// The first exponent that is, less u, a phase of the first group and, less v, of the second.
pub(crate) fn shared_exponent(first: Phases, second: Phases, u: u8, v: u8) -> Option<u8>
    requires { (u < 4) × (v < 4) }
    ensures below { IfSome result (λ e. e < 4) }
    ensures first { found result ≡ shared_exponent (step_told first) (step_told second) u v }
{
    let a = first.step();
    let b = second.step();
    (0u8..4).find(|e| {
        (e.wrapping_sub(u) % 4) as u64 % a + (e.wrapping_sub(v) % 4) as u64 % b == 0
    })
}

// Appends to the Paulis of a list the powers of i that are phases of both groups; tells how many there are then.
fn append_phases(w: &mut [u64; WORK_WORDS], list: Span, first: Phases, second: Phases) -> usize
    requires { list.base + 5 * list.count + 20 ≤ 4096 }
    ensures few { result ≤ list.count + 4 }
    ensures list { list_in w.new list.base result ≡ list_in w.old list.base list.count ++ phases_from (step_told first) (step_told second) 4 0 }
{
    let a = first.step();
    let b = second.step();
    let mut total = list.count;
    for k in 0..4 {
        if k % a + k % b == 0 {
            put_phase(w, list.base + 5 * total, k as u8);
            total += 1;
        }
    }
    total
}

// The common part of the groups of two lists: one of the lists, or the Paulis of the further list, so many.
#[derive(Clone, Copy)]
pub enum Common {
    Left,
    Right,
    Further(usize),
}

// Puts at the generators' place, over the places of their joint support, generators of the common part of the groups of two lists;
// tells how many there are.
fn put_part(pair: SourcePair, joint: &[u32], w: &mut [u64; WORK_WORDS]) -> usize
    requires { Joint (listed pair.left) (listed pair.right) joint.now }
    ensures few { result ≤ 68 }
    ensures list { list_in w.new list_at result ≡ whole_over (listed pair.entry.left) (listed pair.entry.right) }
{
    let m = common_basis(pair, joint, w);
    let mut by = [0; MOST_PAULIS];
    let phases = note_by(pair.left, joint, w, m, &mut by);
    let first = Exponents { phases, by };
    let phases = note_by(pair.right, joint, w, m, &mut by);
    let second = Exponents { phases, by };
    let kept = Span::at(LIST, keep_whole(w, m, &first, &second));
    append_phases(w, kept, first.phases, second.phases)
}

// Leaves the standard generators of the common part of the groups of two lists in the further list, over the places of their joint
// support, which it leaves in known; tells how many there are.
fn part_of(pair: SourcePair, known: &mut Support, w: &mut [u64; WORK_WORDS]) -> usize
    ensures { FurtherHas known.new (standard (whole_part (listed pair.entry.left) (listed pair.entry.right))) w.new result }
{
    pair.gather(known);
    let joint = known.qubits();
    let n = put_part(pair, joint, w);
    let group = build(w, n, joint.len());
    copy_list(w, group.standards(), FURTHER);
    group.total
}

// The common part of the groups of two lists: the lesser of the two, where they compare. Else it is left in the further list, over
// the places of their joint support, which is left in known.
pub fn common_of(pair: SourcePair, known: &mut Support, w: &mut [u64; WORK_WORDS]) -> Common
    ensures { CommonIs (listed pair.entry.left) (listed pair.entry.right) (whole_common (listed pair.entry.left) (listed pair.entry.right)) known.new w.new result }
{
    let promises = Promises {
        left: Promise::None,
        right: Promise::None,
    };
    match order_of(pair, promises, w) {
        Some(lesser) => match lesser {
            Ordering::Equal | Ordering::Less => Common::Left,
            Ordering::Greater => Common::Right,
        },
        None => Common::Further(part_of(pair, known, w)),
    }
}

// Writes the Paulis of a list, and clears the work area.
fn write_list(source: Source, w: &mut [u64; WORK_WORDS], out: &mut [u8]) -> Result<usize, Refusal>
    ensures told { told_of result ≡ told_bytes (answer (list_bytes (listed source.entry))) out.old }
    ensures left { out.new ≡ left_in (answer (list_bytes (listed source.entry))) out.old }
    ensures area { (work : List ℕ) → length work ≡ 4096 → w.new ≡ cleared work }
{
    let mut known = Support::new();
    let group = group_of(source, &mut known, w);
    let wrote = write_roll(group.generators().paulis(w), known.qubits(), out);
    clear(w);
    wrote
}

// Writes what is the common part of two lists, and clears the work area.
fn write_part(
    part: Common,
    pair: SourcePair,
    joint: &[u32],
    w: &mut [u64; WORK_WORDS],
    out: &mut [u8],
) -> Result<usize, Refusal>
    requires { SomeCommon (listed pair.left) (listed pair.right) joint.now w.old part }
    ensures told { (p : SomeCommon (listed pair.entry.left) (listed pair.entry.right) joint.now w.old part) → told_of result ≡ told_bytes (answer (list_bytes p.list)) out.old }
    ensures left { (p : SomeCommon (listed pair.entry.left) (listed pair.entry.right) joint.now w.old part) → out.new ≡ left_in (answer (list_bytes p.list)) out.old }
    ensures area { (work : List ℕ) → length work ≡ 4096 → w.new ≡ cleared work }
{
    match part {
        Common::Left => write_list(pair.left, w, out),
        Common::Right => write_list(pair.right, w, out),
        Common::Further(n) => write_further(n, joint, w, out),
    }
}

// Writes the common part of two rolls that can be joined, and clears the work area.
fn write_common(pair: Pair, w: &mut [u64; WORK_WORDS], out: &mut [u8]) -> Result<usize, Refusal>
    ensures told { told_of result ≡ told_bytes (answer (common_bytes (record { left = paulis (list_of pair.entry.left.bytes.now); right = paulis (list_of pair.entry.right.bytes.now) }))) out.old }
    ensures left { out.new ≡ left_in (answer (common_bytes (record { left = paulis (list_of pair.entry.left.bytes.now); right = paulis (list_of pair.entry.right.bytes.now) }))) out.old }
    ensures area { w.new ≡ cleared w.old }
{
    let lists = SourcePair::rolled(pair);
    let mut joint = Support::new();
    let part = common_of(lists, &mut joint, w);
    write_part(part, lists, joint.qubits(), w, out)
}

// Writes the common part of the groups of two lists as a roll. Each may have a promise, which is not read.
pub fn bitand(
    left: &[u8],
    right: &[u8],
    promises: Promises,
    work: &mut [u64],
    out: &mut [u8],
) -> Result<usize, Refusal>
    ensures { CommonCall left.now right.now work.old out.old result work.new out.new }
{
    let pair = check_pair(left, right, work.len())?;
    write_common(pair, area_of(work), out)
}
