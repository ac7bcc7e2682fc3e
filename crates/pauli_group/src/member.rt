// Membership: an element put to the form of a list.
ghost use Rattle.std.specs.Prelude.{◌≡◌, ◌+◌, ◌*◌, ◌^◌, ◌<◌, ◌≤◌, ◌++◌, length, get_or, slice_index_or};
ghost use Rattle.binar.specs.Layout.{form_in, FormLeft};
ghost use Rattle.binar.specs.Row.{weight};
ghost use Rattle.binar.specs.Solve.{transpose_solve};
ghost use Rattle.pauli.specs.Bytes.{u32s_in};
ghost use Rattle.pauli.specs.Condense.{list_of, nothing};
ghost use Rattle.pauli.specs.Support.{Rising};
ghost use Rattle.pauli.specs.Sets.{members, pauli_of};
ghost use Rattle.pauli.specs.Signed.{held};
ghost use Rattle.pauli.specs.PlaceSet.{set_in};
ghost use Rattle.pauli.specs.Writing.{put_bytes};
ghost use Rattle.pauli_theory.specs.Membership.{factorization_of};
ghost use Rattle.pauli_group.specs.Inner.Area.{target_at, row_words, stride_of, Outside};
ghost use Rattle.pauli_group.specs.Inner.Members.{covered, set_told, factoring_told, Asked};
ghost use Rattle.pauli_group.specs.Calls.{le16s};
ghost use Rattle.pauli_group.specs.Inner.Lists.{row_over, step_told};

use crate::answers::Phases;
use crate::area::{ROW_WORDS, TARGET, WORK_WORDS};
use crate::form::{named_by, stride_of};
use crate::group::Group;
use crate::rows::put_row;
use binar::echelon::Layout;
use binar::matrix_form::transpose_solve;
use binar::row::clear_bits;
use pauli::bytes::numbers_at;
use pauli::condense::condense_from;
use pauli::places::Places;
use pauli::roll::Roll;
use pauli::signed::{Pauli, indexed_product};
use pauli::support::{Place, Qubit, place_from, qubit_at, walk_start};
use pauli::write::put_u16;

// The index set of an element, and the exponent left.
#[derive(Clone, Copy)]
pub struct IndexSet {
    pub set: Places,
    pub exponent: u8,
}

// Whether the numbers are all in the support. A set that rises is looked up by one walk. The support is a slice that rises
// (`Rising`), here and in is_supported, as `factor` cuts it from what it is given: a `&Support` would ask more of its callers.
fn covers(numbers: &[[u8; 4]], support: &[u32]) -> bool
    requires { Rising 0 support.now }
    ensures { result ≡ covered support.now (u32s_in numbers.now) }
{
    let mut from = Place(0);
    let mut last = Qubit(0);
    for bytes in numbers {
        let q = Qubit(u32::from_le_bytes(*bytes));
        let place = place_from(support, walk_start(last, from, q), q);
        let i = place.0;
        if i >= support.len() {
            return false;
        }
        let met = qubit_at(support, place);
        if met != q {
            return false;
        }
        from = Place(i + 1);
        last = q;
    }
    true
}

// Whether the qubits of Pauli i of a roll are all in the support.
pub fn is_supported(roll: Roll, i: usize, support: &[u32]) -> bool
    requires { (i < roll.count) × Rising 0 support.now }
    ensures { result ≡ covered support.now ((get_or (list_of roll.entry.bytes.now) i nothing).xs ++ (get_or (list_of roll.entry.bytes.now) i nothing).zs) }
{
    let e = roll.entry(i);
    // As in condense_from, which says why this sum is no function.
    let at = 2 + 10 * roll.count + 4 * e.start;
    covers(numbers_at(roll.bytes, at, e.xcount + e.zcount), support)
}

// Finds the generators whose rows add up to that of p, by the form of their group.
pub(crate) fn solve(w: &mut [u64; WORK_WORDS], group: Group, p: Pauli) -> Option<Places>
    requires { ((held p).x < 2 ^ group.places) × ((held p).z < 2 ^ group.places) × FormLeft w.old (stride_of group.count) group.count (2 * group.places) group.rank target_at }
    ensures told { set_told result ≡ transpose_solve (2 * group.places) (form_in (stride_of group.count) group.count row_words (2 * group.places) group.rank w.old) (row_over group.places (held p)) }
    ensures rest { Outside target_at (stride_of group.count) w.old w.new }
{
    let stride = stride_of(group.count);
    clear_bits(w, TARGET + ROW_WORDS, stride - ROW_WORDS);
    put_row(w, TARGET, p, group.places);
    let shape = Layout {
        stride,
        rows: group.count,
        cols: 2 * group.places,
    };
    if transpose_solve(w, shape, group.rank, TARGET) {
        Some(named_by(w, TARGET, group.count))
    } else {
        None
    }
}

// Factors Pauli i of a roll by a group that is in the work area, which has these phases. `known` begins with the group's support.
pub fn factor(
    roll: Roll,
    i: usize,
    known: &[u32],
    group: Group,
    phases: Phases,
    w: &mut [u64; WORK_WORDS],
) -> Option<IndexSet>
    requires { (i < roll.count) × Asked known.now w.old group.count group.places group.rank group.total (step_told phases) }
    ensures told { (g : Asked known.now w.old group.count group.places group.rank group.total (step_told phases)) → factoring_told result ≡ factorization_of g.promise g.list (pauli_of (slice_index_or (list_of roll.entry.bytes.now) i nothing)) }
    ensures rest { Outside target_at (stride_of group.count) w.old w.new }
{
    let support = &known[..group.places];
    if !is_supported(roll, i, support) {
        return None;
    }
    let p = condense_from(roll, i, support);
    let set = solve(w, group, p)?;
    let product = indexed_product(group.generators().paulis(w), set);
    let left = p.exponent.wrapping_sub(product.exponent) % 4;
    if (left as u64) % phases.step() != 0 {
        return None;
    }
    Some(IndexSet {
        set,
        exponent: left,
    })
}

// Writes the numbers in the set from byte at on, rising, two bytes each: places in the list of generators.
pub fn put_indexes(out: &mut [u8], at: usize, set: Places)
    requires { at + 2 * weight (set_in set) ≤ length out.old }
    ensures { out.new ≡ put_bytes out.old at (le16s (members (set_in set))) }
{
    let mut next = at;
    for p in set.iter() {
        put_u16(out, next, p.0);
        next += 2;
    }
}
