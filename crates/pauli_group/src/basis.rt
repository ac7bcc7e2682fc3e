// The common basis of two groups, up to exponents.
ghost use Rattle.std.specs.Prelude.{◌≡◌, ◌+◌, ◌≤◌};
ghost use Rattle.pauli.specs.Signed.{list_in};
ghost use Rattle.pauli_group.specs.Inner.Area.{further_at};
ghost use Rattle.pauli_group.specs.Inner.Sources.{listed};
ghost use Rattle.pauli_group.specs.Inner.Shared.{Joint, Stack, basis_over};

use crate::area::{FURTHER, STANDARD, Span, WORK_WORDS};
use crate::form::{form_of, put_products};
use crate::group::group_of;
use crate::moved::move_list;
use crate::source::SourcePair;
use pauli::support::Support;

// How many Paulis of each of two lists stand one after the other.
#[derive(Clone, Copy)]
pub(crate) struct Stacked {
    pub first: usize,
    pub second: usize,
}

// Puts the standard generators of two lists that can be joined over the places of the joint support, in the further list's place.
fn stack_standard(pair: SourcePair, joint: &[u32], w: &mut [u64; WORK_WORDS]) -> Stacked
    requires { Joint (listed pair.left) (listed pair.right) joint.now }
    ensures { Stack (listed pair.entry.left) (listed pair.entry.right) w.new result.first result.second }
{
    let mut known = Support::new();
    let a = group_of(pair.left, &mut known, w);
    move_list(w, a.standards(), FURTHER, known.qubits(), joint);
    let b = group_of(pair.right, &mut known, w);
    let behind = FURTHER + 5 * a.total;
    move_list(w, b.standards(), behind, known.qubits(), joint);
    Stacked {
        first: a.total,
        second: b.total,
    }
}

// Leaves the common basis of the groups of two lists that can be joined, over the places of the joint support, in the further
// list's place; tells how many elements it has.
pub(crate) fn common_basis(pair: SourcePair, joint: &[u32], w: &mut [u64; WORK_WORDS]) -> usize
    requires { Joint (listed pair.left) (listed pair.right) joint.now }
    ensures few { result ≤ 128 }
    ensures list { list_in w.new further_at result ≡ basis_over (listed pair.entry.left) (listed pair.entry.right) }
{
    let stacked = stack_standard(pair, joint, w);
    let n = stacked.first + stacked.second;
    let both = Span::at(FURTHER, n);
    let rank = form_of(w, both, joint.len());
    let first = Span::at(FURTHER, stacked.first);
    let zeros = Span::at(STANDARD, n - rank);
    put_products(w, n, rank, first, zeros);
    let count = form_of(w, zeros, joint.len());
    let basis = Span::at(FURTHER, count);
    put_products(w, zeros.count, 0, zeros, basis);
    count
}
