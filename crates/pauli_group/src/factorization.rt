// The call for membership.
ghost use Rattle.std.specs.Prelude.{◌≡◌, ◌<◌, slice_index_or};
ghost use Rattle.pauli.specs.Condense.{list_of, nothing};
ghost use Rattle.pauli.specs.Sets.{pauli_of};
ghost use Rattle.pauli_theory.specs.Membership.{factorization_of};
ghost use Rattle.pauli_group.specs.Promises.{promise_of};
ghost use Rattle.pauli_group.specs.WorkArea.{cleared};
ghost use Rattle.pauli_group.specs.Calls.{paulis};
ghost use Rattle.pauli_group.specs.CallContracts.{MemberCall};
ghost use Rattle.pauli_group.specs.Inner.Members.{factoring_told};

use crate::answers::Factors;
use crate::area::{WORK_WORDS, area_of, clear};
use crate::checks::{Rolls, check_question};
use crate::group::group_of;
use crate::member::{IndexSet, factor, put_indexes};
use crate::promise::Promise;
use crate::source::Source;
use crate::standard::signs_of;
use pauli::refusal::{Reason, Refusal};
use pauli::support::Support;

// Factors one element by the group of the generators, and clears the work area.
fn factor_once(
    rolls: Rolls,
    number: usize,
    promise: Promise,
    w: &mut [u64; WORK_WORDS],
) -> Option<IndexSet>
    requires { number < rolls.elements.count }
    ensures told { factoring_told result ≡ factorization_of (promise_of promise) (paulis (list_of rolls.entry.generators.bytes.now)) (pauli_of (slice_index_or (list_of rolls.entry.elements.bytes.now) number nothing)) }
    ensures area { w.new ≡ cleared w.old }
{
    let mut known = Support::new();
    let g = group_of(Source::Rolled(rolls.generators), &mut known, w);
    let signs = signs_of(g.standards().paulis(w), promise);
    let factoring = factor(rolls.elements, number, known.qubits(), g, signs.phases, w);
    clear(w);
    factoring
}

// Writes the indexes of the generators whose product is the element, up to a phase of the group, and tells their count and the
// exponent left.
pub fn indexed_factorization_of(
    b: &[u8],
    elements: &[u8],
    number: usize,
    promise: Promise,
    work: &mut [u64],
    out: &mut [u8],
) -> Result<Option<Factors>, Refusal>
    ensures { MemberCall (promise_of promise) b.now elements.now number work.old out.old result work.new out.new }
{
    let rolls = check_question(b, elements, number, work.len())?;
    let factoring = factor_once(rolls, number, promise, area_of(work));
    let found = match factoring {
        None => {
            return Ok(None);
        }
        Some(found) => found,
    };
    let set = found.set;
    let count = set.weight();
    if out.len() < 2 * count {
        return Err(Reason::Output.into());
    }
    put_indexes(out, 0, set);
    Ok(Some(Factors {
        count,
        exponent: found.exponent,
    }))
}
