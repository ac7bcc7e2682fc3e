// The call for the factorizations of a roll of elements.
ghost use Rattle.std.specs.Prelude.{◌≡◌, map, length, IfOk};
ghost use Rattle.pauli.specs.Condense.{list_of};
ghost use Rattle.pauli.specs.Told.{answer, map_told};
ghost use Rattle.pauli.specs.Writing.{told_bytes, left_in};
ghost use Rattle.pauli_theory.specs.Membership.{factorization_of};
ghost use Rattle.pauli_group.specs.Promises.{promise_of};
ghost use Rattle.pauli_group.specs.WorkArea.{cleared};
ghost use Rattle.pauli_group.specs.Calls.{paulis};
ghost use Rattle.factorizations.specs.Calls.{questions, questions_counts};
ghost use Rattle.factorizations.specs.Contract.{FactorizationsCall};
ghost use Rattle.factorizations.specs.Records.{results_bytes};
ghost use Rattle.pauli.specs.Refusals.{told_by, told_of};

use crate::answers::Results;
use crate::records::write_records;
use crate::stored::{factor_rolls, results};
use pauli::refusal::Refusal;
use pauli_group::area::{WORK_WORDS, area_of, clear};
use pauli_group::checks::{Rolls, check_area, check_rolls};
use pauli_group::promise::Promise;

// Checks the generators' roll, the elements' roll and the work area of so many words.
fn check_questions<'a>(
    generators: &'a [u8],
    elements: &'a [u8],
    words: usize,
) -> Result<Rolls<'a>, Refusal>
    ensures counts { told_by (λ rolls. record { left = rolls.generators.count; right = rolls.elements.count }) result ≡ map_told questions_counts (questions generators.now elements.now words) }
    ensures rolls { IfOk result (λ rolls. (rolls.generators.bytes ≡ generators.entry) × (rolls.elements.bytes ≡ elements.entry)) }
{
    let rolls = check_rolls(generators, elements)?;
    check_area(words)?;
    Ok(rolls)
}

// Factors the elements by the group of the generators, writes their records, and clears the work area.
fn write_factorizations(
    rolls: Rolls,
    promise: Promise,
    w: &mut [u64; WORK_WORDS],
    out: &mut [u8],
) -> Result<usize, Refusal>
    ensures told { told_of result ≡ told_bytes (answer (results_bytes (map (factorization_of (promise_of promise) (paulis (list_of rolls.entry.generators.bytes.now))) (paulis (list_of rolls.entry.elements.bytes.now))))) out.old }
    ensures left { out.new ≡ left_in (answer (results_bytes (map (factorization_of (promise_of promise) (paulis (list_of rolls.entry.generators.bytes.now))) (paulis (list_of rolls.entry.elements.bytes.now))))) out.old }
    ensures area { w.new ≡ cleared w.old }
{
    factor_rolls(rolls, promise, w);
    let wrote = write_records(results(w, rolls.elements.count), out);
    clear(w);
    wrote
}

// Writes a record for each element: the indexes of the generators whose product is the element, up to a phase of the group, and the
// exponent left; or that it is no member. Tells how many records there are and how many bytes they take.
pub fn indexed_factorizations_of(
    generators: &[u8],
    elements: &[u8],
    promise: Promise,
    work: &mut [u64],
    out: &mut [u8],
) -> Result<Results, Refusal>
    ensures { FactorizationsCall (promise_of promise) generators.now elements.now work.old out.old result work.new out.new }
{
    let rolls = check_questions(generators, elements, work.len())?;
    let bytes = write_factorizations(rolls, promise, area_of(work), out)?;
    Ok(Results {
        count: rolls.elements.count,
        bytes,
    })
}
