// The call that checks a claim of absence. It uses no work area.
ghost use Rattle.std.specs.Prelude.{◌≡◌, ◌<◌, ◌==◌, slice_index_or};
ghost use Rattle.pauli.specs.Condense.{list_of, nothing};
ghost use Rattle.pauli.specs.Pauli.{anticommute};
ghost use Rattle.pauli.specs.Sets.{pauli_of};
ghost use Rattle.pauli_theory.specs.Claims.{absence_accepted};
ghost use Rattle.pauli_theory.specs.Standard.{anticommutes_with_some};
ghost use Rattle.pauli_group.specs.Calls.{paulis};
ghost use Rattle.claims.specs.ClaimContracts.{AbsenceClaim};

use crate::checks::check_number;
use crate::restricted::restrict_from;
use pauli::condense::condense_from;
use pauli::refusal::Refusal;
use pauli::roll::Roll;
use pauli::support::Support;
use pauli_group::checks::{Rolls, check_rolls};

// Whether Pauli i of the witnesses anticommutes with some Pauli of the roll.
fn clashes_with_some(witnesses: Roll, i: usize, roll: Roll) -> bool
    requires { i < witnesses.count }
    ensures { result ≡ (anticommutes_with_some (pauli_of (slice_index_or (list_of witnesses.entry.bytes.now) i nothing)) (paulis (list_of roll.entry.bytes.now)) == 1) }
{
    let mut known = Support::new();
    roll.gather(&mut known);
    let w = restrict_from(witnesses, i, known.qubits());
    for k in 0..roll.count {
        let p = condense_from(roll, k, known.qubits());
        if p.times(w).anticommute {
            return true;
        }
    }
    false
}

// Whether Pauli i of the witnesses anticommutes with Pauli k of the roll.
fn clashes_with(witnesses: Roll, i: usize, roll: Roll, k: usize) -> bool
    requires { (i < witnesses.count) × (k < roll.count) }
    ensures { result ≡ (anticommute (pauli_of (slice_index_or (list_of witnesses.entry.bytes.now) i nothing)) (pauli_of (slice_index_or (list_of roll.entry.bytes.now) k nothing)) == 1) }
{
    let mut known = Support::new();
    roll.gather(&mut known);
    let w = restrict_from(witnesses, i, known.qubits());
    let p = condense_from(roll, k, known.qubits());
    p.times(w).anticommute
}

// Whether Pauli i of the witnesses commutes with all generators and anticommutes with the element.
fn refutes(rolls: Rolls, number: usize, witnesses: Roll, i: usize) -> bool
    requires { (number < rolls.elements.count) × (i < witnesses.count) }
    ensures { result ≡ absence_accepted (paulis (list_of rolls.entry.generators.bytes.now)) (pauli_of (slice_index_or (list_of rolls.entry.elements.bytes.now) number nothing)) (pauli_of (slice_index_or (list_of witnesses.entry.bytes.now) i nothing)) }
{
    if clashes_with_some(witnesses, i, rolls.generators) {
        return false;
    }
    clashes_with(witnesses, i, rolls.elements, number)
}

// Whether a claim of absence is accepted: the witness commutes with all generators and anticommutes with the element.
pub fn accepts_absence(
    generators: &[u8],
    elements: &[u8],
    number: usize,
    witnesses: &[u8],
    witness: usize,
) -> Result<bool, Refusal>
    ensures { AbsenceClaim generators.now elements.now number witnesses.now witness result }
{
    let rolls = check_rolls(generators, elements)?;
    let sent = Roll::read(witnesses)?;
    check_number(number, rolls.elements.count)?;
    check_number(witness, sent.count)?;
    Ok(refutes(rolls, number, sent, witness))
}
