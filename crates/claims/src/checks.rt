// What is checked of a claim before it is looked at: the numbers in it.
ghost use Rattle.std.specs.Prelude.{◌≡◌, ◌<◌, List, nat_le, length, IfOk};
ghost use Rattle.pauli.specs.Refusals.{told_of};
ghost use Rattle.pauli.specs.Pauli.{Pauli};
ghost use Rattle.pauli.specs.Support.{All};
ghost use Rattle.pauli.specs.Told.{answer, refuse_if};
ghost use Rattle.pauli_theory.specs.Claims.{rises_below};
ghost use Rattle.claims.specs.Calls.{formed};

use pauli::refusal::{Reason, Refusal};

// The highest exponent of a claim.
const HIGHEST_EXPONENT: u32 = 3;

// Checks a number against the count of its list.
pub(crate) fn check_number(number: usize, count: usize) -> Result<(), Refusal>
    ensures { told_of result ≡ refuse_if (nat_le count number) 8 0 (answer tt) }
{
    if number >= count {
        return Err(Reason::Number.into());
    }
    Ok(())
}

// Whether the indexes rise strictly and are below the count.
fn rises_below(indexes: &[u16], count: usize) -> bool
    ensures { result ≡ rises_below 0 count indexes.now }
{
    let mut least: usize = 0;
    for index in indexes {
        let index = *index as usize;
        if index < least {
            return false;
        }
        if index >= count {
            return false;
        }
        least = index + 1;
    }
    true
}

// Checks the form of a claim of membership by so many generators.
pub(crate) fn check_form(indexes: &[u16], exponent: u32, count: usize) -> Result<(), Refusal>
    ensures told { (gs : List Pauli) → count ≡ length gs → told_of result ≡ formed gs (record { indexes = indexes.now; exponent = exponent }) (answer tt) }
    ensures below { IfOk result (λ done. All (λ i. i < count) indexes.now × (exponent < 4)) }
{
    if !rises_below(indexes, count) {
        return Err(Reason::Claim.into());
    }
    if exponent > HIGHEST_EXPONENT {
        return Err(Reason::Claim.into());
    }
    Ok(())
}
