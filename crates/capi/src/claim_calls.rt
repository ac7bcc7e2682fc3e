// The calls that check claims of other programs.
ghost use Rattle.std.specs.Prelude.{◌≡◌, length};
ghost use Rattle.pauli_group.specs.Promises.{promise_numbered};
ghost use Rattle.claims.specs.Calls.{member_checked, member_call, absence_call};
ghost use Rattle.capi.specs.Code.{code_accepted};
ghost use Rattle.capi.specs.CallContracts.{Telling};

use crate::answer::{Answer, code_decided};
use claims::absence::accepts_absence;
use claims::membership::accepts_membership;
use pauli_group::promise::Promise;

// The indexes are a list of numbers.
#[unsafe(no_mangle)]
pub extern "C" fn howhiruke_accepts_membership(
    generators: &[u8],
    elements: &[u8],
    number: usize,
    indexes: &[u16],
    exponent: u32,
    promise: u64,
    work: &mut [u64],
) -> Answer
    ensures { Telling (code_accepted (member_call (promise_numbered promise) generators.now elements.now number (record { indexes = indexes.now; exponent = exponent }) (length work.old))) (member_checked generators.now elements.now number (record { indexes = indexes.now; exponent = exponent }) (length work.old)) work.old result work.new }
{
    let promised = Promise::from(promise);
    let accepted = accepts_membership(
        generators, elements, number, indexes, exponent, promised, work,
    );
    code_decided(accepted)
}

#[unsafe(no_mangle)]
pub extern "C" fn howhiruke_accepts_absence(
    generators: &[u8],
    elements: &[u8],
    number: usize,
    witnesses: &[u8],
    witness: usize,
) -> Answer
    ensures { result ≡ code_accepted (absence_call generators.now elements.now number witnesses.now witness) }
{
    let accepted = accepts_absence(generators, elements, number, witnesses, witness);
    code_decided(accepted)
}
