// The named support: numbers of qubits, as a caller lends them.
ghost use Rattle.std.specs.Prelude.{◌≡◌, ◌≤◌, length, IfOk};
ghost use Rattle.binar.specs.Kernel.{without};
ghost use Rattle.pauli.specs.Support.{Rising};
ghost use Rattle.pauli.specs.Told.{answer};
ghost use Rattle.pauli.specs.Refusals.{told_of};
ghost use Rattle.centralizer.specs.Calls.{rises_from, fitting};

use pauli::refusal::{Reason, Refusal};

// The most qubits of the named support and of the list's own together.
pub const MOST_TOGETHER: usize = 63;

// Whether the numbers rise strictly.
fn is_rising(named: &[u32]) -> bool
    ensures { result ≡ rises_from 0 named.now }
{
    let mut least: u64 = 0;
    for number in named {
        let number = *number as u64;
        if number < least {
            return false;
        }
        least = number + 1;
    }
    true
}

// How many of the named numbers are not among the list's own.
fn further(named: &[u32], own: &[u32]) -> usize
    ensures { result ≡ length (without own.now named.now) }
{
    let mut count = 0;
    for number in named {
        if !own.contains(number) {
            count += 1;
        }
    }
    count
}

// Checks the named support beside the list's own, which rises.
pub(crate) fn check_named(named: &[u32], own: &[u32]) -> Result<(), Refusal>
    requires { Rising 0 own.now }
    ensures told { told_of result ≡ fitting named.now own.now (answer tt) }
    ensures few { IfOk result (λ done. (length own.now ≤ 63) × (length named.now ≤ 63) × Rising 0 named.now) }
{
    if !is_rising(named) || own.len() + further(named, own) > MOST_TOGETHER {
        return Err(Reason::Support.into());
    }
    Ok(())
}
