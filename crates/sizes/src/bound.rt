// The call for the bound on standard generators.
ghost use Rattle.std.specs.Prelude.{◌≡◌, ◌+◌, ◌*◌, ◌≤◌, max, length};
ghost use Rattle.pauli.specs.Condense.{list_of};
ghost use Rattle.pauli.specs.Roll.{support};
ghost use Rattle.sizes.specs.SizeContracts.{StandardBoundCall};

use pauli::refusal::Refusal;
use pauli::roll::Roll;
use pauli::support::Support;

// How many distinct qubits a roll has.
fn qubits_of(roll: Roll) -> usize
    ensures { result ≡ length (support (list_of roll.entry.bytes.now)) }
{
    let mut known = Support::new();
    roll.gather(&mut known);
    known.len()
}

// The bytes of a roll of n Paulis with both sets full of s qubits, or of one such Pauli where n is 0.
fn full_roll(n: usize, s: usize) -> usize
    requires { (n ≤ 128) × (s ≤ 128) }
    ensures { result ≡ 2 + (10 + 8 * s) * max n 1 }
{
    if n == 0 {
        return 2 + (10 + 8 * s);
    }
    2 + (10 + 8 * s) * n
}

// The length that the standard roll of a list cannot exceed.
pub fn standard_bound(b: &[u8]) -> Result<usize, Refusal>
    ensures { StandardBoundCall b.now result }
{
    let roll = Roll::read(b)?;
    Ok(full_roll(roll.count, qubits_of(roll)))
}
