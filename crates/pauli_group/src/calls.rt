// The calls on one list.
ghost use Rattle.std.specs.Prelude.{◌≡◌, ◌<◌};
ghost use Rattle.pauli.specs.Condense.{list_of};
ghost use Rattle.pauli.specs.Told.{answer};
ghost use Rattle.pauli.specs.Writing.{told_bytes, left_in};
ghost use Rattle.pauli_group.specs.Promises.{promise_of};
ghost use Rattle.pauli_group.specs.WorkArea.{cleared};
ghost use Rattle.pauli_group.specs.Calls.{paulis, standard_bytes};
ghost use Rattle.pauli_group.specs.Inner.Groups.{DescriptionCall};
ghost use Rattle.pauli_group.specs.CallContracts.{StandardCall, RankCall, PhasesCall, AbelianCall, StabilizerCall, SizeCall};
ghost use Rattle.pauli.specs.Refusals.{told_of};

use crate::answers::Phases;
use crate::area::{WORK_WORDS, area_of, clear};
use crate::checks::check_list;
use crate::group::{Description, describe_once, group_of};
use crate::promise::Promise;
use crate::source::Source;
use pauli::refusal::Refusal;
use pauli::roll::Roll;
use pauli::support::Support;
use pauli::write::write_roll;

// Writes the standard generators of a roll, and clears the work area.
fn write_standard(roll: Roll, w: &mut [u64; WORK_WORDS], out: &mut [u8]) -> Result<usize, Refusal>
    ensures told { told_of result ≡ told_bytes (answer (standard_bytes (paulis (list_of roll.entry.bytes.now)))) out.old }
    ensures left { out.new ≡ left_in (answer (standard_bytes (paulis (list_of roll.entry.bytes.now)))) out.old }
    ensures area { w.new ≡ cleared w.old }
{
    let mut known = Support::new();
    let g = group_of(Source::Rolled(roll), &mut known, w);
    let wrote = write_roll(g.standards().paulis(w), known.qubits(), out);
    clear(w);
    wrote
}

// Writes the standard generators of a list as a roll.
pub fn standard_generators(b: &[u8], work: &mut [u64], out: &mut [u8]) -> Result<usize, Refusal>
    ensures { StandardCall b.now work.old out.old result work.new out.new }
{
    let roll = check_list(b, work.len())?;
    write_standard(roll, area_of(work), out)
}

// Describes the group of a list, and clears the work area.
pub fn describe_list(b: &[u8], promise: Promise, work: &mut [u64]) -> Result<Description, Refusal>
    ensures { DescriptionCall (promise_of promise) b.now work.old result work.new }
{
    let roll = check_list(b, work.len())?;
    Ok(describe_once(roll, promise, area_of(work)))
}

// The rank of a list: the dimension of the space of its rows.
pub fn rank(b: &[u8], work: &mut [u64]) -> Result<usize, Refusal>
    ensures { RankCall b.now work.old result work.new }
{
    let d = describe_list(b, Promise::None, work)?;
    Ok(d.rank)
}

// The phases of the group: the powers of i in it.
pub fn phases(b: &[u8], promise: Promise, work: &mut [u64]) -> Result<Phases, Refusal>
    ensures { PhasesCall (promise_of promise) b.now work.old result work.new }
{
    let d = describe_list(b, promise, work)?;
    Ok(d.signs.phases)
}

// Whether no two generators anticommute, or what is promised.
pub fn is_abelian(b: &[u8], promise: Promise, work: &mut [u64]) -> Result<bool, Refusal>
    ensures { AbelianCall (promise_of promise) b.now work.old result work.new }
{
    let d = describe_list(b, promise, work)?;
    Ok(!d.signs.clash)
}

// Whether the group is abelian and does not have -I.
pub fn is_stabilizer_group(b: &[u8], promise: Promise, work: &mut [u64]) -> Result<bool, Refusal>
    ensures { StabilizerCall (promise_of promise) b.now work.old result work.new }
{
    let d = describe_list(b, promise, work)?;
    Ok(d.signs.stabilizer)
}

// The binary logarithm of the number of elements.
pub fn log2_size(b: &[u8], promise: Promise, work: &mut [u64]) -> Result<usize, Refusal>
    ensures { SizeCall (promise_of promise) b.now work.old result work.new }
{
    let d = describe_list(b, promise, work)?;
    Ok(d.rank + d.signs.phases.log2_count())
}
