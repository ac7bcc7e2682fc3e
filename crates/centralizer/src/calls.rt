// The calls for what commutes with every Pauli of a list.
ghost use Rattle.std.specs.Prelude.{◌≡◌, ◌≤◌, map, length};
ghost use Rattle.pauli.specs.Condense.{list_of, condensed};
ghost use Rattle.pauli.specs.Refusals.{told_of};
ghost use Rattle.pauli.specs.Roll.{support};
ghost use Rattle.pauli.specs.Signed.{list_in};
ghost use Rattle.pauli.specs.Support.{Rising};
ghost use Rattle.pauli.specs.Told.{answer};
ghost use Rattle.pauli.specs.Writing.{told_bytes, left_in};
ghost use Rattle.pauli_theory.specs.Centralizer.{centralizer_within};
ghost use Rattle.pauli_group.specs.Calls.{paulis, list_bytes};
ghost use Rattle.pauli_group.specs.WorkArea.{cleared, area_after};
ghost use Rattle.centralizer.specs.Calls.{checked, generators_of};
ghost use Rattle.centralizer.specs.CallContracts.{WithinCall, OwnCall};
ghost use Rattle.centralizer.specs.Stacked.{result_at};

use crate::kernel::{KERNEL, RESULT, put_further, put_kernel};
use crate::named::check_named;
use crate::stacked::{STACKED, put_unnamed, read_exchanged};
use binar::echelon::Layout;
use binar::kernel::write_kernel;
use pauli::refusal::Refusal;
use pauli::roll::Roll;
use pauli::support::Support;
use pauli::write::write_roll;
use pauli_group::area::{ROW_WORDS, Span, WORK_WORDS, area_of, clear};
use pauli_group::checks::check_area;
use pauli_group::form::{form_of, stride_of};
use pauli_group::scan::put_phase;

// Leaves the centralizer's generators over the places of the named support in the result's place; tells how many there are.
fn put_centralizer(roll: Roll, own: &[u32], named: &[u32], w: &mut [u64; WORK_WORDS]) -> usize
    requires { (own.now ≡ support (list_of roll.bytes.now)) × (length own.now ≤ 63) × (length named.now ≤ 63) × Rising 0 named.now }
    ensures few { result ≤ 253 }
    ensures list { list_in w.new result_at result ≡ map (condensed named.now) (centralizer_within named.now (paulis (list_of roll.entry.bytes.now))) }
{
    read_exchanged(roll, own, w);
    let middle = put_unnamed(w, roll.count, own, named, true);
    let total = put_unnamed(w, middle, own, named, false);
    let rank = form_of(w, Span::at(STACKED, total), own.len());
    let shape = Layout {
        stride: stride_of(total),
        rows: total,
        cols: 2 * own.len(),
    };
    let rows = write_kernel(w, shape, rank, KERNEL, ROW_WORDS);
    put_kernel(w, rows, own, named);
    let count = put_further(w, rows, own, named);
    put_phase(w, RESULT + 5 * count, 1);
    count + 1
}

// Writes the centralizer of a roll's list on a named support, and clears the work area.
fn write_centralizer(
    roll: Roll,
    own: &[u32],
    named: &[u32],
    w: &mut [u64; WORK_WORDS],
    out: &mut [u8],
) -> Result<usize, Refusal>
    requires { (own.now ≡ support (list_of roll.bytes.now)) × (length own.now ≤ 63) × (length named.now ≤ 63) × Rising 0 named.now }
    ensures told { told_of result ≡ told_bytes (answer (list_bytes (centralizer_within named.now (paulis (list_of roll.entry.bytes.now))))) out.old }
    ensures left { out.new ≡ left_in (answer (list_bytes (centralizer_within named.now (paulis (list_of roll.entry.bytes.now))))) out.old }
    ensures area { w.new ≡ cleared w.old }
{
    let count = put_centralizer(roll, own, named, w);
    let list = Span::at(RESULT, count);
    let wrote = write_roll(list.paulis(w), named, out);
    clear(w);
    wrote
}

// Checks the named support and the work area, and writes the centralizer of a roll's list on that support.
fn centralize(
    roll: Roll,
    own: &[u32],
    named: &[u32],
    work: &mut [u64],
    out: &mut [u8],
) -> Result<usize, Refusal>
    requires { own.now ≡ support (list_of roll.bytes.now) }
    ensures told { told_of result ≡ told_bytes (generators_of named.now (checked named.now (list_of roll.entry.bytes.now) (length work.old))) out.old }
    ensures left { out.new ≡ left_in (generators_of named.now (checked named.now (list_of roll.entry.bytes.now) (length work.old))) out.old }
    ensures area { work.new ≡ area_after (checked named.now (list_of roll.entry.bytes.now) (length work.old)) work.old }
{
    check_named(named, own)?;
    check_area(work.len())?;
    write_centralizer(roll, own, named, area_of(work), out)
}

// Writes generators of what commutes with every Pauli of a roll's list, on the named qubits: up to signs what the kernel says of the
// qubits that the list uses, X and Z on each further one, and i.
pub fn centralizer_within(
    b: &[u8],
    named: &[u32],
    work: &mut [u64],
    out: &mut [u8],
) -> Result<usize, Refusal>
    ensures { WithinCall b.now named.now work.old out.old result work.new out.new }
{
    let roll = Roll::read(b)?;
    let mut known = Support::new();
    roll.gather(&mut known);
    centralize(roll, known.qubits(), named, work, out)
}

// The same on the list's own qubits.
pub fn centralizer_of(b: &[u8], work: &mut [u64], out: &mut [u8]) -> Result<usize, Refusal>
    ensures { OwnCall b.now work.old out.old result work.new out.new }
{
    let roll = Roll::read(b)?;
    let mut known = Support::new();
    roll.gather(&mut known);
    centralize(roll, known.qubits(), known.qubits(), work, out)
}
