// The call for the closing listing.
ghost use Rattle.std.specs.Prelude.{◌≡◌};
ghost use Rattle.pauli.specs.Told.{answer};
ghost use Rattle.pauli.specs.Condense.{list_of};
ghost use Rattle.pauli.specs.Writing.{told_bytes, left_in};
ghost use Rattle.pauli_group.specs.WorkArea.{cleared};
ghost use Rattle.pauli_group.specs.Calls.{paulis};
ghost use Rattle.closing_report.specs.Contract.{ReportCall};
ghost use Rattle.closing_report.specs.Lines.{refused_line};
ghost use Rattle.closing_report.specs.Listing.{report, text_of};
ghost use Rattle.pauli.specs.Refusals.{told_of};

use crate::input::split_input;
use crate::listing::{write_listing, write_refused};
use factorizations::stored::{factor_rolls, results};
use pauli::refusal::{Reason, Refusal};
use pauli::roll::Roll;
use pauli_group::area::{WORK_WORDS, area_of, clear};
use pauli_group::checks::{Rolls, check_area};
use pauli_group::promise::Promise;

// No text is longer.
pub const MOST_TEXT: usize = 53924;

// Writes the listing for two rolls.
fn write_report(rolls: Rolls, w: &mut [u64; WORK_WORDS], out: &mut [u8]) -> Result<usize, Refusal>
    ensures told { told_of result ≡ told_bytes (answer (report (paulis (list_of rolls.entry.generators.bytes.now)) (paulis (list_of rolls.entry.elements.bytes.now)))) out.old }
    ensures left { out.new ≡ left_in (answer (report (paulis (list_of rolls.entry.generators.bytes.now)) (paulis (list_of rolls.entry.elements.bytes.now)))) out.old }
{
    let group = factor_rolls(rolls, Promise::None, w);
    write_listing(group, results(w, rolls.elements.count), out)
}

// Writes the line for an input without a whole first roll.
fn write_cut(out: &mut [u8]) -> Result<usize, Refusal>
    ensures told { told_of result ≡ told_bytes (answer (refused_line 1 0 1)) out.old }
    ensures left { out.new ≡ left_in (answer (refused_line 1 0 1)) out.old }
{
    write_refused(Reason::Length.into(), 1, out)
}

// Writes what is printed for an input: the listing of its two rolls, or the line of the first refusal.
fn write_text(input: &[u8], w: &mut [u64; WORK_WORDS], out: &mut [u8]) -> Result<usize, Refusal>
    ensures told { told_of result ≡ told_bytes (answer (text_of input.now)) out.old }
    ensures left { out.new ≡ left_in (answer (text_of input.now)) out.old }
{
    let Some(end) = split_input(input) else {
        return write_cut(out);
    };
    let generators = match Roll::read(&input[4..end]) {
        Ok(roll) => roll,
        Err(refusal) => return write_refused(refusal, 1, out),
    };
    let elements = match Roll::read(&input[end..]) {
        Ok(roll) => roll,
        Err(refusal) => return write_refused(refusal, 2, out),
    };
    write_report(
        Rolls {
            generators,
            elements,
        },
        w,
        out,
    )
}

// Writes the text of an input, and clears the work area.
fn write_and_clear(
    input: &[u8],
    w: &mut [u64; WORK_WORDS],
    out: &mut [u8],
) -> Result<usize, Refusal>
    ensures told { told_of result ≡ told_bytes (answer (text_of input.now)) out.old }
    ensures left { out.new ≡ left_in (answer (text_of input.now)) out.old }
    ensures area { w.new ≡ cleared w.old }
{
    let wrote = write_text(input, w, out);
    clear(w);
    wrote
}

// Writes the closing listing of an input: a text for two accepted rolls, or the line of the first refusal.
pub fn closing_report(input: &[u8], work: &mut [u64], out: &mut [u8]) -> Result<usize, Refusal>
    ensures { ReportCall input.now work.old out.old result work.new out.new }
{
    check_area(work.len())?;
    write_and_clear(input, area_of(work), out)
}
