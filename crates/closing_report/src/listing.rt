// A whole text, written where the output has room for it.
ghost use Rattle.std.specs.Prelude.{◌≡◌, ◌++◌, ◌≤◌, length};
ghost use Rattle.pauli.specs.Refusals.{number_of, told_of};
ghost use Rattle.pauli.specs.Told.{answer};
ghost use Rattle.pauli.specs.Writing.{told_bytes, left_in};
ghost use Rattle.pauli_group.specs.Inner.Lists.{step_told};
ghost use Rattle.pauli_group.specs.Answers.{yes_number};
ghost use Rattle.factorizations.specs.Stored.{results_in};
ghost use Rattle.closing_report.specs.Lines.{first_line, member_lines, refused_line};

use crate::lines::{first_line_length, put_first_line, put_refused_line, refused_line_length};
use crate::stored::{lines_length, put_lines};
use pauli::refusal::{Reason, Refusal};
use pauli_group::group::Description;

// Writes the first line and the lines of results, each of which is in five words.
pub(crate) fn write_listing(
    group: Description,
    results: &[[u64; 5]],
    out: &mut [u8],
) -> Result<usize, Refusal>
    requires { length results.now ≤ 128 }
    ensures told { told_of result ≡ told_bytes (answer (first_line group.rank (step_told group.signs.phases) (yes_number group.signs.clash) ++ member_lines 0 (results_in results.now))) out.old }
    ensures left { out.new ≡ left_in (answer (first_line group.rank (step_told group.signs.phases) (yes_number group.signs.clash) ++ member_lines 0 (results_in results.now))) out.old }
{
    let size = first_line_length(group) + lines_length(results);
    if out.len() < size {
        return Err(Reason::Output.into());
    }
    let next = put_first_line(out, 0, group);
    put_lines(out, next, results);
    Ok(size)
}

// Writes the line of a refusal.
pub(crate) fn write_refused(refusal: Refusal, roll: usize, out: &mut [u8]) -> Result<usize, Refusal>
    ensures told { told_of result ≡ told_bytes (answer (refused_line (number_of refusal.reason) refusal.place roll)) out.old }
    ensures left { out.new ≡ left_in (answer (refused_line (number_of refusal.reason) refusal.place roll)) out.old }
{
    let line = refused_line_length(refusal, roll);
    if out.len() < line {
        return Err(Reason::Output.into());
    }
    put_refused_line(out, 0, refusal, roll);
    Ok(line)
}
