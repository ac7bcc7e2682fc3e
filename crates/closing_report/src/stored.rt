// The lines of the results of membership.
ghost use Rattle.std.specs.Prelude.{◌≡◌, ◌+◌, ◌*◌, ◌≤◌, length};
ghost use Rattle.pauli_group.specs.Inner.Members.{factoring_told};
ghost use Rattle.factorizations.specs.Put.{Put};
ghost use Rattle.factorizations.specs.Stored.{results_in};
ghost use Rattle.closing_report.specs.Lines.{member_line, member_lines};

use crate::lines::{member_line_length, other_line_length, put_member_line, put_other_line};
use factorizations::stored::result_of;
use pauli_group::member::IndexSet;

// The length of the line for element i, of which membership tells this.
fn line_length(i: usize, factoring: Option<IndexSet>) -> usize
    ensures { (result ≡ length (member_line i (factoring_told factoring))) × (result ≤ 2743) }
{
    match factoring {
        None => other_line_length(i),
        Some(found) => member_line_length(i, found),
    }
}

fn put_line(out: &mut [u8], at: usize, i: usize, factoring: Option<IndexSet>) -> usize
    requires { at + length (member_line i (factoring_told factoring)) ≤ length out.old }
    ensures { Put out.old at (member_line i (factoring_told factoring)) out.new result }
{
    match factoring {
        None => put_other_line(out, at, i),
        Some(found) => put_member_line(out, at, i, found),
    }
}

// The length of the lines for results, each of which is in five words.
pub(crate) fn lines_length(results: &[[u64; 5]]) -> usize
    requires { length results.now ≤ 128 }
    ensures { (result ≡ length (member_lines 0 (results_in results.now))) × (result ≤ 2743 * length results.now) }
{
    let mut total = 0;
    for (i, words) in results.iter().enumerate() {
        total += line_length(i, result_of(words));
    }
    total
}

pub(crate) fn put_lines(out: &mut [u8], at: usize, results: &[[u64; 5]]) -> usize
    requires { at + length (member_lines 0 (results_in results.now)) ≤ length out.old }
    ensures { Put out.old at (member_lines 0 (results_in results.now)) out.new result }
{
    let mut next = at;
    for (i, words) in results.iter().enumerate() {
        next = put_line(out, next, i, result_of(words));
    }
    next
}
