// The lines of the listing: the length of each, and the line put into an output.
ghost use Rattle.std.specs.Prelude.{◌≡◌, ◌+◌, ◌≤◌, length};
ghost use Rattle.std.proofs.Math.Option.{some, none};
ghost use Rattle.pauli.specs.Refusals.{number_of};
ghost use Rattle.pauli.specs.Sets.{members};
ghost use Rattle.pauli.specs.PlaceSet.{set_in};
ghost use Rattle.pauli_group.specs.Inner.Lists.{step_told};
ghost use Rattle.pauli_group.specs.Inner.Members.{factors_told};
ghost use Rattle.pauli_group.specs.Answers.{yes_number};
ghost use Rattle.factorizations.specs.Put.{Put};
ghost use Rattle.closing_report.specs.Lines.{phases_text, abelian_text, first_line, indexes_text, member_line, refused_line};

use crate::text::{number_length, put_labelled, put_number, put_text};
use pauli::places::Places;
use pauli::refusal::{Refusal, number_of};
use pauli_group::answers::Phases;
use pauli_group::group::Description;
use pauli_group::member::IndexSet;

// ---- the first line

// The phases, with commas.
pub fn phases_word(phases: Phases) -> &'static [u8]
    ensures { (result.now ≡ phases_text (step_told phases)) × (length result.now ≤ 7) }
{
    match phases {
        Phases::Zero => b"0",
        Phases::ZeroTwo => b"0,2",
        Phases::All => b"0,1,2,3",
    }
}

// Whether the group is abelian.
fn abelian_word(clash: bool) -> &'static [u8]
    ensures { (result.now ≡ abelian_text (yes_number clash)) × (length result.now ≤ 3) }
{
    if clash {
        return b"no";
    }
    b"yes"
}

pub(crate) fn first_line_length(group: Description) -> usize
    ensures { (result ≡ length (first_line group.rank (step_told group.signs.phases) (yes_number group.signs.clash))) × (result ≤ 53) }
{
    let signs = group.signs;
    5 + number_length(group.rank)
        + 8
        + phases_word(signs.phases).len()
        + 9
        + abelian_word(signs.clash).len()
        + 1
}

pub(crate) fn put_first_line(out: &mut [u8], at: usize, group: Description) -> usize
    requires { at + length (first_line group.rank (step_told group.signs.phases) (yes_number group.signs.clash)) ≤ length out.old }
    ensures { Put out.old at (first_line group.rank (step_told group.signs.phases) (yes_number group.signs.clash)) out.new result }
{
    let signs = group.signs;
    let phases = put_labelled(out, at, b"rank ", group.rank);
    let step_at = put_text(out, phases, b" phases ");
    let abelian = put_text(out, step_at, phases_word(signs.phases));
    let clash_at = put_text(out, abelian, b" abelian ");
    let end = put_text(out, clash_at, abelian_word(signs.clash));
    put_text(out, end, b"\n")
}

// ---- the line of an element: the numbers of its index set are places in the list of generators

fn indexes_length(set: Places) -> usize
    ensures { (result ≡ length (indexes_text (members (set_in set)))) × (result ≤ 2688) }
{
    let mut total = 0;
    for p in set.iter() {
        total += 1 + number_length(p.0);
    }
    total
}

fn put_indexes(out: &mut [u8], at: usize, set: Places) -> usize
    requires { at + length (indexes_text (members (set_in set))) ≤ length out.old }
    ensures { Put out.old at (indexes_text (members (set_in set))) out.new result }
{
    let mut next = at;
    for p in set.iter() {
        next = put_labelled(out, next, b" ", p.0);
    }
    next
}

pub(crate) fn member_line_length(i: usize, found: IndexSet) -> usize
    ensures { (result ≡ length (member_line i (some (factors_told found)))) × (result ≤ 2743) }
{
    number_length(i)
        + 7
        + indexes_length(found.set)
        + 7
        + number_length(found.exponent as usize)
        + 1
}

pub(crate) fn put_member_line(out: &mut [u8], at: usize, i: usize, found: IndexSet) -> usize
    requires { at + length (member_line i (some (factors_told found))) ≤ length out.old }
    ensures { Put out.old at (member_line i (some (factors_told found))) out.new result }
{
    let member = put_number(out, at, i);
    let indexes = put_text(out, member, b" member");
    let phase = put_indexes(out, indexes, found.set);
    let end = put_labelled(out, phase, b" phase ", found.exponent as usize);
    put_text(out, end, b"\n")
}

pub(crate) fn other_line_length(i: usize) -> usize
    ensures { (result ≡ length (member_line i none)) × (result ≤ 32) }
{
    number_length(i) + 12
}

pub(crate) fn put_other_line(out: &mut [u8], at: usize, i: usize) -> usize
    requires { at + length (member_line i none) ≤ length out.old }
    ensures { Put out.old at (member_line i none) out.new result }
{
    let text = put_number(out, at, i);
    let behind = put_text(out, text, b" not member");
    put_text(out, behind, b"\n")
}

// ---- the line of a refusal

pub(crate) fn refused_line_length(refusal: Refusal, roll: usize) -> usize
    ensures { (result ≡ length (refused_line (number_of refusal.reason) refusal.place roll)) × (result ≤ 82) }
{
    let reason = refusal.reason;
    8 + number_length(number_of(reason))
        + 4
        + number_length(refusal.place)
        + 9
        + number_length(roll)
        + 1
}

pub(crate) fn put_refused_line(out: &mut [u8], at: usize, refusal: Refusal, roll: usize) -> usize
    requires { at + length (refused_line (number_of refusal.reason) refusal.place roll) ≤ length out.old }
    ensures { Put out.old at (refused_line (number_of refusal.reason) refusal.place roll) out.new result }
{
    let reason = refusal.reason;
    let place = put_labelled(out, at, b"refused ", number_of(reason));
    let roll_at = put_labelled(out, place, b" at ", refusal.place);
    let end = put_labelled(out, roll_at, b" in roll ", roll);
    put_text(out, end, b"\n")
}
