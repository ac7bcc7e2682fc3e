// A line worked out: four levels that call each other, as those that read it. Each leaves what its level comes to in slot top, and gives
// the bytes that follow.
ghost use Rattle.std.specs.Prelude.{◌≡◌, ◌-◌, ◌<◌, ◌≤◌, true, IfOk, IfErr};
ghost use Rattle.pauli.specs.Refusals.{number_of};
ghost use Rattle.combined_lists.specs.Line.{quotient, common, joined};
ghost use Rattle.combined_lists.specs.Reader.{atom, level};
ghost use Rattle.combined_lists.specs.Inner.Worked.{Ready, Worked, Refuses, Loaded};
ghost use Rattle.combined_lists.specs.Inner.Slots.{on_lists, sent_in, lists_in, SlotHolds};

use crate::form::after;
use crate::operate::{common_slots, join_slots, load, quotient_slots};
use crate::slot::{SLOT_WORDS, SLOTS};
use pauli::refusal::Refusal;
use pauli::roll::Roll;
use pauli_group::area::WORK_WORDS;

// Puts the list of a letter's roll into slot top.
fn load_letter(
    letter: u8,
    rolls: &[Option<Roll<'_>>; 4],
    w: &mut [u64; WORK_WORDS],
    slots: &mut [[u64; SLOT_WORDS]; SLOTS],
    top: usize,
)
    requires { (65 ≤ letter) × (letter ≤ 68) × (sent_in rolls.now (letter - 65) ≡ true) × (top < 16) }
    ensures { Loaded (lists_in rolls.now) SlotHolds (letter - 65) top slots.old slots.new }
{
    if let Some(roll) = rolls[(letter - b'A') as usize] {
        load(roll, w, slots, top);
    }
}

// or-level: and-level { '|' and-level }
#[cycle(levels)]
pub(crate) fn or_level<'a>(
    line: &'a [u8],
    rolls: &[Option<Roll<'_>>; 4],
    w: &mut [u64; WORK_WORDS],
    slots: &mut [[u64; SLOT_WORDS]; SLOTS],
    top: usize,
) -> Result<&'a [u8], Refusal>
    requires { Ready (sent_in rolls.now) (level joined) line.now top }
    ensures worked { IfOk result (λ rest. Worked on_lists (lists_in rolls.now) SlotHolds (level joined) line.now rest.now top slots.old slots.new) }
    ensures refused { IfErr result (λ e. Refuses on_lists (lists_in rolls.now) (level joined) line.now (number_of e.reason) e.place) }
{
    let mut rest = and_level(line, rolls, w, slots, top)?;
    while let Some(right) = after(rest, b'|') {
        rest = and_level(right, rolls, w, slots, top + 1)?;
        join_slots(w, slots, top)?;
    }
    Ok(rest)
}

// and-level: quotient-level { '&' quotient-level }
#[cycle(levels)]
fn and_level<'a>(
    line: &'a [u8],
    rolls: &[Option<Roll<'_>>; 4],
    w: &mut [u64; WORK_WORDS],
    slots: &mut [[u64; SLOT_WORDS]; SLOTS],
    top: usize,
) -> Result<&'a [u8], Refusal>
    requires { Ready (sent_in rolls.now) (level common) line.now top }
    ensures worked { IfOk result (λ rest. Worked on_lists (lists_in rolls.now) SlotHolds (level common) line.now rest.now top slots.old slots.new) }
    ensures refused { IfErr result (λ e. Refuses on_lists (lists_in rolls.now) (level common) line.now (number_of e.reason) e.place) }
{
    let mut rest = quotient_level(line, rolls, w, slots, top)?;
    while let Some(right) = after(rest, b'&') {
        rest = quotient_level(right, rolls, w, slots, top + 1)?;
        common_slots(w, slots, top)?;
    }
    Ok(rest)
}

// quotient-level: atom { '/' atom }
#[cycle(levels)]
fn quotient_level<'a>(
    line: &'a [u8],
    rolls: &[Option<Roll<'_>>; 4],
    w: &mut [u64; WORK_WORDS],
    slots: &mut [[u64; SLOT_WORDS]; SLOTS],
    top: usize,
) -> Result<&'a [u8], Refusal>
    requires { Ready (sent_in rolls.now) (level quotient) line.now top }
    ensures worked { IfOk result (λ rest. Worked on_lists (lists_in rolls.now) SlotHolds (level quotient) line.now rest.now top slots.old slots.new) }
    ensures refused { IfErr result (λ e. Refuses on_lists (lists_in rolls.now) (level quotient) line.now (number_of e.reason) e.place) }
{
    let mut rest = atom(line, rolls, w, slots, top)?;
    while let Some(right) = after(rest, b'/') {
        rest = atom(right, rolls, w, slots, top + 1)?;
        quotient_slots(w, slots, top)?;
    }
    Ok(rest)
}

// atom: 'A' .. 'D', or '(' or-level ')'
#[cycle(levels)]
fn atom<'a>(
    line: &'a [u8],
    rolls: &[Option<Roll<'_>>; 4],
    w: &mut [u64; WORK_WORDS],
    slots: &mut [[u64; SLOT_WORDS]; SLOTS],
    top: usize,
) -> Result<&'a [u8], Refusal>
    requires { Ready (sent_in rolls.now) atom line.now top }
    ensures worked { IfOk result (λ rest. Worked on_lists (lists_in rolls.now) SlotHolds atom line.now rest.now top slots.old slots.new) }
    ensures refused { IfErr result (λ e. Refuses on_lists (lists_in rolls.now) atom line.now (number_of e.reason) e.place) }
{
    if let Some(inner) = after(line, b'(') {
        let rest = or_level(inner, rolls, w, slots, top)?;
        return Ok(&rest[1..]);
    }
    load_letter(line[0], rolls, w, slots, top);
    Ok(&line[1..])
}
