// Marks to return to.
ghost use Rattle.std.specs.Prelude.{◌≡◌, ◌++◌, ◌+◌, ◌*◌, ◌<◌, ◌≤◌};
ghost use Rattle.window.specs.Inner.{place};
ghost use Rattle.window.specs.MarkContracts.{SaveCall, ReturnCall, DeleteCall, RoundCall};
ghost use Rattle.window.specs.MarkLayout.{held_in, marks_in, state};
ghost use Rattle.pauli.specs.Writing.{put_bytes};

use crate::layout::{
    HELD_AT, MARK_BYTES, MARKS_AT, MOST_MARKS, NAME_BYTES, ROUND_AT, ROUND_BYTES, WIDTH_AT,
    WINDOW_BYTES,
};
use crate::round::round_in;
use pauli::refusal::{Reason, Refusal};

// How many marks are held.
fn held_in(w: &[u8; WINDOW_BYTES]) -> usize
    ensures { (result ≡ held_in w.now) × (result ≤ 8) }
{
    (w[HELD_AT] as usize).min(MOST_MARKS)
}

// The place of a name among the marks, or how many are held.
fn place_of(w: &[u8; WINDOW_BYTES], name: &[u8; NAME_BYTES]) -> usize
    ensures { (result ≡ place name.now (marks_in w.now)) × (result ≤ held_in w.now) × (held_in w.now ≤ 8) }
{
    let held = held_in(w);
    for i in 0..held {
        let at = MARKS_AT + MARK_BYTES * i;
        if w[at..at + NAME_BYTES] == name[..] {
            return i;
        }
    }
    held
}

// Writes a mark of the checks inside and the round.
fn put_mark(w: &mut [u8; WINDOW_BYTES], place: usize, name: &[u8; NAME_BYTES])
    requires { place < 8 }
    ensures { w.new ≡ put_bytes w.old (66193 + 66198 * place) (name.now ++ state w.old) }
{
    let at = MARKS_AT + MARK_BYTES * place;
    w[at..at + NAME_BYTES].copy_from_slice(name);
    w.copy_within(0..WIDTH_AT, at + NAME_BYTES);
    w.copy_within(ROUND_AT..HELD_AT, at + NAME_BYTES + WIDTH_AT);
}

// Saves the checks inside and the round under a name: in the place of what is kept under it, if it is used.
pub fn save(w: &mut [u8; WINDOW_BYTES], name: &[u8; NAME_BYTES]) -> Result<(), Refusal>
    ensures { SaveCall w.old name.now result w.new }
{
    let place = place_of(w, name);
    if place == MOST_MARKS {
        return Err(Reason::Marks.into());
    }
    let held = held_in(w).max(place + 1);
    put_mark(w, place, name);
    w[HELD_AT] = held as u8;
    Ok(())
}

// Returns to the checks and the round that are kept under a name. All marks stay.
pub fn return_to(w: &mut [u8; WINDOW_BYTES], name: &[u8; NAME_BYTES]) -> Result<(), Refusal>
    ensures { ReturnCall w.old name.now result w.new }
{
    let place = place_of(w, name);
    if place == held_in(w) {
        return Err(Reason::Mark.into());
    }
    let at = MARKS_AT + MARK_BYTES * place + NAME_BYTES;
    w.copy_within(at..at + WIDTH_AT, 0);
    w.copy_within(at + WIDTH_AT..at + WIDTH_AT + ROUND_BYTES, ROUND_AT);
    Ok(())
}

// Deletes the mark of a name: the marks behind it close the gap.
pub fn delete(w: &mut [u8; WINDOW_BYTES], name: &[u8; NAME_BYTES]) -> Result<(), Refusal>
    ensures { DeleteCall w.old name.now result w.new }
{
    let place = place_of(w, name);
    let held = held_in(w);
    if place == held {
        return Err(Reason::Mark.into());
    }
    let at = MARKS_AT + MARK_BYTES * place;
    w.copy_within(at + MARK_BYTES..MARKS_AT + MARK_BYTES * held, at);
    w[HELD_AT] = (held - 1) as u8;
    Ok(())
}

// The round: how many checks were accepted, those of the mark that was returned to and those sent since.
pub fn round(w: &[u8; WINDOW_BYTES]) -> u64
    ensures { RoundCall w.now result }
{
    round_in(w)
}
