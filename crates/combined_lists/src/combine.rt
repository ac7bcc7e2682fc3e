// The call on a line.
ghost use Rattle.std.specs.Prelude.{◌≡◌, ℕ, ◌≤◌, ◌∷◌, [], Some, List, IfOk, length, take, nat_lt};
ghost use Rattle.std.specs.Borrow.{sem};
ghost use Rattle.pauli.specs.Refusals.{told_of};
ghost use Rattle.pauli.specs.Told.{answer, refuse_if, map_told};
ghost use Rattle.pauli.specs.Writing.{told_bytes, left_in};
ghost use Rattle.pauli_group.specs.Calls.{list_bytes};
ghost use Rattle.combined_lists.specs.Line.{Tree, joined};
ghost use Rattle.combined_lists.specs.Reader.{level, tree_of};
ghost use Rattle.combined_lists.specs.LineCall.{rolls_in, passed};
ghost use Rattle.combined_lists.specs.Work.{value_of};
ghost use Rattle.combined_lists.specs.Combining.{all_read, line_words, line_cleared};
ghost use Rattle.combined_lists.specs.CombineContract.{CombineCall};
ghost use Rattle.combined_lists.specs.Inner.Worked.{Ready};
ghost use Rattle.combined_lists.specs.Inner.Slots.{on_lists, sent_in, lists_in};
ghost use Rattle.combined_lists.specs.Inner.Call.{IsRoll, AreRolls, LendsLine};

use crate::line::check_line;
use crate::slot::{SLOT_WORDS, SLOTS, write_slot};
use crate::work::or_level;
use binar::row::clear_bits;
use pauli::refusal::{Reason, Refusal};
use pauli::roll::Roll;
use pauli_group::area::WORK_WORDS;

// The words of the work area of a line.
pub const LINE_WORDS: usize = 32768;

// Checks a roll that may not be sent: it has no bytes then.
fn read_sent<'a>(bytes: &'a [u8]) -> Result<Option<Roll<'a>>, Refusal>
    ensures told { passed (told_of result) ≡ all_read (bytes.now ∷ []) }
    ensures roll { IfOk result (λ roll. IsRoll bytes.now roll) }
{
    if bytes.is_empty() {
        return Ok(None);
    }
    Ok(Some(Roll::read(bytes)?))
}

// The rolls of a line, A to D: none where a roll was not sent. A struct, since the check does not cover a `Result` of an array.
#[derive(Clone, Copy)]
struct Sent<'a> {
    rolls: [Option<Roll<'a>>; 4],
}

// Checks the rolls that are sent, A to D.
fn read_rolls<'a>(rolls: &[&'a [u8]; 4]) -> Result<Sent<'a>, Refusal>
    ensures told { passed (told_of result) ≡ all_read (rolls_in rolls.now) }
    ensures rolls { IfOk result (λ sent. AreRolls (rolls_in rolls.now) sent.rolls) }
{
    let a = read_sent(rolls[0])?;
    let b = read_sent(rolls[1])?;
    let c = read_sent(rolls[2])?;
    let d = read_sent(rolls[3])?;
    Ok(Sent {
        rolls: [a, b, c, d],
    })
}

// Checks that a work area has enough words for a line.
fn check_words(words: usize) -> Result<(), Refusal>
    ensures told { told_of result ≡ refuse_if (nat_lt words line_words) 9 0 (answer tt) }
    ensures room { IfOk result (λ done. line_words ≤ words) }
{
    if words < LINE_WORDS {
        return Err(Reason::Work.into());
    }
    Ok(())
}

// The words that a line uses of a work area that has enough.
fn area_of(work: &mut [u64]) -> &mut [u64; LINE_WORDS]
    requires { line_words ≤ length work.old }
    ensures* writes_back { sem 𝓛 (LendsLine work.entry result) }
    ensures value { result.now ≡ take line_words work.old }
{
    work.first_chunk_mut::<LINE_WORDS>().unwrap()
}

// Works a line out, and writes the list that it comes to.
fn work_out(
    line: &[u8],
    sent: &[Option<Roll<'_>>; 4],
    area: &mut [u64; LINE_WORDS],
    out: &mut [u8],
) -> Result<usize, Refusal>
    requires { Ready (sent_in sent.now) (level joined) line.now 0 }
    ensures told { (t : Tree) → tree_of line.now ≡ Some t → told_of result ≡ told_bytes (map_told list_bytes (value_of on_lists (lists_in sent.now) t)) out.old }
    ensures left { (t : Tree) → tree_of line.now ≡ Some t → out.new ≡ left_in (map_told list_bytes (value_of on_lists (lists_in sent.now) t)) out.old }
{
    let (w, rest) = area.split_first_chunk_mut::<WORK_WORDS>().unwrap();
    let (parts, _) = rest.as_chunks_mut::<SLOT_WORDS>();
    let slots = parts.first_chunk_mut::<SLOTS>().unwrap();
    or_level(line, sent, w, slots, 0)?;
    write_slot(&slots[0], out)
}

// Works a line out, and clears the work area.
fn write_line(
    line: &[u8],
    sent: &[Option<Roll<'_>>; 4],
    area: &mut [u64; LINE_WORDS],
    out: &mut [u8],
) -> Result<usize, Refusal>
    requires { Ready (sent_in sent.now) (level joined) line.now 0 }
    ensures told { (t : Tree) → tree_of line.now ≡ Some t → told_of result ≡ told_bytes (map_told list_bytes (value_of on_lists (lists_in sent.now) t)) out.old }
    ensures left { (t : Tree) → tree_of line.now ≡ Some t → out.new ≡ left_in (map_told list_bytes (value_of on_lists (lists_in sent.now) t)) out.old }
    ensures area { (work : List ℕ) → length work ≡ line_words → area.new ≡ line_cleared work }
{
    let wrote = work_out(line, sent, area, out);
    clear_bits(area, 0, LINE_WORDS);
    wrote
}

// Writes what a line comes to, with the rolls A to D, of which those of no bytes were not sent.
pub fn combine(
    line: &[u8],
    rolls: &[&[u8]; 4],
    work: &mut [u64],
    out: &mut [u8],
) -> Result<usize, Refusal>
    ensures { CombineCall line.now (rolls_in rolls.now) work.old out.old result work.new out.new }
{
    check_line(line, rolls)?;
    let sent = read_rolls(rolls)?;
    check_words(work.len())?;
    write_line(line, &sent.rolls, area_of(work), out)
}
