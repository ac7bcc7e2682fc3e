// The check of a line, before any roll is read.
ghost use Rattle.std.specs.Prelude.{◌≡◌, is_some};
ghost use Rattle.pauli.specs.Refusals.{told_of};
ghost use Rattle.combined_lists.specs.Reader.{tree_of};
ghost use Rattle.combined_lists.specs.LineCall.{line_told, passed, rolls_in, sent_of};

use crate::form::or_level;
use crate::sent::{all_sent, deepest};
use pauli::refusal::{Reason, Refusal};

// The most bytes of a line.
pub const LONGEST_LINE: usize = 256;

// How deep parentheses may go.
pub const DEEPEST_LINE: usize = 4;

// Whether the line is a tree's bytes.
fn is_well_formed(line: &[u8]) -> bool
    ensures { result ≡ is_some (tree_of line.now) }
{
    match or_level(line) {
        Some(rest) => rest.is_empty(),
        None => false,
    }
}

// Checks a line by its bytes, with the rolls A to D that may be named, of which those of no bytes were not sent.
pub fn check_line(line: &[u8], rolls: &[&[u8]; 4]) -> Result<(), Refusal>
    ensures { told_of result ≡ passed (line_told (sent_of (rolls_in rolls.now)) line.now) }
{
    if line.len() > LONGEST_LINE || !is_well_formed(line) || !all_sent(line, rolls) {
        return Err(Reason::Line.into());
    }
    if deepest(line) > DEEPEST_LINE {
        return Err(Reason::Depth.into());
    }
    Ok(())
}
