// The lookups of a generator of a joined list.
ghost use Rattle.std.specs.Prelude.{◌≡◌, ◌+◌, ◌*◌, ◌<◌, slice_index_or};
ghost use Rattle.pauli.specs.Lookups.{looked_in};
ghost use Rattle.pauli.specs.Condense.{list_of, nothing};
ghost use Rattle.pauli.specs.JoinCalls.{looked_up, entry_of, stretch_in, stretch_of, body_in, body_of, bytes_past, address_of};
ghost use Rattle.pauli.specs.Refusals.{told_by};

use crate::joined::Pair;
use crate::refusal::{Reason, Refusal};
use crate::roll::Roll;

// The exponent value of a generator of a joined list, and the counts of its sets.
#[derive(Clone, Copy)]
pub struct JoinedEntry {
    pub exponent: u8,
    pub xcount: usize,
    pub zcount: usize,
}

// The exponent value and the counts of Pauli i of a roll.
fn looked_up(roll: Roll, i: usize) -> JoinedEntry
    requires { i < roll.count }
    ensures { looked_in result ≡ looked_up (slice_index_or (list_of roll.entry.bytes.now) i nothing) }
{
    let e = roll.entry(i);
    JoinedEntry {
        exponent: e.exponent % 4,
        xcount: e.xcount,
        zcount: e.zcount,
    }
}

// Generator n of the joined list: its exponent value and its counts. Which roll it is in is told by two comparisons, here, in
// joined_body and in capi: what each hands out differs in type.
pub fn joined_entry(left: &[u8], right: &[u8], n: usize) -> Result<JoinedEntry, Refusal>
    ensures { told_by looked_in result ≡ entry_of left.now right.now n }
{
    let pair = Pair::read(left, right)?;
    let l = pair.left;
    let r = pair.right;
    if n < l.count {
        return Ok(looked_up(l, n));
    }
    if n - l.count < r.count {
        return Ok(looked_up(r, n - l.count));
    }
    Err(Reason::Number.into())
}

// The body of Pauli i of a roll.
fn body_in<'a>(roll: Roll<'a>, i: usize) -> &'a [u8]
    requires { i < roll.count }
    ensures bytes { result.now ≡ body_in roll.entry.bytes.now i }
    ensures place { result.ref_ptr ≡ bytes_past (stretch_in 0 roll.entry.bytes.now i).start roll.entry.bytes.ref_ptr }
{
    let e = roll.entry(i);
    let start = 2 + 10 * roll.count + 4 * e.start;
    let end = start + 4 * (e.xcount + e.zcount);
    &roll.bytes[start..end]
}

// The body of generator n of the joined list, where it stands; empty at a refusal.
pub fn joined_body<'a>(left: &'a [u8], right: &'a [u8], n: usize) -> &'a [u8]
    ensures bytes { result.now ≡ body_of left.now right.now n }
    ensures place { result.ref_ptr ≡ address_of left.entry.ref_ptr right.entry.ref_ptr (stretch_of left.now right.now n) }
{
    let pair = match Pair::read(left, right) {
        Err(_) => {
            return &left[0..0];
        }
        Ok(pair) => pair,
    };
    let l = pair.left;
    let r = pair.right;
    if n < l.count {
        return body_in(l, n);
    }
    if n - l.count < r.count {
        return body_in(r, n - l.count);
    }
    &left[0..0]
}
