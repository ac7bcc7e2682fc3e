// The joined roll.
ghost use Rattle.std.specs.Prelude.{◌≡◌, ◌+◌, ◌-◌, ◌*◌, ◌<◌, ◌≤◌, ◌++◌, map, length, drop};
ghost use Rattle.pauli.specs.Roll.{numbers, by_value, table, bodies, write};
ghost use Rattle.pauli.specs.Condense.{list_of};
ghost use Rattle.pauli.specs.JoinContract.{JoinCall};
ghost use Rattle.pauli.specs.Writing.{put_bytes};

use crate::joined::{Pair, joined_bytes};
use crate::refusal::{Reason, Refusal};
use crate::roll::Roll;
use crate::write::{put_entry, put_slice, put_u16};

// Writes the entries of a roll's Paulis from number `from` on, from byte at on, where `before` qubit numbers stand in earlier bodies;
// tells how many stand before and in these bodies. By number: entry i of the roll is the next one there.
pub fn copy_entries(out: &mut [u8], at: usize, roll: Roll, from: usize, before: usize) -> usize
    requires { (from ≤ roll.count) × (at + 10 * (roll.count - from) ≤ length out.old) × (before ≤ 16777216) }
    ensures left { out.new ≡ put_bytes out.old at (table before (map by_value (drop from (list_of roll.entry.bytes.now)))) }
    ensures numbers { result ≡ before + length (numbers (drop from (list_of roll.entry.bytes.now))) }
{
    let mut start = before;
    let mut to = at;
    for i in from..roll.count {
        let e = roll.entry(i);
        put_entry(out, to, e.exponent, start as u32, e.xcount, e.zcount);
        start += e.xcount + e.zcount;
        to += 10;
    }
    start
}

// Writes the bodies of a roll, but for the first `past` of its qubit numbers, from byte at on.
pub fn copy_bodies(out: &mut [u8], at: usize, roll: Roll, past: usize)
    requires { (past ≤ length (numbers (list_of roll.bytes.now))) × (at + 4 * (length (numbers (list_of roll.bytes.now)) - past) ≤ length out.old) }
    ensures { out.new ≡ put_bytes out.old at (drop (4 * past) (bodies (list_of roll.entry.bytes.now))) }
{
    put_slice(out, at, roll.bodies(past));
}

// Writes the roll of two rolls joined.
fn put_joined(out: &mut [u8], left: Roll, right: Roll)
    requires { length (write (list_of left.bytes.now ++ list_of right.bytes.now)) ≤ length out.old }
    ensures { out.new ≡ put_bytes out.old 0 (write (list_of left.entry.bytes.now ++ list_of right.entry.bytes.now)) }
{
    let kl = left.numbers();
    let middle = 2 + 10 * left.count;
    let end = middle + 10 * right.count;
    put_u16(out, 0, left.count + right.count);
    copy_entries(out, 2, left, 0, 0);
    copy_entries(out, middle, right, 0, kl);
    copy_bodies(out, end, left, 0);
    copy_bodies(out, end + 4 * kl, right, 0);
}

// Writes the joined roll, if the output has room.
pub fn join(left: &[u8], right: &[u8], out: &mut [u8]) -> Result<usize, Refusal>
    ensures { JoinCall left.now right.now out.old result out.new }
{
    let pair = Pair::read(left, right)?;
    let size = joined_bytes(pair.left, pair.right);
    if out.len() < size {
        return Err(Reason::Output.into());
    }
    put_joined(out, pair.left, pair.right);
    Ok(size)
}
