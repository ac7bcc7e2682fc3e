// A roll without its first Paulis.
ghost use Rattle.std.specs.Prelude.{◌≡◌, ◌≤◌, drop, length};
ghost use Rattle.pauli.specs.Condense.{list_of};
ghost use Rattle.pauli.specs.Roll.{write};
ghost use Rattle.pauli.specs.Writing.{put_bytes};

use pauli::join::{copy_bodies, copy_entries};
use pauli::roll::Roll;
use pauli::write::put_u16;

// Writes the roll of the Paulis from number `from` on; tells its length.
pub(crate) fn write_later(roll: Roll, from: usize, out: &mut [u8]) -> usize
    requires { (from ≤ roll.count) × (length roll.bytes.now ≤ length out.old) }
    ensures left { out.new ≡ put_bytes out.old 0 (write (drop from (list_of roll.entry.bytes.now))) }
    ensures size { result ≡ length (write (drop from (list_of roll.entry.bytes.now))) }
{
    let count = roll.count - from;
    let table = 2 + 10 * count;
    put_u16(out, 0, count);
    let numbers = copy_entries(out, 2, roll, from, 0);
    copy_bodies(out, table, roll, roll.numbers() - numbers);
    table + 4 * numbers
}
