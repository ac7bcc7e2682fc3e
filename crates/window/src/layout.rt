// The bytes of a window. Its front: the length of the roll of the checks inside, oldest first, in 4 bytes; room for that roll; the width
// in 2 bytes. Behind it: the round in 8 bytes; how many marks are held in 1; eight marks, each a name of 8 bytes, then the length and
// the room of the front, then the round as they were saved.
ghost use Rattle.std.specs.Prelude.{◌≡◌, ◌≤◌, length};
ghost use Rattle.pauli.specs.JoinCalls.{join_of};
ghost use Rattle.pauli.specs.Refusals.{told_of};
ghost use Rattle.pauli.specs.Told.{map_told};
ghost use Rattle.window.specs.History.{or_same};
ghost use Rattle.std.specs.Borrow.{sem};
ghost use Rattle.window.specs.Layout.{room_bytes, window_bytes, front, roll_in, width_in, holding};
ghost use Rattle.window.specs.Inner.{HasRoom, LendsFront};

use pauli::bytes::{u16_at, u32_at};
use pauli::join::join;
use pauli::refusal::Refusal;
use pauli::write::put_u32;

// The widest window.
pub const WIDEST: usize = 64;
// The longest roll of a window: 2 bytes, and 10 + 4 * 256 for each of 64 checks.
pub(crate) const ROOM_BYTES: usize = 66178;
// The bytes of a window.
pub const WINDOW_BYTES: usize = 595777;
// The bytes of its front.
pub(crate) const FRONT_BYTES: usize = 66184;
// Where the roll stands.
pub(crate) const ROLL_AT: usize = 4;
// Where the width stands.
pub(crate) const WIDTH_AT: usize = 66182;
// Where the round stands.
pub(crate) const ROUND_AT: usize = 66184;
// The bytes of the round.
pub(crate) const ROUND_BYTES: usize = 8;
// Where it stands how many marks are held.
pub(crate) const HELD_AT: usize = 66192;
// Where the marks stand.
pub(crate) const MARKS_AT: usize = 66193;
// The bytes of a name.
pub const NAME_BYTES: usize = 8;
// The bytes of a mark: its name, then what is kept under it.
pub(crate) const MARK_BYTES: usize = 66198;
// The most marks.
pub const MOST_MARKS: usize = 8;

// The front of a window.
pub(crate) fn front_of(w: &mut [u8]) -> &mut [u8; FRONT_BYTES]
    requires { window_bytes ≤ length w.old }
    ensures* writes_back { sem 𝓛 (LendsFront w.entry result) }
    ensures value { result.now ≡ front w.old }
{
    w.first_chunk_mut::<FRONT_BYTES>().unwrap()
}

// The roll in a window.
pub(crate) fn roll_in(w: &[u8]) -> &[u8]
    requires { window_bytes ≤ length w.now }
    ensures { (result.now ≡ roll_in w.now) × (length result.now ≤ room_bytes) }
{
    let size = (u32_at(w, 0) as usize).min(ROOM_BYTES);
    &w[ROLL_AT..ROLL_AT + size]
}

// The width of a window.
pub(crate) fn width_in(w: &[u8; FRONT_BYTES]) -> usize
    ensures { (result ≡ width_in w.now) × (1 ≤ result) × (result ≤ 64) }
{
    u16_at(w, WIDTH_AT).min(WIDEST).max(1)
}

// Puts the roll of two joined into a window, with its length.
pub(crate) fn put_joined(
    w: &mut [u8; FRONT_BYTES],
    left: &[u8],
    right: &[u8],
) -> Result<(), Refusal>
    requires { HasRoom (join_of left.now right.now) }
    ensures told { told_of result ≡ map_told (λ roll. tt) (join_of left.now right.now) }
    ensures left { w.new ≡ or_same w.old (map_told (holding w.old) (join_of left.now right.now)) }
{
    let size = join(left, right, &mut w[ROLL_AT..WIDTH_AT])?;
    put_u32(w, 0, size as u32);
    Ok(())
}
