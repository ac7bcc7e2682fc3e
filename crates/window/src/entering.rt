// A check that enters a window.
ghost use Rattle.std.specs.Prelude.{◌≡◌, ◌+◌, ◌-◌, ◌≤◌};
ghost use Rattle.pauli.specs.Refusals.{told_of};
ghost use Rattle.pauli.specs.Roll.{count_of};
ghost use Rattle.pauli.specs.Told.{answer, map_told};
ghost use Rattle.window.specs.History.{or_same};
ghost use Rattle.window.specs.Layout.{sent};

use crate::later::write_later;
use crate::layout::{FRONT_BYTES, ROOM_BYTES, put_joined, roll_in, width_in};
use pauli::refusal::Refusal;
use pauli::roll::Roll;

// How many of the checks inside leave, the oldest first, when another enters.
pub(crate) fn leaving(inside: usize, width: usize) -> usize
    requires { inside ≤ 128 }
    ensures { result ≡ inside + 1 - width }
{
    (inside + 1).saturating_sub(width)
}

// Lets the one check of an accepted roll enter.
pub(crate) fn enter(w: &mut [u8; FRONT_BYTES], b: &[u8]) -> Result<(), Refusal>
    requires { count_of b.now ≡ answer 1 }
    ensures told { told_of result ≡ map_told (λ bytes. tt) (sent w.old b.now) }
    ensures left { w.new ≡ or_same w.old (sent w.old b.now) }
{
    let width = width_in(w);
    let inside = Roll::read(roll_in(w))?;
    let mut staying = [0u8; ROOM_BYTES];
    let size = write_later(inside, leaving(inside.count, width), &mut staying);
    put_joined(w, &staying[..size], b)
}
