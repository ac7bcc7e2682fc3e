// The round of a window: how many checks it has accepted.
ghost use Rattle.std.specs.Prelude.{◌≡◌};
ghost use Rattle.window.specs.MarkLayout.{next_round, round_in, with_round};

use crate::layout::{HELD_AT, ROUND_AT, ROUND_BYTES, WINDOW_BYTES};

// The round.
pub(crate) fn round_in(w: &[u8; WINDOW_BYTES]) -> u64
    ensures { result ≡ round_in w.now }
{
    let mut bytes = [0u8; ROUND_BYTES];
    bytes.copy_from_slice(&w[ROUND_AT..HELD_AT]);
    u64::from_le_bytes(bytes)
}

// Writes the round.
pub(crate) fn put_round(w: &mut [u8; WINDOW_BYTES], round: u64)
    ensures { w.new ≡ with_round w.old round }
{
    w[ROUND_AT..HELD_AT].copy_from_slice(&round.to_le_bytes());
}

// The round after a round: it stays at the largest.
pub(crate) fn next_round(round: u64) -> u64
    ensures { result ≡ next_round round }
{
    round.saturating_add(1)
}
