// The calls on a window. A window stands in an array that the caller keeps; only `make` and `send`, and the calls on its marks, make or
// change it.
ghost use Rattle.std.specs.Prelude.{◌≡◌, length};
ghost use Rattle.pauli_theory.specs.Group.{none};
ghost use Rattle.pauli_group.specs.CallContracts.{StandardCall, RankCall, PhasesCall, MemberCall};
ghost use Rattle.window.specs.CallContracts.{MakeCall, SendCall};
ghost use Rattle.window.specs.Layout.{roll_in};
ghost use Rattle.window.specs.MarkLayout.{behind, behind_made, behind_sent};

use crate::entering::enter;
use crate::layout::{
    FRONT_BYTES, HELD_AT, ROLL_AT, WIDEST, WIDTH_AT, WINDOW_BYTES, front_of, roll_in,
};
use crate::round::{next_round, put_round, round_in};
use pauli::refusal::{Reason, Refusal};
use pauli::roll::Roll;
use pauli::write::{put_u16, put_u32};
use pauli_group::answers::{Factors, Phases};
use pauli_group::promise::Promise;
use pauli_group::{calls, factorization};

// Makes a front of a width, with no check inside.
fn make_front(w: &mut [u8; FRONT_BYTES], width: usize) -> Result<(), Refusal>
    ensures call { MakeCall w.old width result w.new }
    ensures size { length w.new ≡ 66184 }
{
    if width < 1 || width > WIDEST {
        return Err(Reason::Width.into());
    }
    put_u16(w, WIDTH_AT, width);
    put_u16(w, ROLL_AT, 0);
    put_u32(w, 0, 2);
    Ok(())
}

// Makes a window of a width, with no check inside, at round 0 and with no mark.
pub fn make(w: &mut [u8; WINDOW_BYTES], width: usize) -> Result<(), Refusal>
    ensures call { MakeCall w.old width result w.new }
    ensures behind { behind w.new ≡ behind_made w.old width }
{
    make_front(front_of(w), width)?;
    put_round(w, 0);
    w[HELD_AT] = 0;
    Ok(())
}

// Sends the one check of a roll to a front.
fn send_front(w: &mut [u8; FRONT_BYTES], b: &[u8]) -> Result<(), Refusal>
    ensures call { SendCall w.old b.now result w.new }
    ensures size { length w.new ≡ 66184 }
{
    let check = Roll::read(b)?;
    if check.count != 1 {
        return Err(Reason::Checks.into());
    }
    enter(w, b)
}

// Sends the one check of a roll: where as many as the width are inside, the oldest leaves first. One that is accepted counts.
pub fn send(w: &mut [u8; WINDOW_BYTES], b: &[u8]) -> Result<(), Refusal>
    ensures call { SendCall w.old b.now result w.new }
    ensures behind { behind w.new ≡ behind_sent w.old b.now }
{
    send_front(front_of(w), b)?;
    put_round(w, next_round(round_in(w)));
    Ok(())
}

// Writes the standard generators of the checks inside as a roll.
pub fn standard_generators(
    w: &[u8; WINDOW_BYTES],
    work: &mut [u64],
    out: &mut [u8],
) -> Result<usize, Refusal>
    ensures { StandardCall (roll_in w.now) work.old out.old result work.new out.new }
{
    calls::standard_generators(roll_in(w), work, out)
}

// The rank of the checks inside.
pub fn rank(w: &[u8; WINDOW_BYTES], work: &mut [u64]) -> Result<usize, Refusal>
    ensures { RankCall (roll_in w.now) work.old result work.new }
{
    calls::rank(roll_in(w), work)
}

// The phases of the group of the checks inside.
pub fn phases(w: &[u8; WINDOW_BYTES], work: &mut [u64]) -> Result<Phases, Refusal>
    ensures { PhasesCall none (roll_in w.now) work.old result work.new }
{
    calls::phases(roll_in(w), Promise::None, work)
}

// Membership of an element in the group of the checks inside.
pub fn indexed_factorization_of(
    w: &[u8; WINDOW_BYTES],
    elements: &[u8],
    number: usize,
    work: &mut [u64],
    out: &mut [u8],
) -> Result<Option<Factors>, Refusal>
    ensures { MemberCall none (roll_in w.now) elements.now number work.old out.old result work.new out.new }
{
    factorization::indexed_factorization_of(roll_in(w), elements, number, Promise::None, work, out)
}
