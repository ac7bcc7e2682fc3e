// The calls on a window of recent checks, which is an array that the caller keeps.
ghost use Rattle.std.specs.Prelude.{◌≡◌, length};
ghost use Rattle.pauli_theory.specs.Group.{none};
ghost use Rattle.pauli_group.specs.Calls.{one_list, standard_generators, rank_call, phases_call, question, factorization_call};
ghost use Rattle.window.specs.Layout.{front, roll_in, made, sent};
ghost use Rattle.window.specs.MarkLayout.{behind, behind_made, behind_sent, round_in, saved, returned, deleted};
ghost use Rattle.capi.specs.Code.{code_number, code_phases, code_values};
ghost use Rattle.capi.specs.CallContracts.{Changing, Marking, Telling, Listing, Factoring};

use crate::answer::{Answer, code_done, code_member, code_number, code_phases, code_values};
use window::calls::{indexed_factorization_of, make, phases, rank, send, standard_generators};
use window::layout::WINDOW_BYTES;
use window::marks::{delete, return_to, round, save};

#[unsafe(no_mangle)]
pub extern "C" fn howhiruke_window_make(window: &mut [u8; WINDOW_BYTES], width: usize) -> Answer
    ensures call { Changing (made (front window.old) width) window.old result window.new }
    ensures behind { behind window.new ≡ behind_made window.old width }
{
    let done = make(window, width);
    code_done(done)
}

#[unsafe(no_mangle)]
pub extern "C" fn howhiruke_window_send(window: &mut [u8; WINDOW_BYTES], roll: &[u8]) -> Answer
    ensures call { Changing (sent (front window.old) roll.now) window.old result window.new }
    ensures behind { behind window.new ≡ behind_sent window.old roll.now }
{
    let done = send(window, roll);
    code_done(done)
}

#[unsafe(no_mangle)]
pub extern "C" fn howhiruke_window_standard_generators(
    window: &[u8; WINDOW_BYTES],
    work: &mut [u64],
    out: &mut [u8],
) -> Answer
    ensures { Listing (standard_generators (roll_in window.now) (length work.old)) (one_list (roll_in window.now) (length work.old)) work.old out.old result work.new out.new }
{
    let wrote = standard_generators(window, work, out);
    code_number(wrote)
}

#[unsafe(no_mangle)]
pub extern "C" fn howhiruke_window_rank(window: &[u8; WINDOW_BYTES], work: &mut [u64]) -> Answer
    ensures { Telling (code_number (rank_call (roll_in window.now) (length work.old))) (one_list (roll_in window.now) (length work.old)) work.old result work.new }
{
    let found = rank(window, work);
    code_number(found)
}

#[unsafe(no_mangle)]
pub extern "C" fn howhiruke_window_phases(window: &[u8; WINDOW_BYTES], work: &mut [u64]) -> Answer
    ensures { Telling (code_phases (phases_call none (roll_in window.now) (length work.old))) (one_list (roll_in window.now) (length work.old)) work.old result work.new }
{
    let found = phases(window, work);
    code_phases(found)
}

#[unsafe(no_mangle)]
pub extern "C" fn howhiruke_window_indexed_factorization_of(
    window: &[u8; WINDOW_BYTES],
    elements: &[u8],
    number: usize,
    work: &mut [u64],
    out: &mut [u8],
) -> Answer
    ensures { Factoring (factorization_call none (roll_in window.now) elements.now number (length work.old)) (question (roll_in window.now) elements.now number (length work.old)) work.old out.old result work.new out.new }
{
    let found = indexed_factorization_of(window, elements, number, work, out);
    code_member(found)
}

// Saves the checks inside and the round under a name.
#[unsafe(no_mangle)]
pub extern "C" fn howhiruke_window_save(window: &mut [u8; WINDOW_BYTES], name: &[u8; 8]) -> Answer
    ensures { Marking (saved window.old name.now) window.old result window.new }
{
    let done = save(window, name);
    code_done(done)
}

#[unsafe(no_mangle)]
pub extern "C" fn howhiruke_window_return(window: &mut [u8; WINDOW_BYTES], name: &[u8; 8]) -> Answer
    ensures { Marking (returned window.old name.now) window.old result window.new }
{
    let done = return_to(window, name);
    code_done(done)
}

#[unsafe(no_mangle)]
pub extern "C" fn howhiruke_window_delete(window: &mut [u8; WINDOW_BYTES], name: &[u8; 8]) -> Answer
    ensures { Marking (deleted window.old name.now) window.old result window.new }
{
    let done = delete(window, name);
    code_done(done)
}

#[unsafe(no_mangle)]
pub extern "C" fn howhiruke_window_round(window: &[u8; WINDOW_BYTES]) -> Answer
    ensures { result ≡ code_values (round_in window.now) 0 0 }
{
    code_values(round(window) as usize, 0, 0)
}
