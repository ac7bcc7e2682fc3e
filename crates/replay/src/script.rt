// A window's script: its steps, and the line of each.
ghost use Rattle.std.specs.Prelude.{◌<◌, IfSome, length};

use crate::lines::{end_line, end_work_line, print_wrote};
use crate::request::{Request, string_at};
use crate::tells::{print_done, print_member, print_number, print_phases};
use pauli_group::area::WORK_WORDS;
use std::io;
use std::io::Write;
use window::calls::{indexed_factorization_of, make, phases, rank, send, standard_generators};
use window::layout::WINDOW_BYTES;
use window::marks::{delete, return_to, round, save};

// A step, with what it takes.
#[derive(Clone, Copy)]
enum Step<'a> {
    Send(&'a [u8]),
    Generators,
    Rank,
    Phases,
    Member(u32, &'a [u8]),
    Save(&'a [u8; 8]),
    Return(&'a [u8; 8]),
    Delete(&'a [u8; 8]),
    Round,
}

// The step at the front of a script, and what follows it.
fn step_at(b: &[u8]) -> Option<(Step<'_>, &[u8])>
    ensures { IfSome result (λ parts. length parts.1.now < length b.now) }
{
    let (kind, rest) = b.split_first()?;
    match *kind {
        1 => {
            let (roll, rest) = string_at(rest)?;
            Some((Step::Send(roll), rest))
        }
        2 => Some((Step::Generators, rest)),
        3 => Some((Step::Rank, rest)),
        4 => Some((Step::Phases, rest)),
        5 => {
            let (number, rest) = rest.split_first_chunk::<4>()?;
            let (elements, rest) = string_at(rest)?;
            Some((Step::Member(u32::from_le_bytes(*number), elements), rest))
        }
        6 => {
            let (name, rest) = rest.split_first_chunk::<8>()?;
            Some((Step::Save(name), rest))
        }
        7 => {
            let (name, rest) = rest.split_first_chunk::<8>()?;
            Some((Step::Return(name), rest))
        }
        8 => {
            let (name, rest) = rest.split_first_chunk::<8>()?;
            Some((Step::Delete(name), rest))
        }
        9 => Some((Step::Round, rest)),
        _ => None,
    }
}

// Makes the call of a step, and prints its line.
fn run_step<W: Write>(
    to: &mut W,
    step: Step,
    window: &mut [u8; WINDOW_BYTES],
    work: &mut [u64],
    out: &mut [u8],
    fill: u8,
) -> io::Result<()> {
    let n = match step {
        Step::Send(roll) => {
            print_done(to, "sent", send(window, roll))?;
            return end_line(to, out, 0, fill);
        }
        Step::Save(name) => {
            print_done(to, "saved", save(window, name))?;
            return end_line(to, out, 0, fill);
        }
        Step::Return(name) => {
            print_done(to, "returned", return_to(window, name))?;
            return end_line(to, out, 0, fill);
        }
        Step::Delete(name) => {
            print_done(to, "deleted", delete(window, name))?;
            return end_line(to, out, 0, fill);
        }
        Step::Round => {
            write!(to, "round {}", round(window))?;
            return end_line(to, out, 0, fill);
        }
        Step::Generators => print_wrote(to, standard_generators(window, work, out))?,
        Step::Rank => {
            print_number(to, "rank", rank(window, work))?;
            0
        }
        Step::Phases => {
            print_phases(to, phases(window, work))?;
            0
        }
        Step::Member(number, elements) => {
            let number = number as usize;
            print_member(
                to,
                indexed_factorization_of(window, elements, number, work, out),
            )?
        }
    };
    end_work_line(to, out, n, work, WORK_WORDS, fill)
}

// Fills what a step is lent.
fn fill_lent(fill: u8, work: &mut [u64], out: &mut [u8]) {
    work.fill(u64::from_le_bytes([fill; 8]));
    out.fill(fill);
}

// Takes the steps of a script one after the other; tells whether all were steps.
fn run_steps<W: Write>(
    to: &mut W,
    script: &[u8],
    window: &mut [u8; WINDOW_BYTES],
    work: &mut [u64],
    out: &mut [u8],
    fill: u8,
) -> io::Result<bool> {
    let mut rest = script;
    while !rest.is_empty() {
        let Some((step, more)) = step_at(rest) else {
            return Ok(false);
        };
        fill_lent(fill, work, out);
        run_step(to, step, window, work, out, fill)?;
        rest = more;
    }
    Ok(true)
}

// Makes a window in bytes that are filled, prints the line of that, and takes the steps of the script; tells whether all were steps.
pub(crate) fn run_script<W: Write>(
    to: &mut W,
    request: Request,
    work: &mut [u64],
    out: &mut [u8],
) -> io::Result<bool> {
    let fill = request.fill;
    let mut window = [fill; WINDOW_BYTES];
    fill_lent(fill, work, out);
    let made = make(&mut window, request.a as usize);
    let is_made = made.is_ok();
    print_done(to, "made", made)?;
    end_line(to, out, 0, fill)?;
    if !is_made {
        return Ok(true);
    }
    run_steps(to, request.first, &mut window, work, out, fill)
}
