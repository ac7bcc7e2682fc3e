// The report program: an input of the closing listing in, its text out.

#![tactic(auto)]

ghost use Rattle.std.specs.Prelude.{◌≡◌, ◌≤◌, ◌<◌, length, take, IfOk};
ghost use Rattle.closing_report.specs.InputRolls.{most_input};
ghost use Rattle.closing_report.specs.Listing.{text_of};

use closing_report::input::MOST_INPUT;
use closing_report::report::{MOST_TEXT, closing_report};
use pauli_group::area::WORK_WORDS;
use std::io;
use std::io::Read;

// Reads until the slice is full or the input ends, and tells how many bytes were read. Also in replay: a library of twelve
// lines for two programs is no plainer.
fn read_full<R: Read>(from: &mut R, bytes: &mut [u8]) -> io::Result<usize>
    ensures { IfOk result (λ n. n ≤ length bytes.new) }
{
    let mut done = 0;
    while done < bytes.len() {
        let more = from.read(&mut bytes[done..])?;
        if more == 0 {
            break;
        }
        done += more;
    }
    Ok(done)
}

// Reads the input into a buffer that has room for one byte more than an input may have, so that a longer input is told from the
// longest one.
fn read_input<R: Read>(from: &mut R, input: &mut [u8; MOST_INPUT + 1]) -> io::Result<usize>
    ensures within { IfOk result (λ n. n ≤ length input.new) }
    ensures longer { most_input < length input.new }
{
    read_full(from, input)
}

// Puts the text of the first n bytes at the front of the output, and tells its length. With so much room no call is refused.
fn text_of(
    input: &[u8; MOST_INPUT + 1],
    n: usize,
    work: &mut [u64; WORK_WORDS],
    out: &mut [u8; MOST_TEXT],
) -> usize
    requires { n ≤ length input.now }
    ensures text { take result out.new ≡ text_of (take n input.now) }
    ensures room { result ≤ length out.new }
{
    let bytes: &[u8] = input;
    closing_report(&bytes[..n], work, out).unwrap_or(0)
}

fn main(rt: HostRuntime) -> io::Result<()> {
    let mut input = [0u8; MOST_INPUT + 1];
    let mut work = [0u64; WORK_WORDS];
    let mut out = [0u8; MOST_TEXT];
    let Ok(n) = read_input(&mut rt.reader(), &mut input) else {
        return eprintln!(rt; "report: the input could not be read");
    };
    let size = text_of(&input, n, &mut work, &mut out);
    if rt.write_all(&out[..size]).is_err() {
        return eprintln!(rt; "report: the output could not be written");
    }
    Ok(())
}
