// Calls in, one line out for each, of a window's script one for each step: operations 0 to 30.
//
// A request is 28 bytes, little-endian, and two byte strings. Byte 0 is the operation, bytes 1 and 2 the promises, byte 3 the
// byte that fills the output and the work area before the call; from byte 4 on six numbers of four bytes: a, b, the bytes of
// output lent, the words of work area lent, and the lengths of the two strings.

#![tactic(auto)]

ghost use Rattle.std.specs.Prelude.{◌≤◌, IfOk, length};

use crate::request::{Operation, Request, strings_of};
use crate::runs::{MOST_NAMED, run};
use crate::script::run_script;
use pauli::bytes::u32_at;
use std::io;
use std::io::{Read, Write};

// The line of a request.
mod lines;
// What a request asks for.
mod request;
// What the calls tell.
mod tells;
// The calls.
mod runs;
// A window's script.
mod script;

const MOST_BYTES: usize = 262144;

const MOST_WORDS: usize = 40960;

const MOST_REQUESTS: u64 = 4294967295;

// Whether the promises and the fill are in range.
fn is_allowed(head: &[u8; 28]) -> bool {
    head[1] <= 2 && head[2] <= 2 && head[3] > 0
}

// Whether so many bytes are numbers of a named support, and not too many.
fn is_named(n: usize) -> bool {
    n % 4 == 0 && n <= 4 * MOST_NAMED
}

// Reads until the slice is full or the input ends, and tells how many bytes were read. Also in report: a library of twelve
// lines for two programs is no plainer.
fn read_full<R: Read>(from: &mut R, bytes: &mut [u8]) -> io::Result<usize>
    ensures { IfOk result (λ n. n ≤ length bytes.new) }
{
    let mut done = 0;
    while done < bytes.len() {
        let more = from.read(&mut bytes[done..])?;
        if more == 0 {
            break;
        }
        done += more;
    }
    Ok(done)
}

// Reads n bytes to the front of b, and tells whether they were there.
fn read_string<R: Read>(from: &mut R, b: &mut [u8], n: usize) -> io::Result<bool>
    requires { n ≤ length b.old }
{
    Ok(read_full(from, &mut b[..n])? == n)
}

// Where the strings of a request are read to, and what its call is lent.
#[derive(Drop)]
struct Buffers {
    first: [u8; MOST_BYTES],
    second: [u8; MOST_BYTES],
    out: [u8; MOST_BYTES],
    work: [u64; MOST_WORDS],
}

// Answers one request, and tells whether it was one.
fn answer<R: Read, W: Write>(
    from: &mut R,
    to: &mut W,
    head: &[u8; 28],
    buffers: &mut Buffers,
) -> io::Result<bool> {
    let lent = u32_at(head, 12) as usize;
    let words = u32_at(head, 16) as usize;
    let n = u32_at(head, 20) as usize;
    let m = u32_at(head, 24) as usize;
    if !is_allowed(head) || words > MOST_WORDS || lent.max(n).max(m) > MOST_BYTES {
        return Ok(false);
    }
    if !read_string(from, &mut buffers.first, n)? || !read_string(from, &mut buffers.second, m)? {
        return Ok(false);
    }
    let Ok(operation) = Operation::try_from(head[0]) else {
        return Ok(false);
    };
    if matches!(operation, Operation::Within) && !is_named(m) {
        return Ok(false);
    }
    let second = &buffers.second[..m];
    let Some(strings) = strings_of(operation, second) else {
        return Ok(false);
    };
    let request = Request::new(head, &buffers.first[..n], second, strings);
    let work = &mut buffers.work[..];
    let out = &mut buffers.out[..];
    if matches!(operation, Operation::Script) {
        return run_script(to, request, &mut work[..words], &mut out[..lent]);
    }
    run(to, operation, request, &mut work[..words], &mut out[..lent])?;
    Ok(true)
}

fn main(rt: HostRuntime) -> io::Result<()> {
    let mut from = rt.reader();
    let mut to = io::writer(&rt);
    let mut head = [0u8; 28];
    let mut buffers = Buffers {
        first: [0; MOST_BYTES],
        second: [0; MOST_BYTES],
        out: [0; MOST_BYTES],
        work: [0; MOST_WORDS],
    };
    for _ in 0..MOST_REQUESTS {
        let got = read_full(&mut from, &mut head)?;
        if got == 0 {
            break;
        }
        if got < 28 || !answer(&mut from, &mut to, &head, &mut buffers)? {
            writeln!(to, "bad request")?;
            break;
        }
    }
    Ok(())
}
