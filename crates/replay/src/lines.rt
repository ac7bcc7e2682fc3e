// The line of a request: what was told, the output and the work area.
ghost use Rattle.std.specs.Prelude.{◌≤◌, length};

use pauli::refusal::Refusal;
use std::io;
use std::io::Write;

// The bytes in hexadecimal, or `-`.
pub(crate) fn print_bytes<W: Write>(to: &mut W, b: &[u8]) -> io::Result<()> {
    if b.is_empty() {
        return write!(to, "-");
    }
    for x in b {
        write!(to, "{x:02x}")?;
    }
    Ok(())
}

// The n bytes written, and the state of the others.
fn print_output<W: Write>(to: &mut W, out: &[u8], n: usize, f: u8) -> io::Result<()> {
    let end = n.min(out.len());
    write!(to, "; out ")?;
    print_bytes(to, &out[..end])?;
    if out[end..].iter().all(|x| *x == f) {
        write!(to, " kept; work ")
    } else {
        write!(to, " changed; work ")
    }
}

// The rest of a line with `work none`: of a call that takes no work area, or of the closing report.
pub(crate) fn end_line<W: Write>(to: &mut W, out: &[u8], n: usize, f: u8) -> io::Result<()> {
    print_output(to, out, n, f)?;
    writeln!(to, "none")
}

// Whether all words have this value.
fn are_words(words: &[u64], value: u64) -> bool {
    words.iter().all(|word| *word == value)
}

// The state of a work area of which a call uses so many words: as it was, these words zero, or anything else.
fn print_work<W: Write>(to: &mut W, work: &[u64], used: usize, f: u8) -> io::Result<()> {
    let word = u64::from_le_bytes([f; 8]);
    if are_words(work, word) {
        return writeln!(to, "untouched");
    }
    if work.len() >= used && are_words(&work[..used], 0) && are_words(&work[used..], word) {
        return writeln!(to, "zeroed");
    }
    writeln!(to, "mixed")
}

// The rest of a line that tells what became of the work area.
pub(crate) fn end_work_line<W: Write>(
    to: &mut W,
    out: &[u8],
    n: usize,
    work: &[u64],
    used: usize,
    f: u8,
) -> io::Result<()> {
    print_output(to, out, n, f)?;
    print_work(to, work, used, f)
}

// What a call that writes a roll tells, and how many bytes it wrote.
pub(crate) fn print_wrote<W: Write>(
    to: &mut W,
    wrote: Result<usize, Refusal>,
) -> io::Result<usize> {
    match wrote {
        Ok(n) => {
            write!(to, "wrote {n}")?;
            Ok(n)
        }
        Err(refusal) => {
            write!(to, "{refusal}")?;
            Ok(0)
        }
    }
}
