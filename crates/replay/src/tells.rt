// What the calls tell, in words.
use crate::lines::print_bytes;
use closing_report::lines::phases_word;
use factorizations::answers::Results;
use pauli::lookup::JoinedEntry;
use pauli::product::Multiplied;
use pauli::refusal::Refusal;
use pauli_group::answers::{Factors, Phases};
use sizes::answers::JoinedSizes;
use std::cmp::Ordering;
use std::io;
use std::io::Write;

// A word and a number, or the refusal.
pub(crate) fn print_number<W: Write>(
    to: &mut W,
    word: &str,
    told: Result<usize, Refusal>,
) -> io::Result<()> {
    match told {
        Ok(n) => write!(to, "{word} {n}"),
        Err(refusal) => write!(to, "{refusal}"),
    }
}

pub(crate) fn print_phases<W: Write>(to: &mut W, found: Result<Phases, Refusal>) -> io::Result<()> {
    match found {
        Ok(phases) => {
            write!(to, "phases ")?;
            to.write_all(phases_word(phases))
        }
        Err(refusal) => write!(to, "{refusal}"),
    }
}

pub(crate) fn print_decided<W: Write>(
    to: &mut W,
    word: &str,
    decided: Result<bool, Refusal>,
) -> io::Result<()> {
    match decided {
        Ok(true) => write!(to, "{word} yes"),
        Ok(false) => write!(to, "{word} no"),
        Err(refusal) => write!(to, "{refusal}"),
    }
}

// A word, or the refusal.
pub(crate) fn print_done<W: Write>(
    to: &mut W,
    word: &str,
    done: Result<(), Refusal>,
) -> io::Result<()> {
    match done {
        Ok(()) => write!(to, "{word}"),
        Err(refusal) => write!(to, "{refusal}"),
    }
}

pub(crate) fn print_accepted<W: Write>(
    to: &mut W,
    accepted: Result<bool, Refusal>,
) -> io::Result<()> {
    match accepted {
        Ok(true) => write!(to, "accepted"),
        Ok(false) => write!(to, "not accepted"),
        Err(refusal) => write!(to, "{refusal}"),
    }
}

pub(crate) fn print_body<W: Write>(to: &mut W, body: &[u8]) -> io::Result<()> {
    write!(to, "body ")?;
    print_bytes(to, body)
}

pub(crate) fn print_entry<W: Write>(
    to: &mut W,
    found: Result<JoinedEntry, Refusal>,
) -> io::Result<()> {
    match found {
        Ok(e) => write!(to, "entry {} {} {}", e.exponent, e.xcount, e.zcount),
        Err(refusal) => write!(to, "{refusal}"),
    }
}

// What a product tells, and how many bytes it wrote.
pub(crate) fn print_multiplied<W: Write>(
    to: &mut W,
    made: Result<Multiplied, Refusal>,
) -> io::Result<usize> {
    match made {
        Ok(m) => {
            let word = if m.anticommute {
                "anticommute"
            } else {
                "commute"
            };
            write!(to, "wrote {} {word}", m.bytes)?;
            Ok(m.bytes)
        }
        Err(refusal) => {
            write!(to, "{refusal}")?;
            Ok(0)
        }
    }
}

pub(crate) fn print_sizes<W: Write>(
    to: &mut W,
    found: Result<JoinedSizes, Refusal>,
) -> io::Result<()> {
    match found {
        Ok(s) => write!(to, "joined {} {} {}", s.bytes, s.count, s.qubits),
        Err(refusal) => write!(to, "{refusal}"),
    }
}

// What membership tells, and how many bytes it wrote: two for each index.
pub(crate) fn print_member<W: Write>(
    to: &mut W,
    found: Result<Option<Factors>, Refusal>,
) -> io::Result<usize> {
    match found {
        Ok(Some(factors)) => {
            write!(to, "member {} phase {}", factors.count, factors.exponent)?;
            Ok(factors.count.saturating_mul(2))
        }
        Ok(None) => {
            write!(to, "not member")?;
            Ok(0)
        }
        Err(refusal) => {
            write!(to, "{refusal}")?;
            Ok(0)
        }
    }
}

// How many results there are, and how many bytes they take.
pub(crate) fn print_results<W: Write>(
    to: &mut W,
    found: Result<Results, Refusal>,
) -> io::Result<usize> {
    match found {
        Ok(results) => {
            write!(to, "results {} wrote {}", results.count, results.bytes)?;
            Ok(results.bytes)
        }
        Err(refusal) => {
            write!(to, "{refusal}")?;
            Ok(0)
        }
    }
}

pub(crate) fn print_compared<W: Write>(
    to: &mut W,
    found: Result<Option<Ordering>, Refusal>,
) -> io::Result<()> {
    match found {
        Ok(Some(Ordering::Equal)) => write!(to, "equal"),
        Ok(Some(Ordering::Less)) => write!(to, "less"),
        Ok(Some(Ordering::Greater)) => write!(to, "greater"),
        Ok(None) => write!(to, "no order"),
        Err(refusal) => write!(to, "{refusal}"),
    }
}
