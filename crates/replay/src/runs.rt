// The calls, and what each tells.
use crate::lines::{end_line, end_work_line, print_wrote};
use crate::request::{Asked, MOST_INDEXES, OnRolls, Operation, Request, Written};
use crate::tells::{
    print_accepted, print_body, print_compared, print_decided, print_entry, print_member,
    print_multiplied, print_number, print_phases, print_results, print_sizes,
};
use centralizer::calls::{centralizer_of, centralizer_within};
use claims::absence::accepts_absence;
use claims::membership::accepts_membership;
use closing_report::report::closing_report;
use combined_lists::combine::{LINE_WORDS, combine};
use factorizations::calls::indexed_factorizations_of;
use pauli::join::join;
use pauli::lookup::{joined_body, joined_entry};
use pauli::one_qubit::one_qubit_product;
use pauli::product::product;
use pauli::roll::check_roll;
use pauli_group::area::WORK_WORDS;
use pauli_group::calls::{
    is_abelian, is_stabilizer_group, log2_size, phases, rank, standard_generators,
};
use pauli_group::common::bitand;
use pauli_group::factorization::indexed_factorization_of;
use pauli_group::listing::elements;
use pauli_group::modulo::modulo;
use pauli_group::order::partial_cmp;
use pauli_group::quotient::try_quotient;
use pauli_group::symplectic::symplectic_form_of;
use sizes::bound::standard_bound;
use sizes::joined::joined_sizes;
use sizes::page::page_size;
use std::io;
use std::io::Write;

// A call that takes no work area, and how many bytes it wrote.
fn run_rolls<W: Write>(
    to: &mut W,
    call: OnRolls,
    request: Request,
    out: &mut [u8],
) -> io::Result<usize> {
    let (first, second) = (request.first, request.second);
    let (a, b) = (request.a as usize, request.b as usize);
    match call {
        OnRolls::Product => {
            let wrote = product(first, a, second, b, out).map(|m| m.bytes);
            return print_wrote(to, wrote);
        }
        OnRolls::Multiply => return print_multiplied(to, product(first, a, second, b, out)),
        OnRolls::Join => return print_wrote(to, join(first, second, out)),
        OnRolls::Check => print_number(to, "count", check_roll(first))?,
        OnRolls::Body => print_body(to, joined_body(first, second, a))?,
        OnRolls::Entry => print_entry(to, joined_entry(first, second, a))?,
        OnRolls::Sizes => print_sizes(to, joined_sizes(first, second))?,
        OnRolls::Bound => print_number(to, "bound", standard_bound(first))?,
        OnRolls::OneQubit => print_number(to, "product", one_qubit_product(a, b))?,
        OnRolls::Absence => {
            let [elements, witnesses, _, _] = request.strings.each;
            print_accepted(to, accepts_absence(first, elements, a, witnesses, b))?
        }
    }
    Ok(0)
}

// A call that writes nothing.
fn run_asked<W: Write>(
    to: &mut W,
    call: Asked,
    request: Request,
    work: &mut [u64],
) -> io::Result<()> {
    let (first, second) = (request.first, request.second);
    let promises = request.promises;
    let promise = promises.left;
    match call {
        Asked::Rank => print_number(to, "rank", rank(first, work)),
        Asked::Phases => print_phases(to, phases(first, promise, work)),
        Asked::Abelian => print_decided(to, "abelian", is_abelian(first, promise, work)),
        Asked::Stabilizer => {
            print_decided(to, "stabilizer", is_stabilizer_group(first, promise, work))
        }
        Asked::Log2Size => print_number(to, "log2", log2_size(first, promise, work)),
        Asked::Order => print_compared(to, partial_cmp(first, second, promises, work)),
        Asked::Page => {
            let page = page_size(first, promise, request.a, request.b, work);
            print_number(to, "page", page)
        }
    }
}

// A call that writes a roll, and how many bytes it wrote.
fn run_written<W: Write>(
    to: &mut W,
    call: Written,
    request: Request,
    work: &mut [u64],
    out: &mut [u8],
) -> io::Result<usize> {
    let (first, second) = (request.first, request.second);
    let promises = request.promises;
    let wrote = match call {
        Written::Generators => standard_generators(first, work, out),
        Written::Elements => elements(first, promises.left, request.a, request.b, work, out),
        Written::Symplectic => symplectic_form_of(first, work, out),
        Written::Modulo => modulo(first, second, promises, work, out),
        Written::Quotient => try_quotient(first, second, promises, work, out),
        Written::Common => bitand(first, second, promises, work, out),
        Written::Centralizer => centralizer_of(first, work, out),
    };
    print_wrote(to, wrote)
}

// Membership, and how many bytes it wrote.
fn run_member<W: Write>(
    to: &mut W,
    request: Request,
    work: &mut [u64],
    out: &mut [u8],
) -> io::Result<usize> {
    let (first, second) = (request.first, request.second);
    let promise = request.promises.left;
    let i = request.a as usize;
    print_member(
        to,
        indexed_factorization_of(first, second, i, promise, work, out),
    )
}

// Membership of every element, and how many bytes it wrote.
fn run_members<W: Write>(
    to: &mut W,
    request: Request,
    work: &mut [u64],
    out: &mut [u8],
) -> io::Result<usize> {
    let (first, second) = (request.first, request.second);
    let promise = request.promises.left;
    print_results(
        to,
        indexed_factorizations_of(first, second, promise, work, out),
    )
}

// The most numbers of a named support that are read.
pub(crate) const MOST_NAMED: usize = 1024;

// The centralizer on the support that the second string names, four bytes a number, and how many bytes it wrote.
fn run_within<W: Write>(
    to: &mut W,
    request: Request,
    work: &mut [u64],
    out: &mut [u8],
) -> io::Result<usize> {
    let mut named = [0; MOST_NAMED];
    let (numbers, _) = request.second.as_chunks::<4>();
    let count = numbers.len().min(MOST_NAMED);
    for (i, bytes) in numbers[..count].iter().enumerate() {
        named[i] = u32::from_le_bytes(*bytes);
    }
    print_wrote(
        to,
        centralizer_within(request.first, &named[..count], work, out),
    )
}

// A line, and how many bytes it wrote.
fn run_line<W: Write>(
    to: &mut W,
    request: Request,
    work: &mut [u64],
    out: &mut [u8],
) -> io::Result<usize> {
    print_wrote(to, combine(request.first, &request.strings.each, work, out))
}

// A claim of membership, whose indexes are two bytes each.
fn run_claim<W: Write>(to: &mut W, request: Request, work: &mut [u64]) -> io::Result<()> {
    let [elements, bytes, _, _] = request.strings.each;
    let mut indexes = [0; MOST_INDEXES];
    let (numbers, _) = bytes.as_chunks::<2>();
    let count = numbers.len().min(MOST_INDEXES);
    for (i, pair) in numbers[..count].iter().enumerate() {
        indexes[i] = u16::from_le_bytes(*pair);
    }
    let accepted = accepts_membership(
        request.first,
        elements,
        request.a as usize,
        &indexes[..count],
        request.b,
        request.promises.left,
        work,
    );
    print_accepted(to, accepted)
}

// How many words of the work area the call uses.
fn used_by(operation: Operation) -> usize {
    match operation {
        Operation::Line => LINE_WORDS,
        _ => WORK_WORDS,
    }
}

// Fills what the call is lent, makes the call, and prints its line.
pub(crate) fn run<W: Write>(
    to: &mut W,
    operation: Operation,
    request: Request,
    work: &mut [u64],
    out: &mut [u8],
) -> io::Result<()> {
    let fill = request.fill;
    work.fill(u64::from_le_bytes([fill; 8]));
    out.fill(fill);
    let n = match operation {
        Operation::Script => 0,
        Operation::OnRolls(call) => {
            let n = run_rolls(to, call, request, out)?;
            return end_line(to, out, n, fill);
        }
        Operation::Report => {
            let n = print_wrote(to, closing_report(request.first, work, out))?;
            return end_line(to, out, n, fill);
        }
        Operation::Asked(call) => {
            run_asked(to, call, request, work)?;
            0
        }
        Operation::Written(call) => run_written(to, call, request, work, out)?,
        Operation::Member => run_member(to, request, work, out)?,
        Operation::Members => run_members(to, request, work, out)?,
        Operation::Within => run_within(to, request, work, out)?,
        Operation::Line => run_line(to, request, work, out)?,
        Operation::Claim => {
            run_claim(to, request, work)?;
            0
        }
    };
    end_work_line(to, out, n, work, used_by(operation), fill)
}
