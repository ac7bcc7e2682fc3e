// A request: which call it asks for, and what it gives the call.
ghost use Rattle.std.specs.Prelude.{◌<◌, IfSome, length};

use pauli::bytes::u32_at;
use pauli_group::promise::{Promise, Promises};

// A call that takes no work area.
#[derive(Clone, Copy)]
pub(crate) enum OnRolls {
    Check,
    Product,
    // the same call, whose whole answer is printed
    Multiply,
    Sizes,
    Bound,
    OneQubit,
    // a claim of absence
    Absence,
    Join,
    Body,
    Entry,
}

// A call that takes a work area and writes nothing.
#[derive(Clone, Copy)]
pub(crate) enum Asked {
    Rank,
    Phases,
    Abelian,
    Stabilizer,
    Log2Size,
    Order,
    Page,
}

// A call that takes a work area and writes a roll.
#[derive(Clone, Copy)]
pub(crate) enum Written {
    Generators,
    Elements,
    Symplectic,
    Modulo,
    Quotient,
    Common,
    Centralizer,
}

#[derive(Clone, Copy)]
pub(crate) enum Operation {
    OnRolls(OnRolls),
    Asked(Asked),
    Written(Written),
    Member,
    Report,
    Members,
    // the centralizer on a named support
    Within,
    // a line that combines lists
    Line,
    // a claim of membership
    Claim,
    // a window's script
    Script,
}

// No operation has the number.
#[derive(Drop)]
pub(crate) struct Unknown;

impl TryFrom<u8> for Operation {
    type Error = Unknown;

    fn try_from(number: u8) -> Result<Self, Unknown> {
        match number {
            0 => Ok(Operation::OnRolls(OnRolls::Check)),
            1 => Ok(Operation::Written(Written::Generators)),
            2 => Ok(Operation::Asked(Asked::Rank)),
            3 => Ok(Operation::Asked(Asked::Phases)),
            4 => Ok(Operation::Asked(Asked::Abelian)),
            5 => Ok(Operation::Asked(Asked::Stabilizer)),
            6 => Ok(Operation::Asked(Asked::Log2Size)),
            7 => Ok(Operation::Member),
            8 => Ok(Operation::Written(Written::Elements)),
            9 => Ok(Operation::Written(Written::Symplectic)),
            10 => Ok(Operation::OnRolls(OnRolls::Product)),
            11 => Ok(Operation::OnRolls(OnRolls::Join)),
            12 => Ok(Operation::OnRolls(OnRolls::Body)),
            13 => Ok(Operation::OnRolls(OnRolls::Entry)),
            14 => Ok(Operation::Asked(Asked::Order)),
            15 => Ok(Operation::Written(Written::Modulo)),
            16 => Ok(Operation::Written(Written::Quotient)),
            17 => Ok(Operation::Written(Written::Common)),
            18 => Ok(Operation::Report),
            19 => Ok(Operation::Members),
            20 => Ok(Operation::OnRolls(OnRolls::Multiply)),
            21 => Ok(Operation::OnRolls(OnRolls::Sizes)),
            22 => Ok(Operation::OnRolls(OnRolls::Bound)),
            23 => Ok(Operation::Asked(Asked::Page)),
            24 => Ok(Operation::Written(Written::Centralizer)),
            25 => Ok(Operation::Within),
            26 => Ok(Operation::Line),
            27 => Ok(Operation::Claim),
            28 => Ok(Operation::OnRolls(OnRolls::Absence)),
            29 => Ok(Operation::Script),
            30 => Ok(Operation::OnRolls(OnRolls::OneQubit)),
            _ => Err(Unknown),
        }
    }
}

// The string behind its length of four bytes, and what follows it.
pub(crate) fn string_at(b: &[u8]) -> Option<(&[u8], &[u8])>
    ensures { IfSome result (λ parts. length parts.1.now < length b.now) }
{
    let (size, rest) = b.split_first_chunk::<4>()?;
    rest.split_at_checked(u32::from_le_bytes(*size) as usize)
}

// The strings in the second string, up to four. A struct, since the check does not cover an `Option` of an array.
#[derive(Clone, Copy)]
pub(crate) struct Strings<'a> {
    pub(crate) each: [&'a [u8]; 4],
}

// Two strings, each behind its length, that nothing follows.
fn two_strings(b: &[u8]) -> Option<Strings<'_>> {
    let (first, rest) = string_at(b)?;
    let (second, rest) = string_at(rest)?;
    if !rest.is_empty() {
        return None;
    }
    Some(Strings {
        each: [first, second, rest, rest],
    })
}

// Four strings, each behind its length, that nothing follows.
fn four_strings(b: &[u8]) -> Option<Strings<'_>> {
    let (first, rest) = string_at(b)?;
    let (second, rest) = string_at(rest)?;
    let (third, rest) = string_at(rest)?;
    let (fourth, rest) = string_at(rest)?;
    if !rest.is_empty() {
        return None;
    }
    Some(Strings {
        each: [first, second, third, fourth],
    })
}

// The most indexes of a claim that are read.
pub(crate) const MOST_INDEXES: usize = 1024;

// An element roll, and the indexes of a claim, two bytes each.
fn claim_strings(b: &[u8]) -> Option<Strings<'_>> {
    let strings = two_strings(b)?;
    let n = strings.each[1].len();
    if n % 2 != 0 || n > 2 * MOST_INDEXES {
        return None;
    }
    Some(strings)
}

// What stands in the second string: the rolls of a line, the element roll and the indexes or the witness roll of a claim; nothing for another
// operation.
pub(crate) fn strings_of(operation: Operation, second: &[u8]) -> Option<Strings<'_>> {
    match operation {
        Operation::Line => four_strings(second),
        Operation::Claim => claim_strings(second),
        Operation::OnRolls(OnRolls::Absence) => two_strings(second),
        _ => Some(Strings {
            each: [&second[..0]; 4],
        }),
    }
}

// What a call is given beside the output and the work area.
#[derive(Clone, Copy)]
pub(crate) struct Request<'a> {
    pub(crate) a: u32,
    pub(crate) b: u32,
    pub(crate) promises: Promises,
    // What fills the output and the work area before the call.
    pub(crate) fill: u8,
    pub(crate) first: &'a [u8],
    pub(crate) second: &'a [u8],
    // What stands in the second string.
    pub(crate) strings: Strings<'a>,
}

impl<'a> Request<'a> {
    pub(crate) fn new(
        head: &[u8; 28],
        first: &'a [u8],
        second: &'a [u8],
        strings: Strings<'a>,
    ) -> Self {
        Request {
            a: u32_at(head, 4),
            b: u32_at(head, 8),
            promises: Promises {
                left: Promise::from(u64::from(head[1])),
                right: Promise::from(u64::from(head[2])),
            },
            fill: head[3],
            first,
            second,
            strings,
        }
    }
}
