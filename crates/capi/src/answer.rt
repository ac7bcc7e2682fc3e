// The answer of a call as five numbers, and what codes each kind of answer.
ghost use Rattle.std.specs.Prelude.{◌≡◌};
ghost use Rattle.pauli.specs.Lookups.{looked_in};
ghost use Rattle.pauli.specs.ProductAnswers.{made_in};
ghost use Rattle.pauli.specs.Refusals.{number_of, told_of, told_by};
ghost use Rattle.pauli_group.specs.Answers.{phases_told, yes_number, factored_in, order_of};
ghost use Rattle.factorizations.specs.Answers.{totals_in};
ghost use Rattle.sizes.specs.Answers.{sizes_in};
ghost use Rattle.capi.specs.Code.{code_refusal, code_values, code_number, code_done, code_accepted, code_product, code_phases, code_looked, code_member, code_results, code_sizes, order_number, code_order, code_form};

use factorizations::answers::Results;
use pauli::lookup::JoinedEntry;
use pauli::product::Multiplied;
use pauli::refusal::{Refusal, number_of};
use pauli_group::answers::{Factors, Phases};
use sizes::answers::JoinedSizes;
use std::cmp::Ordering;

// The refusal's number, or 0 for an answer; the refusal's place; and what the call answers, in up to three numbers.
#[repr(C)]
#[derive(Clone, Copy)]
pub struct Answer {
    pub refusal: u64,
    pub place: u64,
    pub first: u64,
    pub second: u64,
    pub third: u64,
}

pub(crate) fn code_refusal(refusal: Refusal) -> Answer
    ensures { result ≡ code_refusal (number_of refusal.reason) refusal.place }
{
    let reason = refusal.reason;
    let number = number_of(reason) as u64;
    let place = refusal.place as u64;
    Answer {
        refusal: number,
        place: place,
        first: 0,
        second: 0,
        third: 0,
    }
}

pub(crate) fn code_values(first: usize, second: usize, third: usize) -> Answer
    ensures { result ≡ code_values first second third }
{
    Answer {
        refusal: 0,
        place: 0,
        first: first as u64,
        second: second as u64,
        third: third as u64,
    }
}

// A count, a length in bytes, a rank or a binary logarithm.
pub(crate) fn code_number(told: Result<usize, Refusal>) -> Answer
    ensures { result ≡ code_number (told_of told) }
{
    told.map_or_else(code_refusal, |n| code_values(n, 0, 0))
}

pub(crate) fn code_done(done: Result<(), Refusal>) -> Answer
    ensures { result ≡ code_done (told_of done) }
{
    done.map_or_else(code_refusal, |_| code_values(0, 0, 0))
}

pub(crate) fn code_decided(decided: Result<bool, Refusal>) -> Answer
    ensures number { result ≡ code_number (told_by yes_number decided) }
    ensures accepted { result ≡ code_accepted (told_of decided) }
{
    decided.map_or_else(code_refusal, |yes| code_values(usize::from(yes), 0, 0))
}

pub(crate) fn code_product(made: Result<Multiplied, Refusal>) -> Answer
    ensures { result ≡ code_product (told_by made_in made) }
{
    made.map_or_else(
        code_refusal,
        |m| code_values(m.bytes, usize::from(m.anticommute), 0),
    )
}

pub(crate) fn code_looked(found: Result<JoinedEntry, Refusal>) -> Answer
    ensures { result ≡ code_looked (told_by looked_in found) }
{
    found.map_or_else(
        code_refusal,
        |e| code_values(e.exponent as usize, e.xcount, e.zcount),
    )
}

pub(crate) fn code_phases(found: Result<Phases, Refusal>) -> Answer
    ensures { result ≡ code_phases (told_by phases_told found) }
{
    found.map_or_else(
        code_refusal,
        |phases| code_values(phases.count() as usize, 0, 0),
    )
}

pub(crate) fn code_member(found: Result<Option<Factors>, Refusal>) -> Answer
    ensures { result ≡ code_member (told_by factored_in found) }
{
    match found {
        Ok(Some(f)) => code_values(1, f.count, f.exponent as usize),
        Ok(None) => code_values(0, 0, 0),
        Err(refusal) => code_refusal(refusal),
    }
}

pub(crate) fn code_results(found: Result<Results, Refusal>) -> Answer
    ensures { result ≡ code_results (told_by totals_in found) }
{
    found.map_or_else(
        code_refusal,
        |results| code_values(results.count, results.bytes, 0),
    )
}

pub(crate) fn code_sizes(found: Result<JoinedSizes, Refusal>) -> Answer
    ensures { result ≡ code_sizes (told_by sizes_in found) }
{
    found.map_or_else(
        code_refusal,
        |sizes| code_values(sizes.bytes, sizes.count, sizes.qubits),
    )
}

fn order_number(order: Option<Ordering>) -> usize
    ensures { result ≡ order_number (order_of order) }
{
    match order {
        Some(Ordering::Equal) => 0,
        Some(Ordering::Less) => 1,
        Some(Ordering::Greater) => 2,
        None => 3,
    }
}

pub(crate) fn code_order(found: Result<Option<Ordering>, Refusal>) -> Answer
    ensures { result ≡ code_order (told_by order_of found) }
{
    found.map_or_else(code_refusal, |order| code_values(order_number(order), 0, 0))
}

pub(crate) fn code_form(rank: Option<usize>) -> Answer
    ensures { result ≡ code_form rank }
{
    match rank {
        Some(n) => code_values(1, n, 0),
        None => code_values(0, 0, 0),
    }
}
