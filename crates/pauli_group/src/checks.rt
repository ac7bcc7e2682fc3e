// What is checked before a call works: its rolls, its numbers and the work area, in this order.
ghost use Rattle.std.specs.Prelude.{◌≡◌, ℕ, ◌≤◌, length, IfOk};
ghost use Rattle.pauli.specs.Told.{answer, map_told};
ghost use Rattle.pauli_group.specs.WorkArea.{enough};
ghost use Rattle.pauli_group.specs.Calls.{one_list, roll_counts, question_counts, pair_counts, two_lists};
ghost use Rattle.pauli.specs.Refusals.{told_by};

use crate::area::WORK_WORDS;
use pauli::joined::Pair;
use pauli::refusal::{Reason, Refusal};
use pauli::roll::Roll;

// Checks that a work area has enough words.
pub fn check_area(words: usize) -> Result<(), Refusal>
    ensures told { told_by {B = ℕ} (λ done. 0) result ≡ enough words (answer 0) }
    ensures room { IfOk result (λ done. 4096 ≤ words) }
{
    if words < WORK_WORDS {
        return Err(Reason::Work.into());
    }
    Ok(())
}

// Checks the roll, then the work area of so many words.
pub(crate) fn check_list<'a>(b: &'a [u8], words: usize) -> Result<Roll<'a>, Refusal>
    ensures count { told_by (λ roll. roll.count) result ≡ map_told length (one_list b.now words) }
    ensures bytes { IfOk result (λ roll. roll.bytes ≡ b.entry) }
    ensures room { IfOk result (λ roll. 4096 ≤ words) }
{
    let roll = Roll::read(b)?;
    check_area(words)?;
    Ok(roll)
}

// The rolls of a question: the generators, and the elements that are put to their group.
#[derive(Clone, Copy)]
pub struct Rolls<'a> {
    pub generators: Roll<'a>,
    pub elements: Roll<'a>,
}

// Checks the generators' roll, then the elements' roll.
pub fn check_rolls<'a>(generators: &'a [u8], elements: &'a [u8]) -> Result<Rolls<'a>, Refusal>
    ensures counts { told_by (λ rolls. record { left = rolls.generators.count; right = rolls.elements.count }) result ≡ roll_counts generators.now elements.now }
    ensures rolls { IfOk result (λ rolls. (rolls.generators.bytes ≡ generators.entry) × (rolls.elements.bytes ≡ elements.entry)) }
{
    let generators = Roll::read(generators)?;
    let elements = Roll::read(elements)?;
    Ok(Rolls {
        generators,
        elements,
    })
}

// Checks the generators' roll, the elements' roll, the element's number and the work area of so many words.
pub(crate) fn check_question<'a>(
    generators: &'a [u8],
    elements: &'a [u8],
    number: usize,
    words: usize,
) -> Result<Rolls<'a>, Refusal>
    ensures counts { told_by (λ rolls. record { left = rolls.generators.count; right = rolls.elements.count }) result ≡ question_counts generators.now elements.now number words }
    ensures rolls { IfOk result (λ rolls. (rolls.generators.bytes ≡ generators.entry) × (rolls.elements.bytes ≡ elements.entry)) }
    ensures room { IfOk result (λ rolls. 4096 ≤ words) }
{
    let rolls = check_rolls(generators, elements)?;
    if number >= rolls.elements.count {
        return Err(Reason::Number.into());
    }
    check_area(words)?;
    Ok(rolls)
}

// Checks two rolls, the limits of the joined list and the work area of so many words.
pub(crate) fn check_pair<'a>(
    left: &'a [u8],
    right: &'a [u8],
    words: usize,
) -> Result<Pair<'a>, Refusal>
    ensures counts { told_by (λ pair. record { left = pair.left.count; right = pair.right.count }) result ≡ map_told pair_counts (two_lists left.now right.now words) }
    ensures rolls { IfOk result (λ pair. (pair.left.bytes ≡ left.entry) × (pair.right.bytes ≡ right.entry)) }
    ensures room { IfOk result (λ pair. 4096 ≤ words) }
{
    let pair = Pair::read(left, right)?;
    check_area(words)?;
    Ok(pair)
}
