// The operations on lists in slots, by the inner functions of the single calls.
ghost use Rattle.std.specs.Prelude.{◌≡◌, ◌+◌, ◌<◌, List, Some};
ghost use Rattle.pauli.specs.Pauli.{Pauli as Signed};
ghost use Rattle.combined_lists.specs.Line.{quotient, common, joined};
ghost use Rattle.combined_lists.specs.Inner.Worked.{Kept};
ghost use Rattle.combined_lists.specs.Inner.Slots.{SlotHolds, SomeSlot, Operates, FurtherKeeps, SomeFurtherKeeps, LentPair, Pairs, list_read};

use crate::slot::{SLOT_WORDS, SLOTS, keep, kept_list, lend_numbers};
use pauli::refusal::Refusal;
use pauli::roll::Roll;
use pauli::support::{MOST_QUBITS, Support};
use pauli_group::area::{FURTHER, Span, WORK_WORDS};
use pauli_group::common::{Common, common_of};
use pauli_group::further::{read_one, read_two};
use pauli_group::promise::{Promise, Promises};
use pauli_group::quotient::quotient_of;
use pauli_group::source::{Source, SourcePair};

// Keeps the n Paulis of the further list, which are over the places of joint, in slot at.
fn keep_further(
    n: usize,
    joint: &Support,
    w: &[u64; WORK_WORDS],
    slots: &mut [[u64; SLOT_WORDS]; SLOTS],
    at: usize,
)
    requires { (at < 16) × SomeFurtherKeeps joint.now w.now n }
    ensures list { (gs : List Signed) → FurtherKeeps joint.now w.now n gs → SlotHolds slots.new at gs }
    ensures kept { Kept SlotHolds at slots.old slots.new }
{
    let list = Span::at(FURTHER, n);
    keep(&mut slots[at], list.paulis(w), joint.qubits());
}

// Puts the list of a roll into slot top.
pub(crate) fn load(
    roll: Roll,
    w: &mut [u64; WORK_WORDS],
    slots: &mut [[u64; SLOT_WORDS]; SLOTS],
    top: usize,
)
    requires { top < 16 }
    ensures list { SlotHolds slots.new top (list_read (Some roll.entry)) }
    ensures kept { Kept SlotHolds top slots.old slots.new }
{
    let mut known = Support::new();
    let n = read_one(Source::Rolled(roll), &mut known, w);
    keep_further(n, &known, w, slots, top);
}

// Puts the qubits' numbers of the lists in slot left and in the next one to the fronts of numbers. In place: for an array of this size that is
// answered the library for C would take memcpy from outside.
fn both_numbers(
    slots: &[[u64; SLOT_WORDS]; SLOTS],
    left: usize,
    numbers: &mut [[u32; MOST_QUBITS]; 2],
)
    requires { (left + 1 < 16) × SomeSlot slots.now left × SomeSlot slots.now (left + 1) }
    ensures { LentPair slots.now left numbers.new }
{
    lend_numbers(&slots[left], &mut numbers[0]);
    lend_numbers(&slots[left + 1], &mut numbers[1]);
}

// The lists in slot left and in the next one, lent with their qubits' numbers, if they can be joined.
fn pair_of<'a>(
    slots: &'a [[u64; SLOT_WORDS]; SLOTS],
    left: usize,
    numbers: &'a [[u32; MOST_QUBITS]; 2],
) -> Result<SourcePair<'a>, Refusal>
    requires { (left + 1 < 16) × SomeSlot slots.now left × SomeSlot slots.now (left + 1) × LentPair slots.now left numbers.now }
    ensures { Pairs left slots.now result }
{
    SourcePair::checked(
        Source::Kept(kept_list(&slots[left], &numbers[0])),
        Source::Kept(kept_list(&slots[left + 1], &numbers[1])),
    )
}

// Joins the lists in slot left and in the next one.
pub(crate) fn join_slots(
    w: &mut [u64; WORK_WORDS],
    slots: &mut [[u64; SLOT_WORDS]; SLOTS],
    left: usize,
) -> Result<(), Refusal>
    requires { (left + 1 < 16) × SomeSlot slots.old left × SomeSlot slots.old (left + 1) }
    ensures { Operates joined left slots.old result slots.new }
{
    let mut numbers = [[0; MOST_QUBITS]; 2];
    both_numbers(slots, left, &mut numbers);
    let pair = pair_of(slots, left, &numbers)?;
    let mut joint = Support::new();
    let n = read_two(pair, &mut joint, w);
    keep_further(n, &joint, w, slots, left);
    Ok(())
}

// The common part of the lists in slot left and in the next one.
pub(crate) fn common_slots(
    w: &mut [u64; WORK_WORDS],
    slots: &mut [[u64; SLOT_WORDS]; SLOTS],
    left: usize,
) -> Result<(), Refusal>
    requires { (left + 1 < 16) × SomeSlot slots.old left × SomeSlot slots.old (left + 1) }
    ensures { Operates common left slots.old result slots.new }
{
    let mut numbers = [[0; MOST_QUBITS]; 2];
    both_numbers(slots, left, &mut numbers);
    let pair = pair_of(slots, left, &numbers)?;
    let mut joint = Support::new();
    match common_of(pair, &mut joint, w) {
        Common::Left => {}
        Common::Right => {
            let n = read_one(pair.right, &mut joint, w);
            keep_further(n, &joint, w, slots, left);
        }
        Common::Further(n) => keep_further(n, &joint, w, slots, left),
    }
    Ok(())
}

// The quotient of the list in slot left by the one in the next slot.
pub(crate) fn quotient_slots(
    w: &mut [u64; WORK_WORDS],
    slots: &mut [[u64; SLOT_WORDS]; SLOTS],
    left: usize,
) -> Result<(), Refusal>
    requires { (left + 1 < 16) × SomeSlot slots.old left × SomeSlot slots.old (left + 1) }
    ensures { Operates quotient left slots.old result slots.new }
{
    let mut numbers = [[0; MOST_QUBITS]; 2];
    both_numbers(slots, left, &mut numbers);
    let pair = pair_of(slots, left, &numbers)?;
    let mut joint = Support::new();
    let promises = Promises {
        left: Promise::None,
        right: Promise::None,
    };
    let n = quotient_of(pair, promises, &mut joint, w)?;
    keep_further(n, &joint, w, slots, left);
    Ok(())
}
