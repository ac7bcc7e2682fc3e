// Lists kept in slots of the work area, while others are worked out.
ghost use Rattle.std.specs.Prelude.{◌≡◌, List, ℕ, ◌^◌, ◌<◌, ◌≤◌, length};
ghost use Rattle.pauli.specs.Pauli.{Pauli as Signed, select};
ghost use Rattle.pauli.specs.Refusals.{told_of};
ghost use Rattle.pauli.specs.Signed.{paulis_in};
ghost use Rattle.pauli.specs.PlaceSet.{set_in};
ghost use Rattle.pauli.specs.Told.{answer};
ghost use Rattle.pauli.specs.Writing.{roll_over, told_bytes, left_in};
ghost use Rattle.pauli_theory.specs.Standard.{used_by};
ghost use Rattle.pauli_group.specs.Calls.{list_bytes};
ghost use Rattle.pauli_group.specs.Inner.Sources.{listed};
ghost use Rattle.pauli_group.specs.declared.source.Source.TheVariants.{Kept};
ghost use Rattle.combined_lists.specs.Inner.Slots.{qubits_in, Lent, NumbersFit, SlotHas, SomeList, Keepable, SomeKeepable};

use pauli::places::Places;
use pauli::refusal::Refusal;
use pauli::signed::{Pauli, fives_at};
use pauli::support::{MOST_QUBITS, qubit_at};
use pauli::write::write_roll;
use pauli_group::kept::KeptList;
use pauli_group::moved::move_words;

// How many slots there are.
pub const SLOTS: usize = 16;
// The words of a slot: how many Paulis, how many qubits, the qubits' numbers, the Paulis over their places, five words each.
pub const SLOT_WORDS: usize = 770;
// Where the qubits' numbers stand.
const NUMBERS: usize = 2;
// Where the Paulis stand.
const PAULIS: usize = 130;

// Puts the qubits' numbers of the list in a slot to the front of numbers.
pub(crate) fn lend_numbers(slot: &[u64; SLOT_WORDS], numbers: &mut [u32; MOST_QUBITS])
    requires { NumbersFit slot.now }
    ensures { Lent slot.now numbers.new }
{
    for i in 0..slot[1] as usize {
        numbers[i] = slot[NUMBERS + i] as u32;
    }
}

// The qubits' numbers of the list in a slot, at the front.
pub(crate) fn numbers_of(slot: &[u64; SLOT_WORDS]) -> [u32; MOST_QUBITS]
    requires { NumbersFit slot.now }
    ensures { Lent slot.now result }
{
    let mut numbers = [0u32; MOST_QUBITS];
    lend_numbers(slot, &mut numbers);
    numbers
}

// The places that the Paulis of a list use.
fn used_by(list: &[[u64; 5]]) -> Places
    ensures { set_in result ≡ used_by (paulis_in list.now) }
{
    let mut used = Places::none();
    for words in list {
        let p = Pauli::from_words(words);
        used = used | (p.x | p.z);
    }
    used
}

// Puts the numbers of the qubits at these places of joint into a slot.
fn put_numbers(slot: &mut [u64; SLOT_WORDS], used: Places, joint: &[u32])
    requires { (length joint.now ≤ 128) × (set_in used < 2 ^ length joint.now) }
    ensures qubits { qubits_in slot.new ≡ select (set_in used) joint.now }
    ensures fit { NumbersFit slot.new }
{
    let mut count = 0;
    for p in used.iter() {
        slot[NUMBERS + count] = qubit_at(joint, p).0 as u64;
        count += 1;
    }
    slot[1] = count as u64;
}

// Keeps a list, over the places of joint, in a slot.
pub(crate) fn keep(slot: &mut [u64; SLOT_WORDS], list: &[[u64; 5]], joint: &[u32])
    requires { SomeKeepable joint.now list.now }
    ensures { (gs : List Signed) → Keepable joint.now list.now gs → SlotHas slot.new gs }
{
    put_numbers(slot, used_by(list), joint);
    let numbers = numbers_of(slot);
    let count = slot[1] as usize;
    move_words(list, joint, &numbers[..count], slot, PAULIS);
    slot[0] = list.len() as u64;
}

// The list in a slot, lent with its qubits' numbers.
pub(crate) fn kept_list<'a>(
    slot: &'a [u64; SLOT_WORDS],
    numbers: &'a [u32; MOST_QUBITS],
) -> KeptList<'a>
    requires { SomeList slot.now × Lent slot.now numbers.now }
    ensures listed { (gs : List Signed) → SlotHas slot.now gs → listed (Kept result) ≡ gs }
    ensures written { (gs : List Signed) → SlotHas slot.now gs → roll_over result.qubits.now (paulis_in result.paulis.now) ≡ list_bytes gs }
{
    KeptList {
        qubits: &numbers[..slot[1] as usize],
        paulis: fives_at(slot, PAULIS, slot[0] as usize),
    }
}

// Writes the list in a slot as a roll.
pub(crate) fn write_slot(slot: &[u64; SLOT_WORDS], out: &mut [u8]) -> Result<usize, Refusal>
    requires { SomeList slot.now }
    ensures told { (gs : List Signed) → SlotHas slot.now gs → told_of result ≡ told_bytes (answer (list_bytes gs)) out.old }
    ensures left { (gs : List Signed) → SlotHas slot.now gs → out.new ≡ left_in (answer (list_bytes gs)) out.old }
{
    let numbers = numbers_of(slot);
    let list = kept_list(slot, &numbers);
    write_roll(list.paulis, list.qubits, out)
}
