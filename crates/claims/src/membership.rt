// The call that checks a claim of membership.
ghost use Rattle.std.specs.Prelude.{◌≡◌, ◌<◌, ◌≤◌, ◌==◌, length, slice_index_or};
ghost use Rattle.pauli.specs.Condense.{condensed, list_of, nothing};
ghost use Rattle.pauli.specs.PlaceSet.{set_in};
ghost use Rattle.pauli.specs.Sets.{set_of, pauli_of};
ghost use Rattle.pauli.specs.PauliTheorems.{PauliOn};
ghost use Rattle.pauli.specs.Pauli.{Pauli as Claimed, normal, turned};
ghost use Rattle.pauli.specs.Signed.{held};
ghost use Rattle.pauli.specs.Support.{All, Rising};
ghost use Rattle.pauli_theory.specs.Claims.{member_accepted, same_value};
ghost use Rattle.pauli_group.specs.Promises.{promise_of};
ghost use Rattle.pauli_group.specs.WorkArea.{cleared};
ghost use Rattle.pauli_group.specs.Calls.{paulis};
ghost use Rattle.claims.specs.ClaimContracts.{MembershipClaim};

use crate::checks::{check_form, check_number};
use pauli::condense::{condense_from, with_place};
use pauli::places::Places;
use pauli::refusal::Refusal;
use pauli::roll::Roll;
use pauli::signed::{Pauli, indexed_product};
use pauli::support::{Place, Support};
use pauli_group::area::{WORK_WORDS, area_of, clear};
use pauli_group::checks::{Rolls, check_area, check_rolls};
use pauli_group::group::group_of;
use pauli_group::member::is_supported;
use pauli_group::promise::Promise;
use pauli_group::source::Source;
use pauli_group::standard::signs_of;

// The set of these indexes.
fn index_set(indexes: &[u16]) -> Places
    requires { All (λ i. i < 128) indexes.now }
    ensures { set_in result ≡ set_of indexes.now }
{
    let mut set = Places::none();
    for index in indexes {
        set = with_place(set, Place(*index as usize));
    }
    set
}

fn is_same_set(s: Places, t: Places) -> bool
    ensures { result ≡ (set_in s == set_in t) }
{
    s.low == t.low && s.high == t.high
}

// Whether p is i^exponent times the product, by value.
fn is_turned(p: Pauli, product: Pauli, exponent: u32) -> bool
    requires { exponent < 4 }
    ensures { result ≡ same_value (turned exponent (held product)) (held p) }
{
    let value = product.exponent.wrapping_add(exponent as u8);
    if value % 4 != p.exponent % 4 {
        return false;
    }
    if !is_same_set(product.x, p.x) {
        return false;
    }
    is_same_set(product.z, p.z)
}

// Whether Pauli i of a roll is i^exponent times the product, which is given over the places of a support that has its qubits.
fn is_claimed(roll: Roll, i: usize, known: &[u32], product: Pauli, exponent: u32) -> bool
    requires { (i < roll.count) × Rising 0 known.now × (length known.now ≤ 128) × (exponent < 4) }
    ensures { (q : Claimed) → PauliOn known.now q → normal (held product) ≡ condensed known.now q → result ≡ same_value (turned exponent q) (pauli_of (slice_index_or (list_of roll.entry.bytes.now) i nothing)) }
{
    if !is_supported(roll, i, known) {
        return false;
    }
    is_turned(condense_from(roll, i, known), product, exponent)
}

// Whether the claim is accepted, by the group of the generators; clears the work area.
fn holds(
    rolls: Rolls,
    number: usize,
    indexes: &[u16],
    exponent: u32,
    promise: Promise,
    w: &mut [u64; WORK_WORDS],
) -> bool
    requires { (number < rolls.elements.count) × All (λ i. i < rolls.generators.count) indexes.now × (exponent < 4) }
    ensures told { result ≡ member_accepted (promise_of promise) (paulis (list_of rolls.entry.generators.bytes.now)) (pauli_of (slice_index_or (list_of rolls.entry.elements.bytes.now) number nothing)) (record { indexes = indexes.now; exponent = exponent }) }
    ensures area { w.new ≡ cleared w.old }
{
    let mut known = Support::new();
    let g = group_of(Source::Rolled(rolls.generators), &mut known, w);
    let signs = signs_of(g.standards().paulis(w), promise);
    let product = indexed_product(g.generators().paulis(w), index_set(indexes));
    let same = is_claimed(rolls.elements, number, known.qubits(), product, exponent);
    let left = (exponent as u64) % signs.phases.step();
    clear(w);
    same && left == 0
}

// Whether a claim of membership is accepted: the product of the generators at the indexes, times i to the exponent, is the element, and
// that power of i is among the group's phases.
pub fn accepts_membership(
    generators: &[u8],
    elements: &[u8],
    number: usize,
    indexes: &[u16],
    exponent: u32,
    promise: Promise,
    work: &mut [u64],
) -> Result<bool, Refusal>
    ensures { MembershipClaim (promise_of promise) generators.now elements.now number indexes.now exponent work.old result work.new }
{
    let rolls = check_rolls(generators, elements)?;
    check_number(number, rolls.elements.count)?;
    check_form(indexes, exponent, rolls.generators.count)?;
    check_area(work.len())?;
    Ok(holds(rolls, number, indexes, exponent, promise, area_of(work)))
}
