// The call for the listing of a group's elements.
ghost use Rattle.std.specs.Prelude.{◌≡◌, ◌+◌, ◌-◌, ◌*◌, ◌/◌, ◌^◌, ◌<◌, ◌≤◌, min, length, nat_lt};
ghost use Rattle.pauli.specs.Condense.{list_of};
ghost use Rattle.pauli.specs.Signed.{list_in};
ghost use Rattle.pauli.specs.PlaceSet.{set_in};
ghost use Rattle.pauli.specs.Told.{answer, refuse_if};
ghost use Rattle.pauli.specs.Writing.{told_bytes, left_in};
ghost use Rattle.pauli_theory.specs.Listing.{binomial, chosen_at, subset_at, page_size};
ghost use Rattle.pauli_theory.specs.Standard.{rank};
ghost use Rattle.pauli_group.specs.Promises.{promise_of};
ghost use Rattle.pauli_group.specs.Inner.Area.{standard_at, further_at, Outside};
ghost use Rattle.pauli_group.specs.WorkArea.{cleared};
ghost use Rattle.pauli_group.specs.Calls.{paulis, most_listed, page_bytes};
ghost use Rattle.pauli_group.specs.CallContracts.{ElementsCall};
ghost use Rattle.pauli_group.specs.Inner.Listed.{RowOf, elements_from};
ghost use Rattle.pauli_group.specs.Inner.Lists.{step_told};
ghost use Rattle.pauli.specs.Refusals.{told_of};

use crate::answers::Phases;
use crate::area::{FURTHER, STANDARD, Span, WORK_WORDS, area_of, clear};
use crate::checks::check_list;
use crate::group::group_of;
use crate::promise::Promise;
use crate::source::Source;
use crate::standard::signs_of;
use pauli::places::Places;
use pauli::refusal::{Reason, Refusal};
use pauli::roll::Roll;
use pauli::signed::{Pauli, indexed_product, store};
use pauli::support::Support;
use pauli::write::write_roll;

// The highest rank whose group is listed.
pub const MOST_LISTED: usize = 16;
// The size of a page that asks for none.
const DEFAULT_PAGE: usize = 64;
// The largest page.
const LARGEST_PAGE: usize = 128;

// Makes row n of Pascal's triangle the next one.
fn next_row(row: &mut [u64], n: usize)
    requires { RowOf n row.old × (n < 16) }
    ensures { RowOf (n + 1) row.new }
{
    for k in (1..17).rev() {
        row[k] += row[k - 1];
    }
}

// How many subsets of size k a list of n has.
fn binomial(n: usize, k: usize) -> u64
    requires { (n ≤ 16) × (k ≤ 16) }
    ensures { result ≡ binomial n k }
{
    let mut row = [0u64; 17];
    row[0] = 1;
    for i in 0..n {
        next_row(&mut row, i);
    }
    row[k]
}

// A subset of which the numbers below some p are chosen: those, how many of the others, and its number among the choices left.
#[derive(Clone, Copy)]
struct Choice {
    bits: u64,
    size: usize,
    number: u64,
}

// Chooses whether p is in the subset; `left` numbers come after it.
fn choose(p: usize, left: usize, c: Choice) -> Choice
    requires { (p + left < 16) × (c.size ≤ 16) × (c.bits < 2 ^ p) }
    ensures small { (result.size ≤ 16) × (result.bits < 2 ^ (p + 1)) }
    ensures same { result.bits + 2 ^ (p + 1) * chosen_at left result.size result.number ≡ c.bits + 2 ^ p * chosen_at (left + 1) c.size c.number }
{
    let bits = c.bits;
    let size = c.size;
    let number = c.number;
    if size == 0 {
        return Choice { bits, size, number };
    }
    let with = binomial(left, size - 1);
    if number < with {
        return Choice {
            bits: bits + (1u64 << p),
            size: size - 1,
            number,
        };
    }
    Choice {
        bits,
        size,
        number: number - with,
    }
}

// Subset number i of size k of the numbers below n.
fn chosen_at(n: usize, k: usize, i: u64) -> Places
    requires { (n ≤ 16) × (k ≤ n) }
    ensures { set_in result ≡ chosen_at n k i }
{
    let mut c = Choice {
        bits: 0,
        size: k,
        number: i,
    };
    for p in 0..n {
        c = choose(p, n - p - 1, c);
    }
    Places {
        low: c.bits,
        high: 0,
    }
}

// Subset number i of the numbers below n: by size, then lexicographic.
fn subset_at(n: usize, i: u64) -> Places
    requires { n ≤ 16 }
    ensures { set_in result ≡ subset_at n i }
{
    let mut number = i;
    for k in 0..n {
        let of_size = binomial(n, k);
        if number < of_size {
            return chosen_at(n, k, number);
        }
        number -= of_size;
    }
    chosen_at(n, n, number)
}

// Writes the n elements from number `start` on of the group whose standard generators are in the area, to the further list's place.
// n is a number: a Span would need, in place of n ≤ 128, that it stands behind the standard generators.
fn put_elements(w: &mut [u64; WORK_WORDS], rank: usize, phases: Phases, start: u64, n: usize)
    requires { (rank ≤ 16) × (n ≤ 128) × (start < 2 ^ 32) }
    ensures list { list_in w.new further_at n ≡ elements_from rank (4 / step_told phases) (step_told phases) (list_in w.old standard_at rank) start n }
    ensures rest { Outside further_at (5 * n) w.old w.new }
{
    let count = phases.count();
    let step = phases.step();
    let generators = Span::at(STANDARD, rank);
    for i in 0..n {
        let number = start + (i as u64);
        let set = subset_at(rank, number / count);
        let product = indexed_product(generators.paulis(w), set);
        let turn = (step * (number % count)) as u8;
        let exponent = product.exponent.wrapping_add(turn);
        store(
            w,
            FURTHER + 5 * i,
            Pauli {
                exponent,
                ..product
            },
        );
    }
}

// How many elements a page has.
fn page_size(count: usize) -> usize
    ensures { (result ≡ page_size count) × (result ≤ 128) }
{
    if count == 0 {
        return DEFAULT_PAGE;
    }
    if count > LARGEST_PAGE {
        return LARGEST_PAGE;
    }
    count
}

// How many of a page of `size` elements from number `start` on there are, of `total`.
fn page_length(total: u64, start: u64, size: usize) -> usize
    requires { size ≤ 128 }
    ensures { result ≡ min size (total - start) }
{
    if start >= total {
        return 0;
    }
    if total - start < (size as u64) {
        return (total - start) as usize;
    }
    size
}

// How many elements a page holds of a group of this rank, whose phases have this step. The step is a number: the function is
// public, and `Phases` has no case for a step of 3.
pub fn page_elements(rank: usize, step: u64, start: u32, count: u32) -> usize
    requires { (rank ≤ 16) × (0 < step) × (step ≤ 4) }
    ensures { (result ≡ min (page_size count) (2 ^ rank * (4 / step) - start)) × (result ≤ 128) }
{
    let total = (1u64 << rank) * (4 / step);
    page_length(total, start as u64, page_size(count as usize))
}

// Writes a page of the group of a roll, and clears the work area.
fn write_page(
    roll: Roll,
    promise: Promise,
    start: u32,
    count: u32,
    w: &mut [u64; WORK_WORDS],
    out: &mut [u8],
) -> Result<usize, Refusal>
    ensures told { told_of result ≡ told_bytes (refuse_if (nat_lt most_listed (rank (paulis (list_of roll.entry.bytes.now)))) 10 0 (answer (page_bytes (promise_of promise) start count (paulis (list_of roll.entry.bytes.now))))) out.old }
    ensures left { out.new ≡ left_in (refuse_if (nat_lt most_listed (rank (paulis (list_of roll.entry.bytes.now)))) 10 0 (answer (page_bytes (promise_of promise) start count (paulis (list_of roll.entry.bytes.now))))) out.old }
    ensures area { w.new ≡ cleared w.old }
{
    let mut known = Support::new();
    let g = group_of(Source::Rolled(roll), &mut known, w);
    if g.rank > MOST_LISTED {
        clear(w);
        return Err(Reason::Listing.into());
    }
    let signs = signs_of(g.standards().paulis(w), promise);
    let step = signs.phases.step();
    let length = page_elements(g.rank, step, start, count);
    put_elements(w, g.rank, signs.phases, start as u64, length);
    let page = Span::at(FURTHER, length);
    let wrote = write_roll(page.paulis(w), known.qubits(), out);
    clear(w);
    wrote
}

// Writes a page of the group's elements as a roll.
pub fn elements(
    b: &[u8],
    promise: Promise,
    start: u32,
    count: u32,
    work: &mut [u64],
    out: &mut [u8],
) -> Result<usize, Refusal>
    ensures { ElementsCall (promise_of promise) start count b.now work.old out.old result work.new out.new }
{
    let roll = check_list(b, work.len())?;
    write_page(roll, promise, start, count, area_of(work), out)
}
