// The echelon form of a list in the work area, and the products of generators that its T names.
ghost use Rattle.std.specs.Prelude.{◌≡◌, ◌+◌, ◌*◌, ◌/◌, ◌%◌, ◌^◌, ◌<◌, ◌≤◌, ◌⊎◌, length};
ghost use Rattle.binar.specs.Echelon.{rank as echelon_rank};
ghost use Rattle.binar.specs.Layout.{form_in};
ghost use Rattle.binar.specs.Words.{row_at};
ghost use Rattle.pauli.specs.Signed.{list_in};
ghost use Rattle.pauli.specs.PlaceSet.{set_in};
ghost use Rattle.pauli.specs.Writing.{OnPlaces};
ghost use Rattle.pauli_group.specs.Inner.Area.{target_at, row_words, stride_of, Outside};
ghost use Rattle.pauli_group.specs.Inner.Lists.{form_over, products_by};

use crate::area::{ROW_WORDS, Span, WORK_WORDS};
use crate::rows::put_rows;
use binar::matrix_form::echelon_form;
use pauli::places::Places;
use pauli::signed::{indexed_product, store};

// The words of a row of a form of n rows.
pub fn stride_of(n: usize) -> usize
    requires { n ≤ 256 }
    ensures { result ≡ stride_of n }
{
    ROW_WORDS + (n + 63) / 64
}

// The T part of the row at word at of a form of n rows, as a set of generators: the first 128 of them.
pub(crate) fn named_by(w: &[u64], at: usize, n: usize) -> Places
    requires { (n ≤ 129) × (at + stride_of n ≤ length w.now) }
    ensures { set_in result ≡ row_at w.now at (stride_of n) / 2 ^ (64 * row_words) % 2 ^ 128 }
{
    if n == 0 {
        return Places::none();
    }
    if n <= 64 {
        return Places {
            low: w[at + ROW_WORDS],
            high: 0,
        };
    }
    Places {
        low: w[at + ROW_WORDS],
        high: w[at + ROW_WORDS + 1],
    }
}

// Makes the echelon form of the Paulis of a list, over s places; tells its rank.
// `OnPlaces` is a fact of the words in the area, which the next store may change: no value carries it.
pub fn form_of(w: &mut [u64; WORK_WORDS], list: Span, s: usize) -> usize
    requires { (list.count ≤ 256) × (list.count * stride_of list.count + list.count ≤ list.base) × (s ≤ 128) × OnPlaces s (list_in w.old list.base list.count) }
    ensures rank { result ≡ echelon_rank (form_over s (list_in w.old list.base list.count)) }
    ensures form { form_in (stride_of list.count) list.count row_words (2 * s) result w.new ≡ form_over s (list_in w.old list.base list.count) }
    ensures rest { Outside 0 (list.count * stride_of list.count + list.count) w.old w.new }
{
    put_rows(w, list, s, stride_of(list.count));
    echelon_form(w, ROW_WORDS, list.count, 2 * s).unwrap()
}

// Writes in place of the list `to` the products that T names in as many rows of a form of n rows, from row first on: those of the
// Paulis of the list `from`, in rising index.
pub(crate) fn put_products(w: &mut [u64; WORK_WORDS], n: usize, first: usize, from: Span, to: Span)
    requires { (n ≤ 129) × (first + to.count ≤ n) × (from.count ≤ 128) × (target_at ≤ to.base) × ((from.base + 5 * from.count ≤ to.base) ⊎ (to.base + 5 * to.count ≤ from.base)) }
    ensures list { list_in w.new to.base to.count ≡ products_by n first to.count w.old (list_in w.old from.base from.count) }
    ensures rest { Outside to.base (5 * to.count) w.old w.new }
{
    let stride = stride_of(n);
    for i in 0..to.count {
        let set = named_by(w, (first + i) * stride, n);
        let product = indexed_product(from.paulis(w), set);
        store(w, to.base + 5 * i, product);
    }
}
