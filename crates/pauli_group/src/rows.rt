// Paulis over the places of a support as rows: column p is X at place p, column s + p is Z, where s is the support's size.
ghost use Rattle.std.specs.Prelude.{◌≡◌, ◌+◌, ◌*◌, ◌%◌, ◌^◌, ◌<◌, ◌≤◌, map, length, drop};
ghost use Rattle.binar.specs.Words.{put_row, image};
ghost use Rattle.pauli.specs.Signed.{held, list_in};
ghost use Rattle.pauli.specs.Writing.{OnPlaces};
ghost use Rattle.pauli_group.specs.Inner.Lists.{row_over};

use crate::area::{ROW_WORDS, Span, WORK_WORDS};
use binar::row::clear_bits;
use pauli::signed::{Pauli, load};

// A word times a power of two, in two words.
#[derive(Clone, Copy)]
pub(crate) struct TwoWords {
    pub low: u64,
    pub high: u64,
}

// The word times 2^k.
fn shifted(word: u64, k: usize) -> TwoWords
    requires { k ≤ 64 }
    ensures { (result.high * 2 ^ 64 + result.low ≡ word * 2 ^ k) × (result.low % 2 ^ k ≡ 0) × (result.high < 2 ^ k) }
{
    if k == 0 {
        return TwoWords { low: word, high: 0 };
    }
    if k == 64 {
        return TwoWords { low: 0, high: word };
    }
    TwoWords {
        low: word << k,
        high: word >> (64 - k),
    }
}

// Writes the row of a Pauli over s places to the four words from word at on.
pub(crate) fn put_row(w: &mut [u64], at: usize, p: Pauli, s: usize)
    requires { (at + 4 ≤ length w.old) × (s ≤ 128) × ((held p).x < 2 ^ s) × ((held p).z < 2 ^ s) }
    ensures { w.new ≡ put_row w.old at 4 (row_over s (held p)) }
{
    let x = p.x;
    let z = p.z;
    if s < 64 {
        let a = shifted(z.low, s);
        w[at] = x.low + a.low;
        w[at + 1] = a.high;
        w[at + 2] = 0;
        w[at + 3] = 0;
        return;
    }
    let a = shifted(z.low, s - 64);
    let b = shifted(z.high, s - 64);
    w[at] = x.low;
    w[at + 1] = x.high + a.low;
    w[at + 2] = a.high + b.low;
    w[at + 3] = b.high;
}

// Writes the rows of the Paulis of a list, over s places, to the front of the area: rows of stride words, whose words past the
// first four are zero. `OnPlaces` is a fact of the words in the area, which the next store may change: no value carries it.
pub(crate) fn put_rows(w: &mut [u64; WORK_WORDS], list: Span, s: usize, stride: usize)
    requires { (list.count * stride ≤ list.base) × (4 ≤ stride) × (s ≤ 128) × OnPlaces s (list_in w.old list.base list.count) }
    ensures { w.new ≡ image stride (map (row_over s) (list_in w.old list.base list.count)) (drop (list.count * stride) w.old) }
{
    for i in 0..list.count {
        let at = i * stride;
        clear_bits(w, at + ROW_WORDS, stride - ROW_WORDS);
        let p = load(w, list.base + 5 * i);
        put_row(w, at, p, s);
    }
}
