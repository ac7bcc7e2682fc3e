// Rows added to rows over GF(2). The two lie in one lent slice, and either may be the first (TwoRows): two slices would need a
// split by cases at each call.
ghost use Rattle.std.specs.Prelude.{◌≡◌, ◌+◌, ◌*◌, ◌^◌, ◌≤◌, ◌<◌};
ghost use Rattle.binar.specs.Row.{◌⊕◌, bit};
ghost use Rattle.binar.specs.Words.{row_at, put_row, TwoRows};

// The word x with y added over GF(2), if bit is 1.
fn added_word(x: u64, y: u64, bit: u64) -> u64
    requires { bit ≤ 1 }
    ensures { result ≡ x ⊕ bit * y }
{
    x ^ ((bit * u64::MAX) & y)
}

// Adds the row of N words at word from to the one at word to, if bit is 1. All sums are made before the first is stored, so that
// they can be made side by side.
fn add_row<const N: usize>(w: &mut [u64], to: usize, from: usize, bit: u64)
    requires { TwoRows w.old to from N × (bit ≤ 1) }
    ensures { w.new ≡ put_row w.old to N (row_at w.old to N ⊕ bit * row_at w.old from N) }
{
    let mut sums = [0; N];
    for k in 0..N {
        sums[k] = added_word(w[to + k], w[from + k], bit);
    }
    w[to..to + N].copy_from_slice(&sums);
}

// Adds n words of a row to those of another, if bit is 1. Not by `add_row`: n is no constant.
fn add_words(w: &mut [u64], to: usize, from: usize, n: usize, bit: u64)
    requires { TwoRows w.old to from n × (bit ≤ 1) }
    ensures { w.new ≡ put_row w.old to n (row_at w.old to n ⊕ bit * row_at w.old from n) }
{
    for k in 0..n {
        w[to + k] = added_word(w[to + k], w[from + k], bit);
    }
}

// Adds the row of n words at word from to the one at word to, over GF(2), if bit is 1. It does the same work for both bits, since a
// branch on the bit would be guessed wrong half of the time. Rows of five and six words, as a list of at most 128 has, are added by
// `add_row`, whose length is a constant of its type; `add_words` serves any length.
pub(crate) fn add_if(w: &mut [u64], to: usize, from: usize, n: usize, bit: u64)
    requires { TwoRows w.old to from n × (bit ≤ 1) }
    ensures { w.new ≡ put_row w.old to n (row_at w.old to n ⊕ bit * row_at w.old from n) }
{
    match n {
        5 => add_row::<5>(w, to, from, bit),
        6 => add_row::<6>(w, to, from, bit),
        _ => add_words(w, to, from, n, bit),
    }
}

// Adds the row of n words at word from to the one at word to, over GF(2).
pub fn bitxor_assign(w: &mut [u64], to: usize, from: usize, n: usize)
    requires { TwoRows w.old to from n }
    ensures { w.new ≡ put_row w.old to n (row_at w.old to n ⊕ row_at w.old from n) }
{
    add_if(w, to, from, n, 1);
}
