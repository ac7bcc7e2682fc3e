// Rows in a slice of words. A row is named by the word at which it starts and by how many words or columns of it count.
// Two rows lie in one lent slice (TwoRows), and either may be the first: two slices would need a split by cases at each call.
ghost use Rattle.std.specs.Prelude.{◌≡◌, ◌+◌, ◌/◌, ◌%◌, ◌^◌, ◌≤◌, ◌<◌, eqb, length, drop};
ghost use Rattle.binar.specs.Row.{bit, weight, dot};
ghost use Rattle.binar.specs.Words.{value, row_at, put_row, TwoRows};

// The bit of column k of the row at word at. A number: `reduce` adds a row times this bit, since a branch on it would be guessed
// wrong half of the time.
pub fn index(w: &[u64], at: usize, k: usize) -> u64
    requires { at + k / 64 < length w.now }
    ensures { result ≡ bit (value (drop at w.now)) k }
{
    (w[at + k / 64] >> (k % 64)) % 2
}

// Whether the row at word at has no one in its first cols columns.
pub(crate) fn is_zero(w: &[u64], at: usize, cols: usize) -> bool
    requires { at + (cols + 63) / 64 ≤ length w.now }
    ensures { result ≡ eqb (value (drop at w.now) % 2 ^ cols) 0 }
{
    let last = at + cols / 64;
    w[at..last].iter().all(|word| *word == 0)
        && (cols % 64 == 0 || w[last] % (1 << (cols % 64)) == 0)
}

// How many ones the row of n words at word at has. A loop: of a chain's sum the check leaves open that it fits.
pub fn weight(w: &[u64], at: usize, n: usize) -> usize
    requires { (at + n ≤ length w.now) × (n < 2 ^ 57) }
    ensures { result ≡ weight (row_at w.now at n) }
{
    let mut total = 0;
    for k in 0..n {
        total += w[at + k].count_ones() as usize;
    }
    total
}

// 1 where the rows of n words at words i and j share an odd number of ones, else 0: a number, as the definition's, which a caller
// can add. A loop: for a chain the check found no proof.
pub fn dot(w: &[u64], i: usize, j: usize, n: usize) -> u64
    requires { (i + n ≤ length w.now) × (j + n ≤ length w.now) }
    ensures { result ≡ dot (row_at w.now i n) (row_at w.now j n) }
{
    let mut shared = 0;
    for k in 0..n {
        shared ^= w[i + k] & w[j + k];
    }
    (shared.count_ones() % 2) as u64
}

// Makes the row of n words at word at zero.
pub fn clear_bits(w: &mut [u64], at: usize, n: usize)
    requires { at + n ≤ length w.old }
    ensures { w.new ≡ put_row w.old at n 0 }
{
    w[at..at + n].fill(0);
}

// Copies the row of n words at word from to word to.
pub fn assign(w: &mut [u64], to: usize, from: usize, n: usize)
    requires { TwoRows w.old to from n }
    ensures { w.new ≡ put_row w.old to n (row_at w.old from n) }
{
    w.copy_within(from..from + n, to);
}

// Exchanges the rows of n words at words i and j.
pub(crate) fn swap_rows(w: &mut [u64], i: usize, j: usize, n: usize)
    requires { TwoRows w.old i j n }
    ensures { w.new ≡ put_row (put_row w.old i n (row_at w.old j n)) j n (row_at w.old i n) }
{
    // Written out: `swap` of the slice looks at each word whether the two are one, and rows may be long.
    for k in 0..n {
        let x = w[i + k];
        w[i + k] = w[j + k];
        w[j + k] = x;
    }
}
