// The echelon forms of fixed matrices, sets of rows that sum to a target, and bases of their kernels.
//
// For each matrix: a line with its rank and pivots; its rows of R and T; the set of rows that sums to rows 0, 2, 4, ..; where the
// rank is below the number of columns, the answer for a target outside the row space; and the basis of the kernel.

#![tactic(auto)]

ghost use Rattle.std.specs.Prelude.{◌≡◌, ◌+◌, ◌*◌, ◌/◌, ◌^◌, ◌≤◌, ◌<◌, length};
ghost use Rattle.binar.specs.Layout.{FormLeft};
ghost use Rattle.matrices.specs.Room.{Room, SameBefore};

use arrayvec::ArrayVec;
use binar::echelon::Layout;
use binar::kernel::kernel_basis_matrix;
use binar::matrix_form::{echelon_form, transpose_solve};
use binar::row::{clear_bits, index};
use binar::sum::bitxor_assign;
use std::io;
use std::io::Write;

// ---- lines

// Holds what is written until a line ends or 1,024 bytes are full, and then writes it on in one call. std's `LineWriter` allocates.
#[derive(Drop)]
struct Lines<W: Write + Drop> {
    to: W,
    line: ArrayVec<u8, 1024>,
}

impl<W: Write + Drop> Lines<W> {
    fn new(to: W) -> Self {
        Lines {
            to,
            line: ArrayVec::new(),
        }
    }

    fn write_held(&mut self) -> io::Result<()> {
        let result = self.to.write_all(self.line.as_slice());
        self.line.clear();
        result
    }
}

impl<W: Write + Drop> Write for Lines<W> {
    fn write(&mut self, buf: &[u8]) -> io::Result<usize> {
        let n = self.line.write(buf)?;
        if self.line.is_full() || buf[..n].ends_with(b"\n") {
            self.write_held()?;
        }
        Ok(n)
    }

    fn flush(&mut self) -> io::Result<()> {
        self.write_held()?;
        self.to.flush()
    }
}

// ---- the form

// The first cols bits of the row at word at, or `-`. They go out by 64: a `write!` for each would cost more than all the rest.
fn print_bits<W: Write>(out: &mut W, w: &[u64], at: usize, cols: usize) -> io::Result<()>
    requires { at + (cols + 63) / 64 ≤ length w.now }
{
    if cols == 0 {
        return write!(out, "-");
    }
    let mut digits = [0u8; 64];
    for start in (0..cols).step_by(64) {
        let n = (cols - start).min(64);
        for k in 0..n {
            digits[k] = if index(w, at, start + k) == 1 {
                b'1'
            } else {
                b'0'
            };
        }
        out.write_all(&digits[..n])?;
    }
    Ok(())
}

// The pivots, each after a space, or `-`.
fn print_pivots<W: Write>(out: &mut W, pivots: &[u64]) -> io::Result<()> {
    if pivots.is_empty() {
        return writeln!(out, " -");
    }
    for pivot in pivots {
        write!(out, " {pivot}")?;
    }
    writeln!(out)
}

fn print_head<W: Write>(out: &mut W, rows: usize, cols: usize, pivots: &[u64]) -> io::Result<()> {
    write!(out, "{rows} by {cols} rank {} pivots", pivots.len())?;
    print_pivots(out, pivots)
}

// The rows: cols bits of R, and a bit of T for each row, behind R's width words.
fn print_rows<W: Write>(out: &mut W, w: &[u64], width: usize, shape: Layout) -> io::Result<()>
    requires { (shape.rows * shape.stride ≤ length w.now) × (shape.stride ≡ width + (shape.rows + 63) / 64) × (shape.cols ≤ 64 * width) }
{
    for i in 0..shape.rows {
        print_bits(out, w, i * shape.stride, shape.cols)?;
        write!(out, " ")?;
        print_bits(out, w, i * shape.stride + width, shape.rows)?;
        writeln!(out)?;
    }
    Ok(())
}

// ---- targets, in the row at word at behind the pivots

// Adds rows 0, 2, 4, .. to the target.
fn add_even_rows(w: &mut [u64], shape: Layout, at: usize)
    requires { (shape.rows * shape.stride + shape.rows ≤ at) × (at + shape.stride ≤ length w.old) }
{
    for i in (0..shape.rows).step_by(2) {
        bitxor_assign(w, at, i * shape.stride, shape.stride);
    }
}

// The first column that is no pivot: pivots rise, so before it each pivot is its own index.
fn free_column(pivots: &[u64]) -> usize
    ensures { result ≤ length pivots.now }
{
    for (k, pivot) in pivots.iter().enumerate() {
        if *pivot != k as u64 {
            return k;
        }
    }
    pivots.len()
}

// Flips the bit of column k of the row at word at.
fn flip(w: &mut [u64], at: usize, k: usize)
    requires { at + k / 64 < length w.old }
    ensures { SameBefore at w.old w.new }
{
    w[at + k / 64] ^= 1u64 << (k % 64);
}

// The target with a one in column k alone.
fn set_unit(w: &mut [u64], at: usize, stride: usize, k: usize)
    requires { (at + stride ≤ length w.old) × (k < 64 * stride) }
    ensures { SameBefore at w.old w.new }
{
    clear_bits(w, at, stride);
    flip(w, at, k);
}

// The line of a set of rows, a bit for each from word at on.
fn print_set<W: Write>(out: &mut W, w: &[u64], at: usize, rows: usize) -> io::Result<()>
    requires { at + (rows + 63) / 64 ≤ length w.now }
{
    write!(out, "solve ")?;
    print_bits(out, w, at, rows)?;
    writeln!(out)
}

// Prints the set of rows that sums to the target, or that there is none.
fn print_solution<W: Write>(
    out: &mut W,
    w: &mut [u64],
    width: usize,
    shape: Layout,
    rank: usize,
    at: usize,
) -> io::Result<()>
    requires { FormLeft w.old shape.stride shape.rows shape.cols rank at × (shape.stride ≡ width + (shape.rows + 63) / 64) }
    ensures { FormLeft w.new shape.stride shape.rows shape.cols rank at }
{
    if transpose_solve(w, shape, rank, at) {
        print_set(out, w, at + width, shape.rows)
    } else {
        writeln!(out, "solve none")
    }
}

// Prints the basis of the kernel of the matrix at the front of w.
fn print_kernel<W: Write>(out: &mut W, w: &mut [u64], width: usize, shape: Layout) -> io::Result<()>
    requires { shape.stride ≡ width + (shape.rows + 63) / 64 }
{
    let Some(count) = kernel_basis_matrix(w, width, shape.rows, shape.cols) else {
        return out.write_all(b"misfit\n");
    };
    writeln!(out, "kernel {count}")?;
    let at = shape.rows * shape.stride + shape.rows;
    for i in 0..count {
        print_bits(out, w, at + i * width, shape.cols)?;
        writeln!(out)?;
    }
    Ok(())
}

// Prints all that is said of the matrix at the front of w. Its T words and the target's row are zero at entry. Its kernel is that
// of R, which then stands there.
fn print_form<W: Write>(out: &mut W, w: &mut [u64], width: usize, shape: Layout) -> io::Result<()>
    requires { Room width shape.rows shape.cols (length w.old) × (shape.stride ≡ width + (shape.rows + 63) / 64) }
{
    let behind = shape.rows * shape.stride;
    let at = behind + shape.rows;
    add_even_rows(w, shape, at);
    let Some(rank) = echelon_form(w, width, shape.rows, shape.cols) else {
        return out.write_all(b"misfit\n");
    };
    print_head(out, shape.rows, shape.cols, &w[behind..behind + rank])?;
    print_rows(out, w, width, shape)?;
    print_solution(out, w, width, shape, rank, at)?;
    if rank < shape.cols {
        let free = free_column(&w[behind..behind + rank]);
        set_unit(w, at, shape.stride, free);
        print_solution(out, w, width, shape, rank, at)?;
    }
    print_kernel(out, w, width, shape)
}

// ---- matrices: `given`, `random` and `repeated` share three lines and differ in what fills the rows; a function over a closure
// that fills them is longer.

// The row at word at from its digits.
fn read_row(w: &mut [u64], at: usize, digits: &[u8])
    requires { at + (length digits.now + 63) / 64 ≤ length w.old }
{
    for (k, digit) in digits.iter().enumerate() {
        if *digit == b'1' {
            flip(w, at, k);
        }
    }
}

fn read_rows(w: &mut [u64], shape: Layout, text: &[u8])
    requires { (shape.rows * shape.stride ≤ length w.old) × (shape.rows * shape.cols ≤ length text.now) }
{
    for i in 0..shape.rows {
        read_row(
            w,
            i * shape.stride,
            &text[i * shape.cols..i * shape.cols + shape.cols],
        );
    }
}

// A matrix by its digits, row after row.
fn given<W: Write>(
    out: &mut W,
    width: usize,
    rows: usize,
    cols: usize,
    text: &[u8],
) -> io::Result<()>
    requires { Room width rows cols 2048 × (rows * cols ≤ length text.now) }
{
    let mut w = [0u64; 2048];
    let stride = width + (rows + 63) / 64;
    let shape = Layout { stride, rows, cols };
    read_rows(&mut w, shape, text);
    print_form(out, &mut w, width, shape)
}

// A linear congruential generator of pseudo-random bits: the highest bit of each state.
#[derive(Drop)]
struct Generator {
    state: u64,
    ghost small: { state < 2 ^ 32 },
}

impl Generator {
    fn new(seed: u32) -> Self {
        Generator { state: seed as u64 }
    }

    fn bit(&mut self) -> bool {
        self.state = (self.state * 1664525 + 1013904223) % 4294967296;
        self.state >= 2147483648
    }
}

// Rows of pseudo-random bits.
fn random_rows(w: &mut [u64], shape: Layout, seed: u32)
    requires { shape.rows * shape.stride ≤ length w.old }
{
    let mut generator = Generator::new(seed);
    for i in 0..shape.rows {
        for k in 0..shape.cols {
            if generator.bit() {
                flip(w, i * shape.stride, k);
            }
        }
    }
}

fn random<W: Write>(
    out: &mut W,
    width: usize,
    rows: usize,
    cols: usize,
    seed: u32,
) -> io::Result<()>
    requires { Room width rows cols 2048 }
{
    let mut w = [0u64; 2048];
    let stride = width + (rows + 63) / 64;
    let shape = Layout { stride, rows, cols };
    random_rows(&mut w, shape, seed);
    print_form(out, &mut w, width, shape)
}

// Adds to row half + i the rows i and half - 1 - i, for each i below half.
fn add_sums(w: &mut [u64], stride: usize, half: usize)
    requires { ((half + half) * stride ≤ length w.old) × (half < 2 ^ 32) }
{
    for i in 0..half {
        bitxor_assign(w, (half + i) * stride, i * stride, stride);
        bitxor_assign(w, (half + i) * stride, (half - 1 - i) * stride, stride);
    }
}

// 128 rows of 256 columns, the second half sums of rows of the first.
fn repeated<W: Write>(out: &mut W, seed: u32) -> io::Result<()> {
    let mut w = [0u64; 2048];
    let (stride, rows, cols) = (6, 64, 256);
    random_rows(&mut w, Layout { stride, rows, cols }, seed);
    add_sums(&mut w, stride, rows);
    let rows = rows + rows;
    print_form(out, &mut w, 4, Layout { stride, rows, cols })
}

fn main(rt: HostRuntime) -> io::Result<()> {
    let mut out = Lines::new(io::writer(&rt));
    given(&mut out, 0, 0, 0, b"")?;
    given(&mut out, 1, 0, 5, b"")?;
    given(&mut out, 0, 3, 0, b"")?;
    given(&mut out, 1, 1, 1, b"0")?;
    given(&mut out, 1, 1, 7, b"0010110")?;
    given(&mut out, 1, 4, 4, b"0110101111010111")?;
    given(&mut out, 1, 5, 5, b"0110110010111010101100111")?;
    given(&mut out, 1, 6, 4, b"001101101100010110101001")?;
    // Ones in columns 62 63 64 65, 63 64 67 68 and 62 64 66 67.
    given(
        &mut out,
        2,
        3,
        70,
        b"000000000000000000000000000000000000000000000000000000000000001111000000000000000000000000000000000000000000000000000000000000000000011001100000000000000000000000000000000000000000000000000000000000000010101100",
    )?;
    random(&mut out, 2, 65, 65, 1)?;
    random(&mut out, 4, 40, 256, 2)?;
    random(&mut out, 4, 128, 256, 3)?;
    repeated(&mut out, 4)?;
    out.flush()
}
