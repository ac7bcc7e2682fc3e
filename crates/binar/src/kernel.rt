// A basis of the kernel of a matrix: of the rows that have an even overlap with each of its rows. It is read off the echelon form
// in the same slice.
ghost use Rattle.std.specs.Prelude.{◌≡◌, ◌+◌, ◌*◌, ◌^◌, ◌≤◌, ◌<◌, length, take, drop};
ghost use Rattle.binar.specs.Row.{◌⊕◌};
ghost use Rattle.binar.specs.Words.{row_at, put_row, put_rows, matrix};
ghost use Rattle.binar.specs.Kernel.{kernel_row, kernel_of};
ghost use Rattle.binar.specs.Layout.{form_in, KernelRoom, kernel_fits, KernelIs};

use crate::echelon::Layout;
use crate::matrix_form::{echelon_form, fits_in, unit_row};
use crate::row::index;

// Adds a bit to column k of the row of n words at word at.
fn add_bit(w: &mut [u64], at: usize, n: usize, k: usize, bit: u64)
    requires { (at + n ≤ length w.old) × (k < 64 * n) × (bit ≤ 1) }
    ensures { w.new ≡ put_row w.old at n (row_at w.old at n ⊕ bit * 2 ^ k) }
{
    w[at + k / 64] ^= bit << (k % 64);
}

// Writes the row of a free column to the width words from word at on: a one in this column, and at each pivot the bit of the
// pivot's row in it.
fn write_kernel_row(w: &mut [u64], shape: Layout, rank: usize, col: usize, at: usize, width: usize)
    requires { KernelRoom w.old shape.stride shape.rows shape.cols rank at width 1 × (col < shape.cols) }
    ensures { w.new ≡ put_row w.old at width (kernel_row (take rank (drop (shape.rows * shape.stride) w.old)) (matrix shape.stride shape.rows w.old) col) }
{
    unit_row(w, at, 0, width, col);
    for k in 0..rank {
        let pivot = w[shape.rows * shape.stride + k] as usize;
        let bit = index(w, k * shape.stride, col);
        add_bit(w, at, width, pivot, bit);
    }
}

// Writes the basis's rows, width words each, from word at on, by a form with rank pivots in the slice: one for each free column,
// rising. Returns how many there are.
pub fn write_kernel(w: &mut [u64], shape: Layout, rank: usize, at: usize, width: usize) -> usize
    requires { KernelRoom w.old shape.stride shape.rows shape.cols rank at width shape.cols }
    ensures count { result ≡ length (kernel_of shape.cols (form_in shape.stride shape.rows width shape.cols rank w.old)) }
    ensures left { w.new ≡ put_rows w.old at width (kernel_of shape.cols (form_in shape.stride shape.rows width shape.cols rank w.old)) }
{
    let pivots = shape.rows * shape.stride;
    let mut count = 0;
    for col in 0..shape.cols {
        if !w[pivots..pivots + rank].contains(&(col as u64)) {
            write_kernel_row(w, shape, rank, col, at + count * width, width);
            count += 1;
        }
    }
    count
}

// Whether the form of a matrix of rows rows, cols columns in width words each, fits a slice of n words, and behind it a row for
// each column.
fn kernel_fits_in(width: usize, rows: usize, cols: usize, n: usize) -> bool
    requires { n < 2 ^ 60 }
    ensures { result ≡ kernel_fits width rows cols n }
{
    if !fits_in(width, rows, cols, n) {
        return false;
    }
    if cols == 0 {
        return true;
    }
    let room = n - rows * (width + (rows + 63) / 64) - rows;
    width <= room / cols
}

// A basis of the kernel of a matrix of any shape: rows rows of width words, of which cols columns count, laid out as for
// `echelon_form`, which it leaves reduced. The basis's rows, width words each, come behind the form and the rows words for
// pivots. Returns how many there are; or None where there is no room for the form and a row for each column: the slice is then
// left alone.
pub fn kernel_basis_matrix(w: &mut [u64], width: usize, rows: usize, cols: usize) -> Option<usize>
    ensures { KernelIs w.old width rows cols result w.new }
{
    if !kernel_fits_in(width, rows, cols, w.len()) {
        return None;
    }
    let rank = echelon_form(w, width, rows, cols).unwrap();
    let stride = width + (rows + 63) / 64;
    let shape = Layout { stride, rows, cols };
    Some(write_kernel(w, shape, rank, rows * stride + rows, width))
}
