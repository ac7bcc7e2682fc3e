// The echelon form of a matrix of any shape, and solving with it.
ghost use Rattle.std.specs.Prelude.{◌≡◌, ◌+◌, ◌*◌, ◌/◌, ◌%◌, ◌^◌, ◌≤◌, ◌<◌, length, drop};
ghost use Rattle.binar.specs.Words.{row_at, put_row, matrix, image};
ghost use Rattle.binar.specs.Echelon.{beside_identity};
ghost use Rattle.binar.specs.Layout.{fits, FormIs, FormLeft, SolutionIs};

use crate::echelon::{Layout, echelonize};
use crate::row::{clear_bits, index, is_zero};
use crate::sum::bitxor_assign;

// Writes row i of the identity behind the first width words of the row of stride words at word at.
pub(crate) fn unit_row(w: &mut [u64], at: usize, width: usize, stride: usize, i: usize)
    requires { (at + stride ≤ length w.old) × (width + i / 64 < stride) }
    ensures { w.new ≡ put_row w.old at stride (row_at w.old at stride % 2 ^ (64 * width) + 2 ^ (64 * width) * 2 ^ i) }
{
    clear_bits(w, at + width, stride - width);
    w[at + width + i / 64] = 1u64 << (i % 64);
}

// Writes the identity behind the first width words of the rows.
fn write_identity(w: &mut [u64], width: usize, shape: Layout)
    requires { (shape.rows * shape.stride ≤ length w.old) × (width + (shape.rows + 63) / 64 ≤ shape.stride) }
    ensures { w.new ≡ image shape.stride (beside_identity (64 * width) 0 (matrix shape.stride shape.rows w.old)) (drop (shape.rows * shape.stride) w.old) }
{
    for i in 0..shape.rows {
        unit_row(w, i * shape.stride, width, shape.stride, i);
    }
}

// Whether a matrix of rows rows, cols columns in width words each, fits a slice of n words with T and the pivots.
pub(crate) fn fits_in(width: usize, rows: usize, cols: usize, n: usize) -> bool
    requires { n < 2 ^ 60 }
    ensures { result ≡ fits width rows cols n }
{
    if width < cols / 64 + (cols % 64 + 63) / 64 {
        return false;
    }
    if rows == 0 {
        return true;
    }
    if n < rows {
        return false;
    }
    if n < width {
        return false;
    }
    width + (rows + 63) / 64 < n / rows
}

// The echelon form of a matrix of any shape: rows rows of width words, of which cols columns count, in rows of
// width + (rows + 63) / 64 words, so that T's words stand behind R's. The pivots come behind the rows. Returns the rank; or
// None where the shape does not fit the slice, which is then left alone.
pub fn echelon_form(w: &mut [u64], width: usize, rows: usize, cols: usize) -> Option<usize>
    ensures { FormIs w.old width rows cols result w.new }
{
    if !fits_in(width, rows, cols, w.len()) {
        return None;
    }
    let stride = width + (rows + 63) / 64;
    let shape = Layout { stride, rows, cols };
    write_identity(w, width, shape);
    Some(echelonize(w, shape))
}

// Whether a set of rows sums to the target, the row at word at, by a form with rank pivots in the slice: adds each pivot row
// to the target's row if that has a one at the pivot, which leaves the set in that row's T words.
pub fn transpose_solve(w: &mut [u64], shape: Layout, rank: usize, at: usize) -> bool
    requires { FormLeft w.old shape.stride shape.rows shape.cols rank at }
    ensures { SolutionIs w.old shape.stride shape.rows shape.cols rank at result w.new }
{
    for k in 0..rank {
        let pivot = w[shape.rows * shape.stride + k] as usize;
        if index(w, at, pivot) == 1 {
            bitxor_assign(w, at, k * shape.stride, shape.stride);
        }
    }
    is_zero(w, at, shape.cols)
}
