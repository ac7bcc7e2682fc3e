// The reduction of a matrix in a slice.
//
// The pivots stand behind the matrix's rows, a word each. The words of a row past its matrix's columns take part in every swap
// and addition, so that T, kept there, needs no work of its own.
ghost use Rattle.std.specs.Prelude.{◌≡◌, ◌+◌, ◌*◌, ◌≤◌, ◌<◌, length, drop, IfSome};
ghost use Rattle.binar.specs.Words.{row_at, matrix, image};
ghost use Rattle.binar.specs.Echelon.{pivot_of, add_to_others, echelonize};
ghost use Rattle.binar.specs.Laid.{laid_out};

use crate::row::{index, swap_rows};
use crate::sum::add_if;

// How a matrix lies in a slice: rows rows of stride words, row i at i * stride, of which cols columns count. It does not hold the
// slice, which is lent for changing: that it fits (rows * stride ≤ length) stands in each contract.
#[derive(Clone, Copy)]
pub struct Layout {
    pub stride: usize,
    pub rows: usize,
    pub cols: usize,
    pub ghost wide: { cols ≤ 64 * stride },
}

// The cell of a matrix in row row and column col.
#[derive(Clone, Copy)]
pub(crate) struct Cell {
    pub row: usize,
    pub col: usize,
}

// The first cell that holds a one, column by column from that of start on, each from the row of start down.
fn pivot_of(w: &[u64], shape: Layout, start: Cell) -> Option<Cell>
    requires { shape.rows * shape.stride ≤ length w.now }
    ensures first { result ≡ pivot_of shape.cols start.row start.col (matrix shape.stride shape.rows w.now) }
    ensures inside { IfSome result (λ cell. (start.row ≤ cell.row) × (cell.row < shape.rows) × (cell.col < shape.cols)) }
{
    'search: {
        for col in start.col..shape.cols {
            for row in start.row..shape.rows {
                if index(w, row * shape.stride, col) == 1 {
                    break 'search Some(Cell { row, col });
                }
            }
        }
        None
    }
}

// Adds row pivot.row to all other rows with a one in column pivot.col.
fn reduce(w: &mut [u64], shape: Layout, pivot: Cell)
    requires { (shape.rows * shape.stride ≤ length w.old) × (pivot.row < shape.rows) × (pivot.col < shape.cols) }
    ensures { w.new ≡ image shape.stride (add_to_others pivot.col (row_at w.old (pivot.row * shape.stride) shape.stride) pivot.row 0 (matrix shape.stride shape.rows w.old)) (drop (shape.rows * shape.stride) w.old) }
{
    let stride = shape.stride;
    for i in 0..shape.rows {
        if i != pivot.row {
            let bit = index(w, i * stride, pivot.col);
            add_if(w, i * stride, pivot.row * stride, stride, bit);
        }
    }
}

// Reduces the matrix in place, writes the pivots behind its rows, and returns how many there are.
pub(crate) fn echelonize(w: &mut [u64], shape: Layout) -> usize
    requires { shape.rows * shape.stride + shape.rows ≤ length w.old }
    ensures rank { result ≡ length (echelonize shape.cols (matrix shape.stride shape.rows w.old)).pivots }
    ensures left { w.new ≡ laid_out shape.stride (echelonize shape.cols (matrix shape.stride shape.rows w.old)) w.old }
{
    let stride = shape.stride;
    let mut next = Cell { row: 0, col: 0 };
    // Where each row has a pivot there is nothing to look for, and the columns left may be any number: a matrix without rows fits any
    // slice.
    while next.row < shape.rows {
        let Some(found) = pivot_of(w, shape, next) else {
            break;
        };
        let pivot = Cell {
            row: next.row,
            ..found
        };
        swap_rows(w, found.row * stride, pivot.row * stride, stride);
        reduce(w, shape, pivot);
        w[shape.rows * stride + pivot.row] = pivot.col as u64;
        next = Cell {
            row: pivot.row + 1,
            col: pivot.col + 1,
        };
    }
    next.row
}
