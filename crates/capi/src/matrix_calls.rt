// The echelon form of a matrix.
ghost use Rattle.capi.specs.CallContracts.{Forming};

use crate::answer::{Answer, code_form};
use binar::matrix_form::echelon_form;

// Reduces a matrix of rows rows of width words, of which cols columns count, in rows of width + (rows + 63) / 64 words.
#[unsafe(no_mangle)]
pub extern "C" fn howhiruke_echelon_form(
    words: &mut [u64],
    width: usize,
    rows: usize,
    cols: usize,
) -> Answer
    ensures { Forming words.old width rows cols result words.new }
{
    code_form(echelon_form(words, width, rows, cols))
}
