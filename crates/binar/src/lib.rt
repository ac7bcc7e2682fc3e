// Bit rows over GF(2) and the echelon form of a matrix, after the crate binar of microsoft/qdk-ec.
// Rows are stretches of one lent slice of 64-bit words, the lowest word first; the bit of column k is bit k % 64 of word
// k / 64. A matrix is rows of stride words, row i at i * stride.

#![tactic(auto)]

// One row, or two, in a slice.
pub mod row;
// Rows added to rows over GF(2).
pub mod sum;
// The pivot search and the reduction.
pub mod echelon;
// The echelon form of a matrix of any shape, and solving with it.
pub mod matrix_form;
// A basis of the kernel of a matrix of any shape.
pub mod kernel;
