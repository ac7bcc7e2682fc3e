// Every call for C and Rust: numbers and slices in, five numbers out.

#![tactic(auto)]

// The answer of a call, and what codes each kind of answer.
pub mod answer;
// The calls on rolls alone.
pub mod roll_calls;
// The calls on one list.
pub mod group_calls;
// The calls on two lists.
pub mod pair_calls;
// The call on a line that combines lists.
pub mod line_calls;
// The calls for what commutes with every Pauli of a list.
pub mod centralizer_calls;
// The calls that check claims.
pub mod claim_calls;
// The calls on a window of recent checks.
pub mod window_calls;
// The calls that tell sizes before the work.
pub mod size_calls;
// The echelon form of a matrix.
pub mod matrix_calls;
// The call for the closing listing.
pub mod report_calls;
