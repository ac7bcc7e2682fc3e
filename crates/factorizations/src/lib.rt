// Factorizations of a whole roll of elements.
#![tactic(auto)]

// What membership tells of each element, kept in the work area.
pub mod stored;
// The records of these results.
pub mod records;
// What the call answers.
pub mod answers;
// The call.
pub mod calls;
