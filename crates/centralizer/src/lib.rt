// What commutes with every Pauli of a list.
#![tactic(auto)]

// The named support.
pub mod named;
// The matrix whose kernel is asked for.
pub mod stacked;
// The rows of the kernel as Paulis.
pub mod kernel;
// The calls.
pub mod calls;
