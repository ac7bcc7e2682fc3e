// Claims of other programs, that an element is a member or is none.
#![tactic(auto)]

// What is checked before a claim is looked at.
pub mod checks;
// Claims of membership.
pub mod membership;
// Paulis of a roll on the qubits of a support alone.
pub mod restricted;
// Claims of absence.
pub mod absence;
