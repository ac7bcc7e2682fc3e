// Signed Paulis and the rolls that hold them, after the crate paulimer of microsoft/qdk-ec.

#![tactic(auto)]

// Why a call is refused.
pub mod refusal;
// Numbers in bytes.
pub mod bytes;
// Qubits and their places in a support: the rising list of the qubits in use.
pub mod support;
// Rolls: the reader.
pub mod roll;
// Sets of places.
pub mod places;
// Signed Paulis.
pub mod signed;
// Paulis of a roll over the places of a support.
pub mod condense;
// Written rolls.
pub mod write;
// Two rolls joined.
pub mod joined;
// The lookups of a generator of a joined list.
pub mod lookup;
// The joined roll.
pub mod join;
// The call for the product of two Paulis of rolls.
pub mod product;
// Products on one qubit, by a table.
pub mod one_qubit;
