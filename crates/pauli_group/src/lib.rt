// The group that a list of signed Paulis generates, after the module pauli_group of the crate paulimer of microsoft/qdk-ec.

#![tactic(auto)]

// What the caller promises of a list.
pub mod promise;
// Where the work area holds what, the words of it that a call uses, the lists in it, and how it is cleared.
pub mod area;
// Lists of Paulis read into the area, and copied in it.
pub mod list;
// Lists of Paulis kept in words.
pub mod kept;
// Where a list comes from: a roll, or words that keep it.
pub mod source;
// Paulis as rows of a matrix.
pub(crate) mod rows;
// The echelon form of a list.
pub mod form;
// Tests and changes of the phases of a list.
pub mod scan;
// Standard generators.
pub mod standard;
// The group of a list: its form and its standard generators in the work area.
pub mod group;
// Membership: an element put to the form of a list.
pub mod member;
// What the calls answer.
pub mod answers;
// What is checked before a call works.
pub mod checks;
// The calls for standard generators, rank, phases, abelian, stabilizer and size.
pub mod calls;
// The call for membership.
pub mod factorization;
// The call for the listing of a group's elements.
pub mod listing;
// The call for symplectic pairing.
pub mod symplectic;
// The call for comparison.
pub mod order;
// Paulis moved from the places of one support to those of another.
pub mod moved;
// The further list.
pub mod further;
// The call for the remainder of a list by another.
pub mod modulo;
// The call for the quotient of a list by another.
pub mod quotient;
// The common basis of two groups.
pub(crate) mod basis;
// Exponents noted for the elements of the common basis.
pub(crate) mod noted;
// The elements of the common basis that the common part is made of.
pub(crate) mod whole;
// The call for the common part.
pub mod common;
