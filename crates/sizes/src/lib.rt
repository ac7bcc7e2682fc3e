// How large a result will be, told without making it: the joined roll, the roll of standard generators, and a page of the listing.
#![tactic(auto)]

// What the calls answer.
pub mod answers;
// The call for the sizes of two lists joined.
pub mod joined;
// The call for the bound on standard generators.
pub mod bound;
// The call for the size of a page.
pub mod page;
