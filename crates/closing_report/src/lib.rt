// The closing listing as bytes.

#![tactic(auto)]

// Texts and decimal numbers.
pub(crate) mod text;
// The lines of the listing.
pub mod lines;
// The lines of the results of membership that stand in the work area.
pub mod stored;
// A whole text, written where there is room.
pub mod listing;
// The two rolls of an input.
pub mod input;
// The call.
pub mod report;
