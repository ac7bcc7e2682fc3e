// A window: the last checks of those that were sent to it.
#![tactic(auto)]

// The bytes of a window.
pub mod layout;
// A roll without its first Paulis.
pub(crate) mod later;
// A check that enters.
pub(crate) mod entering;
// The round.
pub(crate) mod round;
// The calls on the checks.
pub mod calls;
// The calls on the marks.
pub mod marks;
