// A line that combines lists, such as `A|B&C/D`.
#![tactic(auto)]

// The form of a line.
pub mod form;
// The letters and the depth of a line.
pub mod sent;
// The check of a line.
pub mod line;
// Lists kept in slots of the work area.
pub(crate) mod slot;
// The operations on lists in slots.
pub(crate) mod operate;
// A line worked out.
pub(crate) mod work;
// The call.
pub mod combine;
