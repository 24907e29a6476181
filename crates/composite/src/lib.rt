// Composites: units joined to one, and one split into its units.
#![tactic(auto)]

mod bodies;
pub mod code;
mod gather;
pub mod join;
pub mod split;
mod wide;
mod writer;
