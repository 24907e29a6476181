// The pending issues log: records appended to a lent log, the writer that holds one, and the replay over a register.
#![tactic(auto)]

pub mod append;
mod apply;
mod check;
pub mod field;
pub mod replay;
pub mod writer;
