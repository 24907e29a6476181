// What the programs of the two halls answer, as functions on slices: commands served, the sheet, the standby's answers.
#![tactic(auto)]

mod faults;
mod names;
pub mod serving;
pub mod sheet;
pub mod standby;
