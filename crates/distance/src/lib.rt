// The distance of two units.
#![tactic(auto)]

pub mod answer;
mod bits;
pub mod units;
