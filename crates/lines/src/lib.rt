// The line program as a library: lines are answered from pieces of the input, however it is cut.
#![tactic(auto)]

mod answer;
mod begun;
pub mod feed;
mod refused;
pub mod scan;
