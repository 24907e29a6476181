// Units laid end to end: one pass over any number of them, and the tests that a list must pass.
#![tactic(auto)]

pub mod reader;
pub mod summary;
pub mod verdict;
