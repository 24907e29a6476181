// C entries of the public calls that the console does not use: for outside tests and benchmarks only.
#![tactic(auto)]

pub mod headers;
pub mod texts;
pub mod units;
