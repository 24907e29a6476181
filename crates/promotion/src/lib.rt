// May a replica be promoted? The log is replayed from empty, and the register that this gives is held against the replica.
#![tactic(auto)]

pub mod answer;
pub mod check;
pub mod compare;
mod difference;
