// The lines that the programs answer, made part by part.
#![tactic(auto)]

pub mod line;
pub mod replies;
pub mod sentences;
