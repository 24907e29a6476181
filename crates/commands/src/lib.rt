// Command lines: their words, and the command that they are.
#![tactic(auto)]

pub mod command;
mod words;
