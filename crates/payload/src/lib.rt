// The bytes that a typed text holds: blanks, scheme and hyphens are dropped, and the run that is left is read as base32.
#![tactic(auto)]

pub mod reader;
mod run;
pub mod scheme;
mod span;
mod trim;
