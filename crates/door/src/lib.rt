// The text doors: a typed text is read as one code and written as its one text.
#![tactic(auto)]

pub mod code;
pub mod intake;
pub mod strict;
pub mod text;
