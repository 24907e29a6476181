// What all layers share: refusals and main types by name, what C gets of a writer, and a code by value.
#![tactic(auto)]

pub mod code;
pub mod main_type;
pub mod other_number;
pub mod outcome;
pub mod refusal;
