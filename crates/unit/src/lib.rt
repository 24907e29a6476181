// Single units: which headers are permitted, the readers of one unit or composite, and the unit writer.
#![tactic(auto)]

pub mod one;
pub mod permitted;
pub mod reader;
pub mod writer;
