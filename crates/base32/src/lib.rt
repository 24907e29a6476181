// Base32 of RFC 4648 without padding: capitals are written, either case is read.
#![tactic(auto)]

pub mod reader;
pub mod writer;
