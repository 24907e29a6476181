// The register's 256 places: one of them, their order, the search, a place put in or taken out; and the counts in front of them.
#![tactic(auto)]

pub mod code;
pub mod counts;
pub mod moves;
pub mod order;
pub mod ordered;
pub mod place;
pub mod search;
