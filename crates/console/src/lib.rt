// The C entries of the standby console: include/iscc.h and include/loans.h declare them.
#![tactic(auto)]

pub mod codes;
pub mod composites;
pub mod distances;
pub mod doors;
pub mod lending;
pub mod logging;
pub mod promoting;
pub mod version;
