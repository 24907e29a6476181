// The loans register as definitions and laws (specs/, proofs/), and its layout by name.
#![tactic(auto)]

pub mod layout;
