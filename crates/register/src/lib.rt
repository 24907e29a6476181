// The loans register in a lent area: whether an area is one, and its calls.
#![tactic(auto)]

mod admit;
pub mod answer;
pub mod area;
pub mod calls;
pub mod change;
pub mod check;
mod number;
