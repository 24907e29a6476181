// Byte strings as the layers above use them: blanks, compared, put in order, and numbers of a few bytes in them.
#![tactic(auto)]

pub mod blank;
pub mod compare;
pub mod number;
