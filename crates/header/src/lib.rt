// Raw headers: four varnibbles, and a zero nibble behind an odd count of nibbles.
#![tactic(auto)]

pub mod reader;
mod rows;
pub mod writer;

// The four numbers of a raw header, 0 to 4679 where it was read; not yet a main type.
#[derive(Clone, Copy)]
pub struct Header {
    pub main_type: u32,
    pub subtype: u32,
    pub version: u32,
    pub length_number: u32,
}
