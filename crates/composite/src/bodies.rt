// A composite by value.
ghost use Rattle.composite.specs.Bodies.{Parts, Sound, parts};

use std::marker::Model;

// Its length number, by which the table of sets tells the units in it; its subtype; their bodies in the composite's order, then zeros.
#[derive(Clone, Copy)]
pub struct Composite {
    pub(crate) length_number: usize,
    pub(crate) subtype: u32,
    pub(crate) bodies: [[u8; 8]; 5],
}

impl Model for Composite {
    ghost Value = { Parts };

    ghost view = { λ c. parts c.length_number c.subtype c.bodies };

    ghost invariant = { λ c. Sound (parts c.length_number c.subtype c.bodies) };

    ghost inverse = { λ p. record { length_number = p.length_number; subtype = p.subtype; bodies = p.bodies } };
}
