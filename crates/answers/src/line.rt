// A line to be written, made part by part.
ghost use Rattle.std.specs.Prelude.{◌≡◌, [], ◌++◌, ◌≤◌, length, take};
ghost use Rattle.answers.specs.Answers.{in_decimal};

use itoa::Buffer;
use std::marker::Model;

// The longest line, in bytes.
pub const LONGEST_LINE: usize = 200;

// A part that has no room behind the others is cut.
#[derive(Clone, Copy)]
pub struct Line {
    bytes: [u8; LONGEST_LINE],
    length: usize,
}

// Clauses see the line's bytes. Behind them are zeros, so that they tell the fields, which a copy needs.
impl Model for Line {
    ghost use Rattle.std.specs.Prelude.{ℕ, List, take};
    ghost use Rattle.answers.specs.LineArea.{area_of, length_of, IsLine, area_back, length-back};

    ghost Value = { List ℕ };

    ghost view = { λ l. take l.length l.bytes };

    ghost invariant = { λ l. IsLine l.bytes l.length };

    ghost inverse = { λ v. record { bytes = area_of v; length = length_of v } };

    ghost inverse_ok = { λ l h i. record { bytes = area_back l.bytes l.length h i; length = length-back l.bytes l.length h i } };
}

impl Line {
    pub fn new() -> Self
        ensures { result ≡ [] }
    {
        Line {
            bytes: [0; LONGEST_LINE],
            length: 0,
        }
    }

    // The first bytes of an area, and all of them where the length is above that of a line.
    pub fn from_parts(bytes: [u8; LONGEST_LINE], length: usize) -> Self
        ensures { result ≡ take length bytes }
    {
        let count = length.min(LONGEST_LINE);
        let mut line = Line::new();
        line.push(&bytes[..count]);
        line
    }

    pub fn as_bytes(&self) -> &[u8]
        ensures value { result.now ≡ self.now }
        ensures bound { length result.now ≤ LONGEST_LINE }
    {
        &self.bytes[..self.length]
    }

    pub fn push(&mut self, part: &[u8])
        ensures { self.new ≡ take LONGEST_LINE (self.old ++ part.now) }
    {
        let start = self.length;
        let count = part.len().min(LONGEST_LINE - start);
        self.bytes[start..start + count].copy_from_slice(&part[..count]);
        self.length = start + count;
    }

    // In decimal.
    pub fn push_number(&mut self, number: u64)
        ensures { self.new ≡ take LONGEST_LINE (self.old ++ in_decimal number) }
    {
        self.push(Buffer::new().format(number).as_bytes());
    }
}
