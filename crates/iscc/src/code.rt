// A code by value: what reads or makes a code answers one, and no caller lends an area for it.
ghost use Rattle.std.specs.Prelude.{◌≡◌, [], take};
ghost use Rattle.iscc.specs.Answer.{refuse};
ghost use Rattle.iscc.specs.Representation.{code_as, code_read_as};

use crate::refusal::{DetailedRefusal, Refusal};

// The longest code, a composite of all five units, in bytes.
pub const LONGEST_CODE: usize = 42;

// The bytes of one unit or composite, filled up with zeros, and how many they are: fixed memory, as C gets it.
#[derive(Clone, Copy)]
pub struct Code {
    pub bytes: [u8; LONGEST_CODE],
    pub length: usize,
}

impl Code {
    // Its bytes, without the zeros behind them. No ghost field bounds the length: the definitions make a Code of bytes of any length.
    #[tactic(auto, using(std::proofs::lemmas::List::take_min))]
    pub fn as_bytes(&self) -> &[u8]
        ensures { result.now ≡ take self.now.length self.now.bytes }
    {
        &self.bytes[..self.length.min(LONGEST_CODE)]
    }
}

// What C is told where there is no code.
#[tactic(auto, unfolding(crate::specs::Representation::code_as, crate::specs::Lists::zero_filled))]
pub fn none() -> Code
    ensures { result ≡ code_as [] }
{
    Code {
        bytes: [0; LONGEST_CODE],
        length: 0,
    }
}

// No code, but a refusal and its detail.
pub fn refused(q: Refusal, detail: usize) -> Result<Code, DetailedRefusal>
    ensures { result ≡ code_read_as detail (refuse q) }
{
    Err(q.with_detail(detail))
}
