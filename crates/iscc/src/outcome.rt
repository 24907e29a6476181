// What C gets of every call that writes into a lent area.
ghost use Rattle.std.specs.Prelude.{◌≡◌};
ghost use Rattle.iscc.specs.Representation.{outcome_as};

use crate::refusal::Refusal;

// Number 0 is success, with how many bytes were written; a refusal has length 0.
#[repr(C)]
#[derive(Clone, Copy)]
pub struct Outcome {
    pub number: u32,
    pub length: usize,
}

// The specification's number and length: `number_in` and `length_in` of specs/Representation.antt.
impl From<Result<usize, Refusal>> for Outcome {
    ghost from_gives = { λ w o. o ≡ outcome_as w };

    fn from(written: Result<usize, Refusal>) -> Outcome {
        match written {
            Ok(length) => Outcome { number: 0, length },
            Err(q) => Outcome {
                number: q.number(),
                length: 0,
            },
        }
    }
}
