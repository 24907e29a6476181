// The answer of a distance.
ghost use Rattle.std.specs.Prelude.{◌≡◌};
ghost use Rattle.distance.specs.Representation.{distance_as, measure, measured_from};

use iscc::refusal::Refusal;

// The differing bits, the bits compared and their ratio. A refusal has 0, 0 and +0.0.
#[derive(Clone, Copy)]
pub struct Distance {
    pub d: u16,
    pub n: u16,
    pub ratio: f32,
}

// Number 0 is success.
#[derive(Clone, Copy)]
pub struct Measured {
    pub number: u32,
    pub distance: Distance,
}

impl Distance {
    pub const NONE: Distance = Distance {
        d: 0,
        n: 0,
        ratio: 0.0,
    };

    // d differing bits of n, with the ratio as one division of both counts.
    #[tactic(auto, unfolding(iscc::specs::Distance::ratio_of))]
    pub(crate) fn new(d: u16, n: u16) -> Distance
        ensures { result ≡ distance_as (measure d n) }
    {
        Distance {
            d,
            n,
            ratio: (d as f32) / (n as f32),
        }
    }
}

// Success and refusal in one struct: a refusal has its number and no distance.
impl From<Result<Distance, Refusal>> for Measured {
    ghost from_gives = { λ r m. m ≡ measured_from r };

    fn from(found: Result<Distance, Refusal>) -> Measured {
        match found {
            Ok(distance) => Measured {
                number: 0,
                distance,
            },
            Err(q) => Measured {
                number: q.number(),
                distance: Distance::NONE,
            },
        }
    }
}
