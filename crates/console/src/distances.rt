// The distance of two units.
ghost use Rattle.std.specs.Prelude.{◌≡◌};
ghost use Rattle.iscc.specs.Distance.{distance};
ghost use Rattle.distance.specs.Representation.{measured_as};
ghost use Rattle.console.specs.Representation.{distance_answer_as};

// Number 0 is success. A refusal has d 0, n 0 and ratio +0.0.
#[repr(C)]
#[derive(Clone, Copy)]
pub struct DistanceAnswer {
    pub number: u32,
    pub d: u32,
    pub n: u32,
    pub ratio: f32,
}

#[unsafe(no_mangle)]
pub extern "C" fn iscc_distance(a: &[u8], b: &[u8]) -> DistanceAnswer
    ensures { result ≡ distance_answer_as (measured_as (distance a.now b.now)) }
{
    let m = distance::units::distance(a, b);
    DistanceAnswer {
        number: m.number,
        d: u32::from(m.distance.d),
        n: u32::from(m.distance.n),
        ratio: m.distance.ratio,
    }
}
