// The distance of two units.
ghost use Rattle.std.specs.Prelude.{◌≡◌, ◌≤◌, length};
ghost use Rattle.iscc.specs.Distance.{has_distance, distance};
ghost use Rattle.distance.specs.Representation.{distance_as, measured_as, result_as, body_distance, Holds, comparable_as, Exact};

use crate::answer::{Distance, Measured};
use crate::bits;
use iscc::main_type::{MainType, Name};
use iscc::refusal::Refusal;
use unit::reader::Unit;

// Whether units of a main type have a distance.
fn has_distance(main_type: MainType) -> bool
    ensures { result ≡ has_distance main_type }
{
    matches!(
        main_type.name(),
        Name::Meta | Name::Semantic | Name::Content | Name::Data
    )
}

// Whether main type (META to DATA) and subtype agree.
fn comparable(u: Unit, v: Unit) -> bool
    ensures { result ≡ comparable_as u v }
{
    u.main_type == v.main_type && has_distance(u.main_type) && u.subtype == v.subtype
}

// The distance of two bodies.
fn of_bodies(x: &[u8], y: &[u8]) -> Distance
    requires { length x.now ≤ 40 }
    ensures { result ≡ distance_as (body_distance x.now y.now) }
{
    Distance::new(bits::differing(x, y), bits::compared(x, y))
}

// The distance of two units that were read, u from a and v from b: 18.
fn between(a: &[u8], u: Unit, b: &[u8], v: Unit) -> Result<Distance, Refusal>
    requires { Holds a.now u × Holds b.now v }
    ensures { result ≡ result_as (distance a.now b.now) }
{
    let x = &a[u.start..];
    let y = &b[v.start..];
    if !comparable(u, v) {
        return Err(Refusal::NoDistance);
    }
    Ok(of_bodies(x, y))
}

// The distance of u, which was read from a, to the unit in b: 7, 8, 9, 19 on b, then 18.
fn against(a: &[u8], u: Unit, b: &[u8]) -> Result<Distance, Refusal>
    requires { Holds a.now u }
    ensures { result ≡ result_as (distance a.now b.now) }
{
    between(a, u, b, unit::one::read(b)?)
}

// The distance of the unit in a to the unit in b: 7, 8, 9, 19 on a, the same on b, then 18.
fn measure(a: &[u8], b: &[u8]) -> Result<Distance, Refusal>
    ensures { result ≡ result_as (distance a.now b.now) }
{
    against(a, unit::one::read(a)?, b)
}

// The same, with success and refusal in one struct.
pub fn distance(a: &[u8], b: &[u8]) -> Measured
    ensures answer { result ≡ measured_as (distance a.now b.now) }
    ensures bounds { (result.distance.d ≤ result.distance.n) × (result.distance.n ≤ 256) }
    ensures exact { Exact result.distance }
{
    Measured::from(measure(a, b))
}
