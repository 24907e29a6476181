// The distance of two units.
use crate::say::{Hex, Out};
use distance::answer::Distance;
use std::fmt;
use std::fmt::Write;

fn answer(out: &mut Out<'_>, m: Distance) -> fmt::Result {
    let ratio = if m.ratio == 0.28125 {
        "ratio 0.28125"
    } else {
        "another ratio"
    };
    write!(out, "d {}, n {}, {ratio}", m.d, m.n)
}

fn distance(out: &mut Out<'_>, a: &[u8], b: &[u8]) -> fmt::Result {
    write!(out, "distance {} {}: ", Hex(a), Hex(b))?;
    let m = distance::units::distance(a, b);
    if m.number == 0 {
        answer(out, m.distance)?;
    } else {
        write!(out, "refused {}", m.number)?;
    }
    writeln!(out)
}

pub fn labels(out: &mut Out<'_>) -> fmt::Result {
    distance(out, &[0x30, 0, 0, 0, 0, 0], &[0x30, 0, 0xFF, 0, 0, 1])
}
