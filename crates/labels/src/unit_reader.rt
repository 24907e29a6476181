// The reader of one unit.
use crate::say::{Hex, Out};
use std::fmt;
use std::fmt::Write;
use unit::reader::Unit;

fn item(out: &mut Out<'_>, u: Unit) -> fmt::Result {
    let main_type = u.main_type.number();
    write!(
        out,
        "main type {main_type}, subtype {}, version {}, length {}, body from byte {} to {}",
        u.subtype, u.version, u.length_number, u.start, u.used
    )
}

fn read(out: &mut Out<'_>, bytes: &[u8]) -> fmt::Result {
    match unit::reader::read(bytes) {
        Ok(u) => item(out, u)?,
        Err(q) => out.refused(q)?,
    }
    writeln!(out)
}

// A header of two bytes with nothing behind it.
fn alone(out: &mut Out<'_>, header: [u8; 2]) -> fmt::Result {
    write!(out, "unit reader {}: ", Hex(&header))?;
    read(out, &header)
}

// A header of two bytes with 48 zeros behind it.
fn header(out: &mut Out<'_>, header: [u8; 2]) -> fmt::Result {
    write!(out, "unit reader {}, zeros: ", Hex(&header))?;
    let mut bytes = [0u8; 50];
    bytes[..2].copy_from_slice(&header);
    read(out, &bytes)
}

// A wide composite's header, and subtype 7 with another length.
pub fn labels(out: &mut Out<'_>) -> fmt::Result {
    alone(out, [0x57, 0])?;
    header(out, [0x57, 0])?;
    header(out, [0x57, 1])
}

// Published by the reference library, its encode_length: 32, 64, 96 bits; the sets of a composite by number; 64, 72, 80 bits of an ID.
pub fn published(out: &mut Out<'_>) -> fmt::Result {
    for bytes in [
        [0, 0],
        [0, 1],
        [0, 2],
        [0x55, 0],
        [0x50, 1],
        [0x50, 2],
        [0x50, 3],
        [0x56, 4],
        [0x50, 5],
        [0x60, 0],
        [0x60, 1],
        [0x60, 2],
    ] {
        header(out, bytes)?;
    }
    Ok(())
}
