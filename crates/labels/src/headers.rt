// Varnibble numbers and raw headers.
use crate::say::{Hex, Out};
use header::Header;
use std::fmt;
use std::fmt::Write;

fn put(out: &mut Out<'_>, h: Header) -> fmt::Result {
    let mut bytes = [0u8; 8];
    match header::writer::write(h, &mut bytes) {
        Ok(n) => write!(out, "{}", Hex(&bytes[0..n])),
        Err(q) => out.refused(q),
    }
}

fn write(out: &mut Out<'_>, main_type: u32, subtype: u32) -> fmt::Result {
    write!(out, "header writer {main_type} {subtype} 0 0: ")?;
    put(
        out,
        Header {
            main_type,
            subtype,
            version: 0,
            length_number: 0,
        },
    )?;
    writeln!(out)
}

fn read(out: &mut Out<'_>, bytes: &[u8]) -> fmt::Result {
    write!(out, "header reader {}: ", Hex(bytes))?;
    match header::reader::read(bytes) {
        Ok(raw) => {
            let h = raw.header;
            write!(
                out,
                "{} {} {} {} in {} bytes",
                h.main_type, h.subtype, h.version, h.length_number, raw.used
            )?;
        }
        Err(q) => out.refused(q)?,
    }
    writeln!(out)
}

// The ends of each row of varnibbles, written and read as main types.
pub fn numbers(out: &mut Out<'_>) -> fmt::Result {
    for main_type in [7, 8, 71, 72, 583, 584, 4679, 4680] {
        write(out, main_type, 0)?;
    }
    read(out, &[0x70, 0])?;
    read(out, &[0x80, 0, 0])?;
    read(out, &[0xBF, 0, 0])?;
    read(out, &[0xC0, 0, 0])?;
    read(out, &[0xDF, 0xF0, 0])?;
    read(out, &[0xE0, 0, 0, 0])?;
    read(out, &[0xEF, 0xFF, 0, 0])
}

pub fn labels(out: &mut Out<'_>) -> fmt::Result {
    write(out, 5, 5)?;
    read(out, &[0x55, 0])?;
    read(out, &[0x80, 0, 1])
}
