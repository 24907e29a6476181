// The text doors.
use crate::say::Out;
use std::fmt;
use std::fmt::Write;

fn put(out: &mut Out<'_>, text: &str) -> fmt::Result {
    let mut area = [0u8; 73];
    match door::intake::intake(text.as_bytes(), &mut area) {
        Ok(n) => out.bytes(&area[0..n]),
        Err(q) => out.refused(q),
    }
}

fn intake_and(out: &mut Out<'_>, text: &str, note: &str) -> fmt::Result {
    write!(out, "intake '{text}': ")?;
    put(out, text)?;
    writeln!(out, "{note}")
}

fn intake(out: &mut Out<'_>, text: &str) -> fmt::Result {
    intake_and(out, text, "")
}

fn strict(out: &mut Out<'_>, text: &str) -> fmt::Result {
    write!(out, "strict '{text}': ")?;
    match door::strict::strict(text.as_bytes()) {
        Ok(()) => write!(out, "accepted")?,
        Err(q) => out.refused(q)?,
    }
    writeln!(out)
}

// The line case, one unit, and what a list may not hold.
pub fn labels(out: &mut Out<'_>) -> fmt::Result {
    for text in [
        "GAAW2PRCRS5LNVZV-IAAUVACQKXE3V44W",
        "IAAUVACQKXE3V44W-GAAW2PRCRS5LNVZV",
        "iscc:maagztfqttvizpjr",
        "",
        "Iscc:Maagztfqttvizpjr",
        "GAAW2PRCRS5LNVZV",
        "GAAW2PRCRS5LNVZVGAAW2PRCRS5LNVZV",
        "GAAW2PRCRS5LNVZV-MAAGZTFQTTVIZPJR",
    ] {
        intake(out, text)?;
    }
    for text in [
        "ISCC:KUAG2PRCRS5LNVZVJKAFAVOJXLZZM",
        "GAAW2PRCRS5LNVZV-IAAUVACQKXE3V44W",
        "ISCC:GAAW2PRCRS5LNVZV",
        "iscc:maagztfqttvizpjr",
    ] {
        strict(out, text)?;
    }
    Ok(())
}

pub fn short(out: &mut Out<'_>) -> fmt::Result {
    for text in ["ISCC", "AB", "A", "A1", "AA", "ISCC:", "-", "   "] {
        intake(out, text)?;
    }
    Ok(())
}

// Published by the reference library: the inputs and the example of its iscc_normalize.
pub fn published(out: &mut Out<'_>) -> fmt::Result {
    intake(out, "MEACB7X7777574L6")?;
    intake(out, "ISCC:MEACB7X7777574L6")?;
    intake_and(
        out,
        "fcc010001657fe7cafe9791bb",
        " (the library takes base16 behind an f; the specification has base32 only)",
    )?;
    intake(out, "iscc:maagztfqttvizpjr")?;
    intake(out, "Iscc:Maagztfqttvizpjr")?;
    intake(out, "GAAW2PRCRS5LNVZV-IAAUVACQKXE3V44W")?;
    strict(out, "ISCC:MEACB7X7777574L6")
}
