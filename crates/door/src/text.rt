// The one text of a code, written.
ghost use Rattle.std.specs.Prelude.{◌≡◌, ◌++◌, ◌≤◌, length, drop};
ghost use Rattle.iscc.specs.Answer.{accept, area_after, into};
ghost use Rattle.iscc.specs.Doors.{scheme, write_text};
ghost use Rattle.iscc.specs.Representation.{written_as};
ghost use Rattle.door.specs.Codes.{text_of_code};

use iscc::refusal::Refusal;
use payload::scheme::SCHEME;

// The longest text that is written, in bytes: the scheme and the 68 characters of the longest code.
pub const LONGEST_WRITTEN: usize = 73;

// Writes the scheme to the front of an area that has room for it.
fn put_scheme(out: &mut [u8])
    requires { 5 ≤ length out.old }
    ensures { out.new ≡ scheme ++ drop 5 out.old }
{
    out[0..5].copy_from_slice(&SCHEME);
}

// Writes the scheme and then capital base32 of the bytes to the front of the area, or 15 where they do not fit.
pub(crate) fn write(bytes: &[u8], out: &mut [u8]) -> Result<usize, Refusal>
    ensures answer { result ≡ written_as (into (length out.old) (accept (text_of_code bytes.now))) }
    ensures area { out.new ≡ area_after (into (length out.old) (accept (text_of_code bytes.now))) out.old }
{
    if out.len() < 5 {
        return Err(Refusal::AreaTooShort);
    }
    let n = base32::writer::write(bytes, &mut out[5..])?;
    put_scheme(out);
    Ok(5 + n)
}

// Writes the text of a code's bytes to the front of the area. Gives 15 where the area is below 73 bytes, whatever the bytes;
// then 7, 8, 9, 19 of these.
pub fn text(code: &[u8], out: &mut [u8]) -> Result<usize, Refusal>
    ensures answer { result ≡ written_as (write_text code.now (length out.old)) }
    ensures area { out.new ≡ area_after (write_text code.now (length out.old)) out.old }
{
    if out.len() < LONGEST_WRITTEN {
        return Err(Refusal::AreaTooShort);
    }
    unit::one::read(code)?;
    write(code, out)
}
