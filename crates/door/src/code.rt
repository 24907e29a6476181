// The code that a typed text holds, as the bytes of the one unit or composite that it means.
ghost use Rattle.std.specs.Prelude.{◌≡◌, length};
ghost use Rattle.iscc.specs.Answer.{area_after};
ghost use Rattle.iscc.specs.Doors.{code_bytes, read_code};
ghost use Rattle.iscc.specs.Representation.{written_as, code_read_as};
ghost use Rattle.door.specs.Codes.{code_detail};

use iscc::code::{Code, LONGEST_CODE};
use iscc::refusal::{DetailedRefusal, Refusal};

fn read_typed(text: &[u8]) -> Result<Code, DetailedRefusal>
    ensures { result ≡ code_read_as (code_detail text.now) (code_bytes text.now) }
{
    let mut bytes = [0u8; 50];
    let n = payload::reader::read(text, &mut bytes)?;
    composite::code::read(&bytes[0..n])
}

// The code by value. Gives 2, 1, 3 to 14 in the order of the doors. Nothing is set up for a text that is too long.
pub fn read(text: &[u8]) -> Result<Code, DetailedRefusal>
    ensures { result ≡ code_read_as (code_detail text.now) (code_bytes text.now) }
{
    if payload::reader::LONGEST_TYPED < text.len() {
        return iscc::code::refused(Refusal::LongText, 0);
    }
    read_typed(text)
}

// Writes the code to the front of the area. Gives 15 where the area is below 42 bytes, whatever the text; then 2, 1, 3 to 14.
pub fn code(text: &[u8], out: &mut [u8]) -> Result<usize, Refusal>
    ensures answer { result ≡ written_as (read_code text.now (length out.old)) }
    ensures area { out.new ≡ area_after (read_code text.now (length out.old)) out.old }
{
    if out.len() < LONGEST_CODE {
        return Err(Refusal::AreaTooShort);
    }
    let code = read(text)?;
    let bytes = code.as_bytes();
    out[..bytes.len()].copy_from_slice(bytes);
    Ok(bytes.len())
}
