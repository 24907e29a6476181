// The intake door: a typed text is read, and the one text of its meaning is written.
ghost use Rattle.std.specs.Prelude.{◌≡◌, length};
ghost use Rattle.iscc.specs.Answer.{area_after};
ghost use Rattle.iscc.specs.Representation.{written_as};
ghost use Rattle.iscc.specs.Doors as doors;

use crate::{code, text};
use iscc::refusal::Refusal;

// Writes the text to the front of the area. Gives 15 where the area is below 73 bytes, whatever the text; then 2, 1, 3 to 14.
pub fn intake(text: &[u8], out: &mut [u8]) -> Result<usize, Refusal>
    ensures answer { result ≡ written_as (doors.intake text.now (length out.old)) }
    ensures area { out.new ≡ area_after (doors.intake text.now (length out.old)) out.old }
{
    if out.len() < text::LONGEST_WRITTEN {
        return Err(Refusal::AreaTooShort);
    }
    let code = code::read(text)?;
    let bytes = code.as_bytes();
    text::write(bytes, out)
}
