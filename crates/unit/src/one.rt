// Reads bytes that must hold exactly one unit or composite.
ghost use Rattle.std.specs.Prelude.{◌≡◌};
ghost use Rattle.iscc.specs.Answer.{is_accepted};
ghost use Rattle.iscc.specs.Item.{read_one};
ghost use Rattle.unit.specs.Representation.{one_read_as};

use crate::reader::Unit;
use crate::{permitted, reader};
use iscc::main_type::MainType;
use iscc::refusal::Refusal;

// Exactly one unit or composite: 7, 8, 9, then 19.
pub fn read(bytes: &[u8]) -> Result<Unit, Refusal>
    ensures { result ≡ one_read_as bytes.now (read_one bytes.now) }
{
    let found = reader::read(bytes)?;
    if found.used < bytes.len() {
        return Err(Refusal::BytesLeftOver);
    }
    Ok(found)
}

// Whether the bytes are exactly one unit or composite, by the nibbles of the first two: every
// permitted header is two bytes of four numbers below 8.
pub fn is_one(bytes: &[u8]) -> bool
    ensures { result ≡ is_accepted (read_one bytes.now) }
{
    if bytes.len() < 2 {
        return false;
    }
    let first = u32::from(bytes[0]);
    let second = u32::from(bytes[1]);
    let Ok(main_type) = MainType::try_from(first / 16) else {
        return false;
    };
    if !permitted::permits(main_type, first % 16, second / 16, second % 16) {
        return false;
    }
    bytes.len() == 2 + permitted::body_bytes(main_type, first % 16, second % 16)
}
