// The last number, in the four bytes behind the places.
ghost use Rattle.std.specs.Prelude.{◌≡◌, ◌++◌, take};
ghost use Rattle.iscc.specs.Digits.{digits};

use loans::layout::{LAST_NUMBER_OFFSET, REGISTER_LENGTH};

// Another one in its place.
pub(crate) fn set(number: u32, area: &mut [u8; REGISTER_LENGTH])
    ensures { area.new ≡ take 12304 area.old ++ digits 8 4 number }
{
    octets::number::write(number, &mut area[LAST_NUMBER_OFFSET..REGISTER_LENGTH]);
}
