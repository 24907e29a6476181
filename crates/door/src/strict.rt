// The strict door: takes a text exactly if intake would write that same text.
ghost use Rattle.std.specs.Prelude.{◌≡◌};
ghost use Rattle.iscc.specs.Answer.{number_of};
ghost use Rattle.iscc.specs.Doors as doors;
ghost use Rattle.door.specs.Representation.{checked_as, checked_number};

use crate::intake;
use iscc::refusal::Refusal;
use octets::compare;

// Gives 2, 1, 3 to 14 as intake does, then 16: the scheme and every letter are required as intake writes them.
pub fn strict(text: &[u8]) -> Result<(), Refusal>
    ensures answer { result ≡ checked_as (doors.strict text.now) }
    ensures number { checked_number result ≡ number_of (doors.strict text.now) }
{
    let mut own = [0u8; 73];
    let n = intake::intake(text, &mut own)?;
    if compare::same(&own[0..n], text) {
        return Ok(());
    }
    Err(Refusal::OtherText)
}
