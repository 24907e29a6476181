// Whether an area is a register: 23 where it is not.
ghost use Rattle.std.specs.Prelude.{◌≡◌};
ghost use Rattle.loans.specs.Contents.{is_register};

use loans::layout::{COUNTS_LENGTH, LAST_NUMBER_OFFSET, REGISTER_LENGTH};
use places::order;

#[tactic(auto, using(crate::proofs::Areas::other_length))]
pub fn is_register(area: &[u8]) -> bool
    ensures { result ≡ is_register area.now }
{
    if area.len() != REGISTER_LENGTH {
        return false;
    }
    order::are_counted(
        area.first_chunk::<COUNTS_LENGTH>().unwrap(),
        &area[COUNTS_LENGTH..LAST_NUMBER_OFFSET],
    )
}
