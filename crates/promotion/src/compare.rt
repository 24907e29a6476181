// Two registers compared: 37 and the least code that differs, then 27.
ghost use Rattle.std.specs.Prelude.{◌≡◌};
ghost use Rattle.loans.specs.Contents.{contents_of};
ghost use Rattle.loans.specs.Promotion.{compared};
ghost use Rattle.promotion.specs.Representation.{promotion_as};

use crate::answer::Denial;
use crate::difference;
use iscc::refusal::Refusal;
use register::area::Register;

// The register that a replay made, and the replica's.
pub fn compare(made: Register, held: Register) -> Result<(), Denial>
    ensures { result ≡ promotion_as (compared (contents_of made.entry.area.now) (contents_of held.entry.area.now)) }
{
    if let Some(code) = difference::least(made, held) {
        return Err(Denial::For(Refusal::LoansDiffer, code));
    }
    if made.last_number() != held.last_number() {
        return Err(Denial::Refused(Refusal::LastNumbersDiffer));
    }
    Ok(())
}
