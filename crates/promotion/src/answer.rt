// What the checker answers: yes, or why not. Its number, offset and code by the specification: `promotion_number`,
// `promotion_offset` and `promotion_code` of specs/Representation.antt.
ghost use Rattle.std.specs.Prelude.{◌≡◌};
ghost use Rattle.promotion.specs.Representation.{ended_as};

use iscc::code::Code;
use iscc::refusal::Refusal;
use pending_log::replay::Replayed;

// Why a replica may not be promoted.
#[derive(Clone, Copy)]
pub enum Denial {
    Refused(Refusal),
    // The record that starts at this offset of the log stopped the replay, or is torn.
    At(Refusal, usize),
    // The code is the least that the registers differ in.
    For(Refusal, Code),
}

// What the end of the log's replay says: nothing where it ran to its end.
pub fn ended(end: Replayed) -> Result<(), Denial>
    ensures { result ≡ ended_as end }
{
    match end {
        Replayed::Ended => Ok(()),
        Replayed::Torn(offset) => Err(Denial::At(Refusal::LogTorn, offset)),
        Replayed::Stopped(q, offset) => Err(Denial::At(q, offset)),
        Replayed::Refused(q) => Err(Denial::Refused(q)),
    }
}
