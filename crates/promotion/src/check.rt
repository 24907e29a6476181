// The checker: 23 for the replica, 15 for the work area, then the replay from empty and what it made.
ghost use Rattle.std.specs.Prelude.{◌≡◌, length};
ghost use Rattle.iscc.specs.Answer.{accept, number_of};
ghost use Rattle.loans.specs.Contents.{contents_of, bytes_of};
ghost use Rattle.loans.specs.Promotion.{from_empty, verdict_of, promotion, work_after};
ghost use Rattle.loans.specs.PromotionOrder.{verdict_answer};
ghost use Rattle.promotion.specs.Representation.{offset_told, code_told, promotion_as, promotion_number, promotion_offset, promotion_code};

use crate::answer;
use crate::answer::Denial;
use crate::compare::compare;
use iscc::refusal::Refusal;
use loans::layout::REGISTER_LENGTH;
use pending_log::replay;
use register::area::Register;

// The log is replayed from zeros, an empty register, in an area as long as one. That the area is one then is known, and not tested.
fn replay_and_compare(log: &[u8], replica: Register, area: &mut [u8]) -> Result<(), Denial>
    requires { length area.old ≡ 12308 }
    ensures answer { result ≡ promotion_as (verdict_of (contents_of replica.entry.area.now) (accept (from_empty log.now))) }
    ensures area { area.new ≡ bytes_of (from_empty log.now).state }
{
    area.fill(0);
    answer::ended(replay::run(log, area))?;
    compare(Register::new(area), replica)
}

// May this replica be promoted? 23, 15, the number of the record that stops the replay, 36, 37, 27.
pub fn may_promote(log: &[u8], replica: &[u8], work: &mut [u8]) -> Result<(), Denial>
    ensures answer { result ≡ promotion_as (promotion log.now replica.now work.old) }
    ensures number { promotion_number result ≡ number_of (verdict_answer (promotion log.now replica.now work.old)) }
    ensures offset { promotion_offset result ≡ offset_told (promotion log.now replica.now work.old) }
    ensures code { promotion_code result ≡ code_told (promotion log.now replica.now work.old) }
    ensures work { work.new ≡ work_after log.now replica.now work.old }
{
    let Some(held) = Register::from_bytes(replica) else {
        return Err(Denial::Refused(Refusal::NotRegister));
    };
    if work.len() < REGISTER_LENGTH {
        return Err(Denial::Refused(Refusal::AreaTooShort));
    }
    replay_and_compare(log, held, &mut work[0..REGISTER_LENGTH])
}
