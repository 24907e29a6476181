// Replay of a log over a register: 23 before all else, then the records from the left.
ghost use Rattle.std.specs.Prelude.{◌≡◌, true};
ghost use Rattle.loans.specs.Contents.{is_register};
ghost use Rattle.loans.specs.Replay.{replay_number, replay_offset, area_replayed};
ghost use Rattle.loans.specs.PendingLog.{replay_log};
ghost use Rattle.pending_log.specs.Representation.{replayed_as, replayed_number, replayed_offset};

use crate::apply;
use crate::field::Field;
use iscc::refusal::Refusal;
use register::check;

// How a replay ended. Numbers and offsets by the specification: `replayed_number` and `replayed_offset` of
// specs/Representation.antt.
#[derive(Clone, Copy, Debug, PartialEq, Eq)]
pub enum Replayed {
    // The log ran to its end.
    Ended,
    // A torn record starts at this offset.
    Torn(usize),
    // The record that starts at this offset was refused.
    Stopped(Refusal, usize),
    // Nothing was replayed: the area is not a register.
    Refused(Refusal),
}

// The records of the log applied to the area's register: 23; then at each record 24, 25, 20 and 21, 22.
pub fn replay(log: &[u8], area: &mut [u8]) -> Replayed
    ensures answer { result ≡ replayed_as (replay_log log.now area.old) }
    ensures number { replayed_number result ≡ replay_number (replay_log log.now area.old) }
    ensures offset { replayed_offset result ≡ replay_offset (replay_log log.now area.old) }
    ensures area { area.new ≡ area_replayed area.old (replay_log log.now area.old) }
{
    if check::is_register(area) {
        return run(log, area);
    }
    Replayed::Refused(Refusal::NotRegister)
}

pub fn run(log: &[u8], area: &mut [u8]) -> Replayed
    requires { is_register area.old ≡ true }
    ensures answer { result ≡ replayed_as (replay_log log.now area.old) }
    ensures area { area.new ≡ area_replayed area.old (replay_log log.now area.old) }
{
    let mut offset = 0;
    // By its offset: that tells where the replay ended, and an iterator over the fields would have to count it beside them.
    while offset < log.len() {
        let Some(field) = Field::at(log, offset) else {
            return Replayed::Torn(offset);
        };
        if let Err(q) = apply::apply(field, area) {
            return Replayed::Stopped(q, offset);
        }
        offset += field.size();
    }
    Replayed::Ended
}
