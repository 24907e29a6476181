// The pending issues log: include/loans.h declares its entries.
ghost use Rattle.std.specs.Prelude.{◌≡◌, ◌≤◌, IfOk};
ghost use Rattle.loans.specs.Map.{issue_code, return_code};
ghost use Rattle.loans.specs.Writer.{written_after};
ghost use Rattle.loans.specs.Replay.{area_replayed};
ghost use Rattle.loans.specs.PendingLog.{NumberedChange, write_record, replay_log};
ghost use Rattle.console.specs.Representation.{moved_on, record_outcome, replay_answer_as};

use iscc::outcome::Outcome;
use iscc::refusal::Refusal;
use pending_log::append;
use pending_log::replay::Replayed;

// How a replay ended: 0 where it did not begin.
const RAN: u32 = 1;

const TORN: u32 = 2;

const STOPPED: u32 = 3;

// The number, how it ended, and the offset of the record that is torn or was refused; or 23 and zeros.
#[repr(C)]
#[derive(Clone, Copy)]
pub struct ReplayAnswer {
    pub number: u32,
    pub end: u32,
    pub offset: usize,
}

// A record appended at a position: the number, and the length that the position moved on.
fn told(answer: Result<usize, Refusal>, position: usize) -> Outcome
    requires { IfOk answer (λ end. position ≤ end) }
    ensures { result ≡ moved_on position answer }
{
    Outcome::from(answer.map(|end| end - position))
}

#[unsafe(no_mangle)]
pub extern "C" fn loans_log_issue(
    log: &mut [u8],
    position: usize,
    record_number: u32,
    code: &[u8],
    borrower: u32,
) -> Outcome
    ensures answer { result ≡ record_outcome position (write_record (record { number = record_number; change = issue_code code.now borrower }) log.old position) }
    ensures log { log.new ≡ (written_after log.old position (write_record (record { number = record_number; change = issue_code code.now borrower }) log.old position)).log }
{
    let answer = append::issue(log, position, record_number, code, borrower);
    told(answer, position)
}

#[unsafe(no_mangle)]
pub extern "C" fn loans_log_return(
    log: &mut [u8],
    position: usize,
    record_number: u32,
    code: &[u8],
) -> Outcome
    ensures answer { result ≡ record_outcome position (write_record (record { number = record_number; change = return_code code.now }) log.old position) }
    ensures log { log.new ≡ (written_after log.old position (write_record (record { number = record_number; change = return_code code.now }) log.old position)).log }
{
    let answer = append::take_back(log, position, record_number, code);
    told(answer, position)
}

#[unsafe(no_mangle)]
pub extern "C" fn loans_replay(log: &[u8], area: &mut [u8]) -> ReplayAnswer
    ensures answer { result ≡ replay_answer_as (replay_log log.now area.old) }
    ensures area { area.new ≡ area_replayed area.old (replay_log log.now area.old) }
{
    let answer = pending_log::replay::replay(log, area);
    match answer {
        Replayed::Ended => ReplayAnswer {
            number: 0,
            end: RAN,
            offset: 0,
        },
        Replayed::Torn(offset) => ReplayAnswer {
            number: 0,
            end: TORN,
            offset: offset,
        },
        Replayed::Stopped(q, offset) => ReplayAnswer {
            number: q.number(),
            end: STOPPED,
            offset: offset,
        },
        Replayed::Refused(q) => ReplayAnswer {
            number: q.number(),
            end: 0,
            offset: 0,
        },
    }
}
