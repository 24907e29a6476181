// The counter at work: each change is in the log and synced before it is answered.
use crate::commands_in::Input;
use crate::say;
use crate::say::Outcome;
use crate::start::OpenLog;
use hall::serving::LONGEST_RECORD;
use hall::{serving, sheet};
use streams::Told;

// The sheet's lines behind the first.
fn put_sheet(rt: &HostRuntime, area: &[u8]) -> Result<(), Told> {
    for i in 1..sheet::count(area) {
        say::answer(rt, sheet::line(area, i))?;
    }
    Ok(())
}

// One command: served on the register, appended to the log and synced, and then answered.
pub fn serve(
    rt: &HostRuntime,
    log: &mut OpenLog,
    line: &[u8],
    area: &mut [u8],
) -> Result<Outcome, Told> {
    let mut entry = [0u8; LONGEST_RECORD];
    let served = serving::serve(line, area, &mut entry);
    let outcome = served.outcome;
    if let serving::Outcome::Recorded(count) = outcome {
        log.append(rt, &entry[..count])?;
    }
    say::answer(rt, served.line)?;
    Ok(match outcome {
        serving::Outcome::Refused => Outcome::Refused,
        serving::Outcome::Sheet => {
            put_sheet(rt, area)?;
            Outcome::Done
        }
        _ => Outcome::Done,
    })
}

// The commands of standard input, a line each. A proved loop has to end, so it has a number of turns that no run uses up.
pub fn serve_all(rt: &HostRuntime, log: &mut OpenLog, area: &mut [u8]) -> Result<Outcome, Told> {
    let mut input = Input::new();
    let mut outcome = Outcome::Done;
    for _ in 0..u64::MAX {
        let Some(line) = input.next_line(rt)? else {
            break;
        };
        outcome = outcome.max(serve(rt, log, line, area)?);
    }
    Ok(outcome)
}
