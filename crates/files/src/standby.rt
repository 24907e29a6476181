// The standby hall: a replica that replays the counter's log, and the question whether it may be promoted.
use crate::arguments::{is_given, word};
use crate::buffer::Buffer;
use crate::folder::open_to_read;
use crate::log_file::LogRead;
use crate::register_file::{Contents, Old};
use crate::say::Outcome;
use crate::{log_file, register_file, say};
use hall::{serving, standby};
use loans::layout::REGISTER_LENGTH;
use pending_log::replay::Replayed;
use recovery::conclude::conclude;
use streams::{Told, or_tell, tell};

// The log that a path names, replayed over an area.
fn replay_log(rt: &HostRuntime, path: &[u8], area: &mut [u8]) -> Result<LogRead, Told> {
    let log = or_tell(rt, b"cannot open the log", open_to_read(rt, path))?;
    log_file::sync(rt, &log)?;
    log_file::replay(rt, &log, area)
}

// Takes over what the log has more. The file, which has records up to a number, is replaced where the register changed; where there
// was none, it is made.
fn take_over(
    rt: &HostRuntime,
    name: &[u8],
    path: &[u8],
    area: &mut [u8],
    saved: Option<u32>,
) -> Result<Outcome, Told> {
    let end = replay_log(rt, path, area)?.end;
    let outcome = match end {
        Replayed::Ended | Replayed::Torn(_) => Outcome::Done,
        Replayed::Stopped(_, _) | Replayed::Refused(_) => Outcome::Refused,
    };
    if saved != Some(register_file::last_number(area)) {
        register_file::save(rt, name, area, Old::Overwritten)?;
    }
    say::answer(rt, standby::replay_line(end, area))?;
    Ok(outcome)
}

// Over the replica's file, or over an empty register where there is none yet.
fn replay(rt: &HostRuntime, name: &[u8], path: &[u8]) -> Result<Outcome, Told> {
    match register_file::load(rt, name)? {
        Some(mut replica) => {
            let saved = register_file::last_number(replica.as_bytes());
            take_over(rt, name, path, replica.as_mut_bytes(), Some(saved))
        }
        None => take_over(rt, name, path, &mut [0; REGISTER_LENGTH], None),
    }
}

// The replica as it stands in its file, against the log.
fn judge(rt: &HostRuntime, path: &[u8], replica: &[u8]) -> Result<Outcome, Told> {
    let mut area = [0u8; REGISTER_LENGTH];
    let end = replay_log(rt, path, &mut area)?.end;
    let verdict = conclude(end, &area, replica);
    let outcome = match verdict {
        Ok(()) => Outcome::Done,
        Err(_) => Outcome::Refused,
    };
    say::answer(rt, standby::verdict_line(verdict))?;
    Ok(outcome)
}

fn ask(rt: &HostRuntime, text: &[u8], replica: &[u8]) -> Result<Outcome, Told> {
    let served = serving::ask(text, replica);
    let outcome = match served.outcome {
        serving::Outcome::Refused => Outcome::Refused,
        _ => Outcome::Done,
    };
    say::answer(rt, served.line)?;
    Ok(outcome)
}

// The replica as it stands.
fn load(rt: &HostRuntime, name: &[u8]) -> Result<Contents, Told> {
    register_file::load(rt, name)?.ok_or_else(|| tell(
        rt,
        b"there is no replica yet: replay makes it",
    ))
}

fn by_command(
    rt: &HostRuntime,
    name: &[u8],
    command: &[u8],
    argument: &[u8],
) -> Result<Outcome, Told> {
    match command {
        b"replay" => replay(rt, name, argument),
        b"promote" => judge(rt, argument, load(rt, name)?.as_bytes()),
        b"ask" => ask(rt, argument, load(rt, name)?.as_bytes()),
        _ => Err(usage(rt)),
    }
}

fn usage(rt: &HostRuntime) -> Told {
    tell(
        rt,
        b"usage: standby FOLDER replay LOG, standby FOLDER promote LOG, standby FOLDER ask TEXT",
    )
}

// A folder, a command and its one argument.
fn by_words(rt: &HostRuntime) -> Result<Outcome, Told> {
    if !is_given(rt, 3) || is_given(rt, 4) {
        return Err(usage(rt));
    }
    let name = word(rt, 1).unwrap_or(Buffer::new());
    let command = word(rt, 2).unwrap_or(Buffer::new());
    match word(rt, 3) {
        Ok(text) => by_command(rt, name.as_bytes(), command.as_bytes(), text.as_bytes()),
        Err(_) => {
            tell(rt, b"the last word is too long");
            Ok(Outcome::Refused)
        }
    }
}

fn outcome(rt: &HostRuntime) -> Result<Outcome, Told> {
    say::can_answer(rt)?;
    by_words(rt)
}

// The whole program.
pub fn run(rt: HostRuntime) {
    say::close(&rt, outcome(&rt));
}
