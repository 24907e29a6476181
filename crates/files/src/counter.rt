// The counter's program: a folder with its register and its log, and the commands on it.
use crate::arguments::{Word, is_given, word};
use crate::buffer::Buffer;
use crate::log_file::Access;
use crate::register_file::Old;
use crate::say::Outcome;
use crate::{log_file, register_file, say, start, work};
use commands::command;
use commands::command::Command;
use hall::standby;
use loans::layout::REGISTER_LENGTH;
use pending_log::replay::Replayed;
use std::env::FillError;
use std::io::ErrorKind;
use streams::{Told, fail, tell};

// One command that was given as arguments.
fn run_one(rt: &HostRuntime, name: &[u8], line: &[u8]) -> Result<Outcome, Told> {
    let access = match command::read(line) {
        Ok(Command::Ask { .. }) => Access::Read,
        Ok(Command::Sheet) => Access::Read,
        _ => Access::Write,
    };
    let mut area = start::load(rt, name)?;
    let mut log = start::start(rt, name, &mut area, access)?;
    let outcome = work::serve(rt, &mut log, line, &mut area)?;
    if access == Access::Write {
        log.keep(rt, name, &area);
    }
    Ok(outcome)
}

// The commands of standard input.
fn run_all(rt: &HostRuntime, name: &[u8]) -> Result<Outcome, Told> {
    let mut area = start::load(rt, name)?;
    let mut log = start::start(rt, name, &mut area, Access::Write)?;
    let outcome = work::serve_all(rt, &mut log, &mut area)?;
    log.keep(rt, name, &area);
    Ok(outcome)
}

// An empty register and an empty log, where there is neither.
fn begin(rt: &HostRuntime, name: &[u8]) -> Result<Outcome, Told> {
    if register_file::load(rt, name)?.is_some() {
        say::answer_text(rt, b"refused: There is a register already.")?;
        return Ok(Outcome::Refused);
    }
    match log_file::create(rt, name) {
        Ok(()) => {}
        Err(error) if error.kind() == ErrorKind::AlreadyExists => {
            say::answer_text(
                rt,
                b"refused: There is a log already: rebuild makes its register.",
            )?;
            return Ok(Outcome::Refused);
        }
        Err(error) => return Err(fail(rt, b"cannot make the log", error)),
    }
    let area = [0u8; REGISTER_LENGTH];
    register_file::save(rt, name, &area, Old::Overwritten)?;
    say::answer_text(rt, b"begun: nothing is out")?;
    Ok(Outcome::Done)
}

// The register made anew from the log; the old file keeps its bytes under another name.
fn rebuild(rt: &HostRuntime, name: &[u8]) -> Result<Outcome, Told> {
    let log = log_file::open(rt, name, Access::Read)?;
    let mut area = [0u8; REGISTER_LENGTH];
    let end = log_file::replay(rt, &log, &mut area)?.end;
    log_file::sync(rt, &log)?;
    let outcome = match end {
        Replayed::Ended | Replayed::Torn(_) => {
            register_file::save(rt, name, &area, Old::SetAside)?;
            Outcome::Done
        }
        Replayed::Stopped(_, _) | Replayed::Refused(_) => Outcome::Refused,
    };
    say::answer(rt, standby::replay_line(end, &area))?;
    Ok(outcome)
}

// The command that the arguments behind the folder are, with a blank behind each; a length that no command has where they do not fit.
fn joined(rt: &HostRuntime) -> Word {
    let mut line = Buffer::new();
    for i in 2..usize::MAX {
        match word(rt, i) {
            Ok(part) => {
                line.push(part.as_bytes());
                line.push(b" ");
            }
            Err(FillError::NotPresent) => break,
            Err(FillError::TooLong) => {
                line.push(&[0; 4096]);
                break;
            }
        }
    }
    line
}

fn by_line(rt: &HostRuntime, name: &[u8], line: &[u8]) -> Result<Outcome, Told> {
    match line {
        b"new " => begin(rt, name),
        b"rebuild " => rebuild(rt, name),
        _ => run_one(rt, name, line),
    }
}

// The folder is the first argument, and the others are the command; without one the program reads commands.
fn by_folder(rt: &HostRuntime, name: &[u8]) -> Result<Outcome, Told> {
    if is_given(rt, 2) {
        return by_line(rt, name, joined(rt).as_bytes());
    }
    run_all(rt, name)
}

// What the run comes to, where it can be told.
fn outcome(rt: &HostRuntime) -> Result<Outcome, Told> {
    say::can_answer(rt)?;
    let name = word(rt, 1).unwrap_or(Buffer::new());
    if name.as_bytes().is_empty() {
        return Err(tell(rt, b"usage: counter FOLDER [COMMAND]"));
    }
    by_folder(rt, name.as_bytes())
}

// The whole program.
pub fn run(rt: HostRuntime) {
    say::close(&rt, outcome(&rt));
}
