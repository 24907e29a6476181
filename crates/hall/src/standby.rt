// What the standby hall's program answers: to a replay, and to the question whether its replica may be promoted.
ghost use Rattle.iscc.specs.Refusals.{refusal_number};
ghost use Rattle.std.specs.Prelude.{◌≡◌, ◌++◌, take};
ghost use Rattle.iscc.specs.Ascii.{ascii};
ghost use Rattle.answers.specs.Answers.{in_decimal};
ghost use Rattle.answers.specs.Sentences.{sentence};
ghost use Rattle.loans.specs.Promotion.{granted, refused, refused_at, refused_for};
ghost use Rattle.loans.specs.Replay.{torn};
ghost use Rattle.loans.specs.Contents.{contents_of};
ghost use Rattle.hall.specs.Standby.{numbered, replayed_to, end_line, line_by, replay_line, verdict_line};
ghost use Rattle.recovery.specs.Representation.{end_in};
ghost use Rattle.hall.specs.Representation.{verdict_in};

use crate::names;
use crate::names::LONGEST_NAME;
use answers::line::Line;
use answers::replies;
use answers::sentences::sentence;
use iscc::code::LONGEST_CODE;
use iscc::refusal::Refusal;
use pending_log::replay::Replayed;
use promotion::answer::Denial;
use register::area::Register;

// A refusal's sentence behind its number.
fn push_sentence(line: &mut Line, q: Refusal)
    ensures { line.new ≡ take 200 (line.old ++ (ascii ": " ++ sentence (refusal_number q))) }
{
    line.push(b": ");
    line.push(sentence(q.number()));
}

fn push_offset(line: &mut Line, offset: usize)
    ensures { line.new ≡ take 200 (line.old ++ (ascii " at byte " ++ in_decimal offset)) }
{
    line.push(b" at byte ");
    line.push_number(offset as u64);
}

// How far the register has come.
fn replayed_to(register: Register) -> Line
    ensures { result ≡ replayed_to (contents_of register.entry.area.now) }
{
    let mut line = Line::new();
    line.push(b"replayed to record ");
    line.push_number(u64::from(register.last_number()));
    line.push(b", ");
    line.push_number(register.codes_out() as u64);
    line.push(b" out");
    line
}

// A log that is torn at an offset.
fn torn(register: Register, offset: usize) -> Line
    ensures { result ≡ end_line (torn offset) (contents_of register.entry.area.now) }
{
    let mut line = replayed_to(register);
    line.push(b"; the log is torn at byte ");
    line.push_number(offset as u64);
    line
}

// A replay that stopped at an offset.
fn stopped(q: Refusal, offset: usize) -> Line
    ensures { result ≡ ascii "refused " ++ numbered q (ascii " at byte " ++ in_decimal offset) }
{
    let mut line = Line::new();
    line.push(b"refused ");
    line.push_number(u64::from(q.number()));
    push_offset(&mut line, offset);
    push_sentence(&mut line, q);
    line
}

// How a replay ended, on the register after it.
fn end_line(end: Replayed, register: Register) -> Line
    ensures { result ≡ line_by (end_in end) (contents_of register.entry.area.now) }
{
    match end {
        Replayed::Ended => replayed_to(register),
        Replayed::Torn(offset) => torn(register, offset),
        Replayed::Stopped(q, offset) => stopped(q, offset),
        Replayed::Refused(q) => replies::refused(q),
    }
}

// How a replay ended, with the area after it: 23.
pub fn replay_line(end: Replayed, area: &[u8]) -> Line
    ensures { result ≡ replay_line (end_in end) area.now }
{
    match Register::from_bytes(area) {
        Some(register) => end_line(end, register),
        None => replies::refused(Refusal::NotRegister),
    }
}

// A replica that may be promoted.
fn yes() -> Line
    ensures { result ≡ verdict_line granted }
{
    let mut line = Line::new();
    line.push(b"yes: this replica may be promoted");
    line
}

// The number of a refusal.
fn no(q: Refusal) -> Line
    ensures { result ≡ ascii "no " ++ in_decimal (refusal_number q) }
{
    let mut line = Line::new();
    line.push(b"no ");
    line.push_number(u64::from(q.number()));
    line
}

fn no_alone(q: Refusal) -> Line
    ensures { result ≡ verdict_line (refused q) }
{
    let mut line = no(q);
    push_sentence(&mut line, q);
    line
}

fn no_at(q: Refusal, offset: usize) -> Line
    ensures { result ≡ verdict_line (refused_at q offset) }
{
    let mut line = no(q);
    push_offset(&mut line, offset);
    push_sentence(&mut line, q);
    line
}

// The code of a verdict, by its text.
fn no_for(q: Refusal, code: &[u8]) -> Line
    ensures { result ≡ verdict_line (refused_for q code.now) }
{
    let mut name = [0; LONGEST_NAME];
    let mut line = no(q);
    line.push(b" for ");
    line.push(names::of_code(code, &mut name));
    push_sentence(&mut line, q);
    line
}

// A verdict as a line. Its code has at most 42 bytes, whatever its length says.
pub fn verdict_line(verdict: Result<(), Denial>) -> Line
    ensures { result ≡ verdict_line (verdict_in verdict) }
{
    match verdict {
        Ok(()) => yes(),
        Err(Denial::Refused(q)) => no_alone(q),
        Err(Denial::At(q, offset)) => no_at(q, offset),
        Err(Denial::For(q, code)) => no_for(q, &code.bytes[..code.length.min(LONGEST_CODE)]),
    }
}
