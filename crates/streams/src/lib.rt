// What the programs write to their streams, and how a failure is told.
#![tactic(auto)]

ghost use Rattle.std.specs.Prelude.{◌≡◌, OnOk, IsErr, Ok, MatchResult};
ghost use Rattle.std.specs.Io.KnownBytes.{Appends};

use std::io::{Cursor, ErrorKind, Write};
use std::{io, str};

// It was told on standard error. As an error: what failed was told there, and nobody else has to tell it.
#[derive(Clone, Copy, Debug, PartialEq, Eq)]
pub struct Told;

// Writes all of the bytes, or answers why it cannot, when some of them may have been written. std's write_all would try again
// where a signal interrupts a write; here that fails, as any write that cannot be made.
pub fn put_all<W: Write>(stream: &mut W, bytes: &[u8]) -> io::Result<()>
    ensures { OnOk result (Appends (W.contents stream.old) (W.contents stream.new) bytes.now) }
{
    let mut rest = bytes;
    while !rest.is_empty() {
        match stream.write(rest)? {
            0 => return Err(io::Error::from(ErrorKind::WriteZero)),
            count => rest = &rest[count..],
        }
    }
    Ok(())
}

// On standard error. That it cannot be told stops nothing.
pub fn put_error(rt: &HostRuntime, bytes: &[u8]) {
    let _ = put_all(&mut rt.stderr(), bytes);
}

// A line on standard error.
pub fn tell(rt: &HostRuntime, text: &[u8]) -> Told {
    put_error(rt, text);
    put_error(rt, b"\n");
    Told
}

// An error's text without the system's number, which std writes behind it in brackets.
fn words_of(written: &[u8]) -> &[u8] {
    match str::from_utf8(written) {
        Ok(text) => match text.split_once(" (os error ") {
            Some((words, _)) => words.as_bytes(),
            None => written,
        },
        Err(_) => written,
    }
}

// A line on standard error: what failed, a colon and the system's words for it.
pub fn fail(rt: &HostRuntime, what: &[u8], error: io::Error) -> Told {
    let mut area = [0u8; 320];
    let mut cursor = Cursor::new(&mut area[..]);
    let _ = write!(cursor, "{error}");
    let length = (cursor.position() as usize).min(320);
    put_error(rt, what);
    put_error(rt, b": ");
    tell(rt, words_of(&area[..length]))
}

// The value; where there is none, what failed is told.
pub fn or_tell<T>(rt: &HostRuntime, what: &[u8], outcome: io::Result<T>) -> Result<T, Told>
    ensures { MatchResult outcome (λ x. result ≡ Ok x) (λ _. IsErr result) }
{
    outcome.map_err(|error| fail(rt, what, error))
}
