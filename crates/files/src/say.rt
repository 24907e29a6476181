// What the programs say: answers on standard output, everything else on standard error, and there last the line that the launcher turns
// into the exit status.
use crate::buffer::Buffer;
use answers::line::Line;
use std::io;
use std::os::fd::{AsFd, BorrowedFd};
use streams::{Told, or_tell, put_all, put_error, tell};

// What a run comes to, unless it fails: the worst of its parts.
#[derive(Clone, Copy, PartialEq, Eq, PartialOrd, Ord)]
pub enum Outcome {
    Done,
    Refused,
}

// The system's number of the error that a stream is closed.
const EBADF: i32 = 9;

// A line of an answer with its LF, and more.
const ROOM: usize = 4096;

// A closed stream cannot be doubled; that one cannot for another reason does not say that it is closed.
fn is_open(stream: BorrowedFd<'_>) -> bool {
    match stream.try_clone_to_owned() {
        Ok(_) => true,
        Err(error) => error.raw_os_error() != Some(EBADF),
    }
}

// Whether the three streams are open: a file that a program opens would take the place of one that is closed.
pub fn can_answer(rt: &HostRuntime) -> Result<(), Told> {
    if is_open(rt.stdin().as_fd()) && is_open(rt.stdout().as_fd()) && is_open(rt.stderr().as_fd()) {
        return Ok(());
    }
    Err(tell(rt, b"standard input or output is closed"))
}

// An answer, and its LF in the same write.
pub fn answer(rt: &HostRuntime, line: Line) -> Result<(), Told> {
    let mut out = Buffer::<ROOM>::new();
    out.push(line.as_bytes());
    out.push(b"\n");
    or_tell(
        rt,
        b"cannot write the answer",
        put_all(&mut rt.stdout(), out.as_bytes()),
    )
}

// An answer that the programs alone give, with its LF behind it.
fn put_text(rt: &HostRuntime, text: &[u8]) -> io::Result<()> {
    put_all(&mut rt.stdout(), text)?;
    put_all(&mut rt.stdout(), b"\n")
}

// An answer that the programs alone give.
pub fn answer_text(rt: &HostRuntime, text: &[u8]) -> Result<(), Told> {
    or_tell(rt, b"cannot write the answer", put_text(rt, text))
}

// A sentence that ends in a number.
pub fn tell_number(rt: &HostRuntime, text: &[u8], number: u64) -> Told {
    let mut line = Line::new();
    line.push_number(number);
    put_error(rt, text);
    tell_line(rt, line)
}

// The same words as in an answer.
pub fn tell_line(rt: &HostRuntime, line: Line) -> Told {
    tell(rt, line.as_bytes())
}

// The last line, with the exit status.
pub fn close(rt: &HostRuntime, outcome: Result<Outcome, Told>) {
    let status = match outcome {
        Ok(Outcome::Done) => 0,
        Ok(Outcome::Refused) => 1,
        Err(Told) => 2,
    };
    tell_number(rt, b"closing ", status);
}
