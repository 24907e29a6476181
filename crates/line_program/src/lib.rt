// The line program: lines from standard input, an answer to each on standard output. A read or a write that fails ends it, and is
// told on standard error.
#![tactic(auto)]

ghost use Rattle.std.specs.Prelude.{◌≡◌, OnOk};
ghost use Rattle.lines.specs.Feeding.{begun_line, begun_after, Keeps};

use std::io::Read;
use streams::{Told, or_tell, put_all, put_error};

// The bytes that are read, and the bytes of answers that are written, at a time.
const PIECE: usize = 65536;

// The line begun in earlier pieces, as `lines::feed` keeps it: the area for its bytes, and its count.
#[derive(Drop)]
struct Begun {
    line: [u8; 1024],
    held: usize,
}

// Writes all of the answers, or tells that it cannot.
fn put(rt: &HostRuntime, answers: &[u8]) -> Result<(), Told> {
    or_tell(
        rt,
        b"intake: cannot write",
        put_all(&mut rt.stdout(), answers),
    )
}

// Some editors put a byte order mark in front of a text. It is no character of a code, and nobody sees it: so it is told.
fn tell_mark(rt: &HostRuntime, piece: &[u8]) {
    if piece.starts_with(b"\xef\xbb\xbf") {
        put_error(
            rt,
            b"intake: hint: the input begins with a byte order mark, which is no part of a code\n",
        );
    }
}

impl Begun {
    // Answers the lines that end in a piece, and keeps what it has of the next.
    fn answer(&mut self, rt: &HostRuntime, piece: &[u8]) -> Result<(), Told>
        ensures { OnOk result (Keeps self.new.line self.new.held (begun_after (begun_line self.old.line self.old.held) piece.now)) }
    {
        let mut out = [0u8; PIECE];
        let mut at = 0;
        // By its offset: each call says how much of the piece it took.
        while at < piece.len() {
            let fed = lines::feed::feed(&mut self.line, self.held, &piece[at..], &mut out);
            put(rt, &out[0..fed.written])?;
            self.held = fed.held;
            at += fed.used;
        }
        Ok(())
    }

    // Reads once and answers what came, or says that the input has ended.
    fn turn(&mut self, rt: &HostRuntime, first: bool) -> Result<bool, Told> {
        let mut piece = [0u8; PIECE];
        let n = or_tell(rt, b"intake: cannot read", rt.stdin().read(&mut piece))?;
        if first {
            tell_mark(rt, &piece[..n]);
        }
        self.answer(rt, &piece[..n])?;
        Ok(n > 0)
    }

    // Answers a last line that no LF ends.
    fn answer_last(&self, rt: &HostRuntime) -> Result<(), Told> {
        let mut out = [0u8; 74];
        match lines::feed::finish(&self.line, self.held, &mut out) {
            Ok(n) => put(rt, &out[0..n]),
            Err(_) => Ok(()),
        }
    }
}

// Reads to the end of input. A proved loop has to end, so it has a number of turns that no run uses up. A line that a failed read
// cuts is not answered.
fn answer_all(rt: &HostRuntime) -> Result<(), Told> {
    let mut begun = Begun {
        line: [0; 1024],
        held: 0,
    };
    for i in 0..u64::MAX {
        if !begun.turn(rt, i == 0)? {
            break;
        }
    }
    begun.answer_last(rt)
}

// The whole program.
pub fn run(rt: HostRuntime) {
    let _ = answer_all(&rt);
}
