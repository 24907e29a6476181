// Standard input by lines. The bytes that were read and not yet served stand in an area; a line that does not fit it is too long for a
// command, is served as far as it fits, which says so, and is passed over up to its end.
ghost use Rattle.std.specs.Prelude.{◌≤◌, ◌+◌};

use lines::scan::line_length;
use std::io::{ErrorKind, Read};
use std::mem;
use streams::{Told, fail};

// The bytes of standard input that are held at a time.
const ROOM: usize = 65536;

// What stands in the area from start to end; whether the input has ended; whether the rest of a line is passed over.
#[derive(Drop)]
pub struct Input {
    area: [u8; ROOM],
    start: usize,
    end: usize,
    has_ended: bool,
    passes: bool,
    ghost ordered: { start ≤ end },
    ghost within: { end ≤ 65536 },
}

impl Input {
    pub fn new() -> Self {
        Input {
            area: [0; ROOM],
            start: 0,
            end: 0,
            has_ended: false,
            passes: false,
        }
    }

    // Reads behind what is there, which is moved to the front. A read that a signal interrupted adds nothing, and is made again.
    fn fill(&mut self, rt: &HostRuntime) -> Result<(), Told> {
        self.area.copy_within(self.start..self.end, 0);
        self.end -= self.start;
        self.start = 0;
        match rt.stdin().read(&mut self.area[self.end..]) {
            Ok(0) => self.has_ended = true,
            Ok(count) => self.end += count,
            Err(error) if error.kind() == ErrorKind::Interrupted => {}
            Err(error) => return Err(fail(rt, b"cannot read the commands", error)),
        }
        Ok(())
    }

    // The next line that is to be served; None at the end of the input. A proved loop has to end, so it has a number of turns that no
    // run uses up.
    pub fn next_line(&mut self, rt: &HostRuntime) -> Result<Option<&[u8]>, Told> {
        for _ in 0..u64::MAX {
            let start = self.start;
            let end = self.end;
            let length = line_length(&self.area[start..end]);
            if length < end - start {
                self.start = start + length + 1;
                if !mem::replace(&mut self.passes, false) {
                    return Ok(Some(&self.area[start..start + length]));
                }
            } else if self.has_ended {
                if length == 0 {
                    return Ok(None);
                }
                self.start = end;
                if !self.passes {
                    return Ok(Some(&self.area[start..end]));
                }
            } else if length < ROOM {
                self.fill(rt)?;
            } else {
                self.start = 0;
                self.end = 0;
                if !mem::replace(&mut self.passes, true) {
                    return Ok(Some(&self.area));
                }
            }
        }
        Ok(None)
    }
}
