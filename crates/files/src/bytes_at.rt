// Reads and writes at an offset of a file, which go on after a short one and after a signal.
ghost use Rattle.std.specs.Prelude.{◌≡◌, ◌≤◌, length, OnOk, IfOk};

use std::fs::File;
use std::io;
use std::io::ErrorKind;
use std::os::unix::fs::FileExt;

// No file is longer, so that an offset always fits what the system takes.
const LONGEST_FILE: usize = 4611686018427387904;

// Fills the area from an offset of the file on, as far as the file goes; how far: std's read_exact_at does not tell that. A proved
// loop has to end, so it has a number of calls that no run uses up.
pub fn read(file: &File, area: &mut [u8], offset: usize) -> io::Result<usize>
    ensures count { IfOk result (λ count. count ≤ length area.old) }
    ensures area { length area.new ≡ length area.old }
    ensures offset { OnOk result (offset ≤ 4611686018427387904) }
{
    if offset > LONGEST_FILE {
        return Err(io::Error::from(ErrorKind::FileTooLarge));
    }
    let mut done = 0;
    for _ in 0..u64::MAX {
        if done == area.len() {
            return Ok(done);
        }
        match file.read_at(&mut area[done..], (offset + done) as u64) {
            Ok(0) => return Ok(done),
            Ok(count) => done += count,
            Err(error) if error.kind() == ErrorKind::Interrupted => {}
            Err(error) => return Err(error),
        }
    }
    Err(io::Error::from(ErrorKind::Interrupted))
}

// Writes all of the bytes from an offset of the file on, or answers why it cannot, when some of them may have been written.
pub fn write(file: &File, bytes: &[u8], offset: usize) -> io::Result<()>
    ensures { OnOk result (offset ≤ 4611686018427387904) }
{
    if offset > LONGEST_FILE {
        return Err(io::Error::from(ErrorKind::FileTooLarge));
    }
    match file.write_all_at(bytes, offset as u64) {
        // std has words of its own for it.
        Err(error) if error.kind() == ErrorKind::WriteZero => Err(io::Error::from(
            ErrorKind::WriteZero,
        )),
        written => written,
    }
}
