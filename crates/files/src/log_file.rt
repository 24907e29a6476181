// The log file: replayed in pieces, appended to, cut off at a tear.
use crate::folder::{open_to_read, text_of};
use crate::register_file::MODE;
use crate::{bytes_at, folder};
use pending_log::replay::Replayed;
use recovery::pieces;
use recovery::pieces::Halt;
use std::fs::{File, OpenOptions, Permissions};
use std::io;
use std::io::{Seek, SeekFrom};
use std::os::unix::fs::PermissionsExt;
use streams::{Told, or_tell};

// The bytes that are read at a time: more than the longest field has.
const PIECE: usize = 131072;

// What a run may do to a log.
#[derive(Clone, Copy, PartialEq, Eq)]
pub enum Access {
    Read,
    Write,
}

// How the replay of a log file ended; the number of its last record; and how many bytes it has.
#[derive(Clone, Copy)]
pub struct LogRead {
    pub end: Replayed,
    pub reached: u32,
    pub length: usize,
}

// A piece replayed: the last one, or another follows, which starts at an offset, behind the record of a number.
#[derive(Clone, Copy)]
enum Turn {
    Last(LogRead),
    Another(usize, u32),
}

// The piece that starts at an offset. One that is not full has the end of the file in it: what is left is a torn record.
fn replay_piece(
    rt: &HostRuntime,
    log: &File,
    area: &mut [u8],
    offset: usize,
    before: u32,
) -> Result<Turn, Told> {
    let mut piece = [0u8; PIECE];
    let count = or_tell(
        rt,
        b"cannot read the log",
        bytes_at::read(log, &mut piece, offset),
    )?;
    let used = match pieces::feed(&piece[..count], area) {
        Ok(used) => used,
        Err(Halt::At(q, at)) => {
            return Ok(Turn::Last(LogRead {
                end: Replayed::Stopped(q, offset + at),
                reached: before,
                length: offset + at,
            }));
        }
        Err(Halt::Refused(q)) => {
            return Ok(Turn::Last(LogRead {
                end: Replayed::Refused(q),
                reached: before,
                length: 0,
            }));
        }
    };
    let reached = pieces::number_reached(&piece[..used], before);
    if count == PIECE {
        return Ok(Turn::Another(offset + used, reached));
    }
    let end = if used == count {
        Replayed::Ended
    } else {
        Replayed::Torn(offset + used)
    };
    Ok(Turn::Last(LogRead {
        end,
        reached,
        length: offset + count,
    }))
}

// Replays the log over the area's register, piece by piece; what is left of one is read again with the next. A proved loop has to
// end, so it has a number of pieces that no log uses up.
pub fn replay(rt: &HostRuntime, log: &File, area: &mut [u8]) -> Result<LogRead, Told> {
    let mut offset = 0;
    let mut reached = 0;
    for _ in 0..u64::MAX {
        match replay_piece(rt, log, area, offset, reached)? {
            Turn::Last(read) => return Ok(read),
            Turn::Another(next, number) => {
                offset = next;
                reached = number;
            }
        }
    }
    Err(Told)
}

// The log of a folder.
pub fn open(rt: &HostRuntime, name: &[u8], access: Access) -> Result<File, Told> {
    let path = folder::name_in(name, b"log");
    let opened = match access {
        Access::Read => open_to_read(rt, path.as_bytes()),
        Access::Write => open_to_write(rt, path.as_bytes()),
    };
    or_tell(rt, b"cannot open the log", opened)
}

fn open_to_write(rt: &HostRuntime, path: &[u8]) -> io::Result<File> {
    OpenOptions::new()
        .read(true)
        .write(true)
        .open(rt, text_of(path)?)
}

// Makes an empty log where there is none; its name lasts before there is a register.
pub fn create(rt: &HostRuntime, name: &[u8]) -> io::Result<()> {
    let path = folder::name_in(name, b"log");
    make_empty(rt, path.as_bytes())?;
    folder::sync(rt, name)
}

fn make_empty(rt: &HostRuntime, path: &[u8]) -> io::Result<()> {
    let log = OpenOptions::new()
        .write(true)
        .create_new(true)
        .open(rt, text_of(path)?)?;
    log.set_permissions(Permissions::from_mode(MODE))?;
    log.sync_all()
}

// Whether the file still has so many bytes.
pub fn has_length(log: &File, length: usize) -> bool {
    let mut end = log;
    end.seek(SeekFrom::End(0))
        .is_ok_and(|offset| offset == length as u64)
}

// Cuts the log off at an offset, and syncs that.
pub fn cut(log: &File, offset: usize) -> io::Result<()> {
    log.set_len(offset as u64)?;
    log.sync_data()
}

// Makes what was written to the log last. A register file that is made from a log comes behind this, so that it is never ahead of it.
pub fn sync(rt: &HostRuntime, log: &File) -> Result<(), Told> {
    or_tell(rt, b"cannot sync the log", log.sync_data())
}
