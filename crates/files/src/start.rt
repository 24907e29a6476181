// A start on a counter's folder: the register file, then what the log has more; and the snapshot behind it.
use crate::log_file::{Access, LogRead};
use crate::register_file::Old;
use crate::{bytes_at, log_file, register_file, say};
use answers::replies;
use hall::standby;
use iscc::refusal::Refusal;
use loans::layout::REGISTER_LENGTH;
use pending_log::replay::Replayed;
use register::check;
use std::fs::File;
use streams::{Told, or_tell, tell};

// A snapshot is written where it spares the next start the replay of so many records: docs/RELIABILITY.md has the measurement.
const SNAPSHOT_AFTER: u32 = 1000;

// A folder at work: its log, that log's length, and the last number of the register file.
#[derive(Drop)]
pub struct OpenLog {
    file: File,
    length: usize,
    saved: u32,
}

impl OpenLog {
    // Appends a record, and syncs it.
    pub fn append(&mut self, rt: &HostRuntime, entry: &[u8]) -> Result<(), Told> {
        or_tell(
            rt,
            b"cannot write to the log",
            bytes_at::write(&self.file, entry, self.length),
        )?;
        log_file::sync(rt, &self.file)?;
        self.length += entry.len();
        Ok(())
    }

    // A snapshot, where it is worth one. That it could not be made is told, and loses nothing: the log has every change.
    pub fn keep(&self, rt: &HostRuntime, name: &[u8], area: &[u8]) {
        if register_file::last_number(area).saturating_sub(self.saved) >= SNAPSHOT_AFTER {
            let _ = register_file::save(rt, name, area, Old::Overwritten);
        }
    }
}

// The register of a folder's register file. What is wrong with it is told.
pub fn load(rt: &HostRuntime, name: &[u8]) -> Result<[u8; REGISTER_LENGTH], Told> {
    let Some(contents) = register_file::load(rt, name)? else {
        return Err(tell(
            rt,
            b"there is no register: rebuild makes it from the log, new begins a register and a log",
        ));
    };
    match <[u8; REGISTER_LENGTH]>::try_from(contents.as_bytes()) {
        Ok(area) if check::is_register(&area) => Ok(area),
        _ => Err(say::tell_line(rt, replies::refused(Refusal::NotRegister))),
    }
}

// A torn last record is told, and cut off where the run may write.
fn cut_off(rt: &HostRuntime, log: &File, offset: usize, access: Access) -> Result<(), Told> {
    if access == Access::Read {
        say::tell_number(
            rt,
            b"the log is torn: the next change cuts it off at byte ",
            offset as u64,
        );
        return Ok(());
    }
    or_tell(
        rt,
        b"cannot cut off the torn record",
        log_file::cut(log, offset),
    )?;
    say::tell_number(
        rt,
        b"the log was torn: it is cut off at byte ",
        offset as u64,
    );
    Ok(())
}

// What the log gave: it is made to last as it was found, and reaches as far as the register.
fn admit(rt: &HostRuntime, log: &File, read: LogRead, area: &[u8]) -> Result<(), Told> {
    if !log_file::has_length(log, read.length) {
        return Err(tell(rt, b"the log was changed while it was read"));
    }
    if read.reached != register_file::last_number(area) {
        return Err(say::tell_number(
            rt,
            b"the log lacks records that the register has: its last one is ",
            read.reached as u64,
        ));
    }
    log_file::sync(rt, log)
}

// A start on a folder: over what its register file has, what its log has more.
pub fn start(
    rt: &HostRuntime,
    name: &[u8],
    area: &mut [u8],
    access: Access,
) -> Result<OpenLog, Told> {
    let file = log_file::open(rt, name, access)?;
    let saved = register_file::last_number(area);
    let read = log_file::replay(rt, &file, area)?;
    let length = match read.end {
        Replayed::Ended => {
            admit(rt, &file, read, area)?;
            read.length
        }
        Replayed::Torn(offset) => {
            admit(rt, &file, read, area)?;
            cut_off(rt, &file, offset, access)?;
            offset
        }
        Replayed::Stopped(_, _) => {
            return Err(say::tell_line(rt, standby::replay_line(read.end, area)));
        }
        Replayed::Refused(q) => {
            return Err(say::tell_line(rt, replies::refused(q)));
        }
    };
    Ok(OpenLog {
        file,
        length,
        saved,
    })
}
