// The register file: a snapshot of the log, read whole and replaced as a whole.
use crate::buffer::Buffer;
use crate::folder::{Path, name_in, open_to_read, text_of};
use crate::{bytes_at, folder};
use loans::layout::REGISTER_LENGTH;
use register::area::Register;
use std::fs::{File, OpenOptions, Permissions};
use std::io::ErrorKind;
use std::os::unix::fs::{OpenOptionsExt, PermissionsExt};
use std::random::RandomSource;
use std::{fs, io};
use streams::{Told, fail, or_tell};

// For owner and group alone, whatever the process's mask: it holds who has what.
pub const MODE: u32 = 0o660;

// For owner alone: the mode of a file that only keeps a name.
const TEMP_MODE: u32 = 0o600;

// A name that ends in these letters; so many names are tried.
const LETTERS: usize = 6;

const TEMP_TRIES: u32 = 238328;

// A byte more than a register has, so that a longer file is seen.
const ROOM: usize = REGISTER_LENGTH + 1;

// What a register file has.
pub type Contents = Buffer<ROOM>;

// What becomes of the register file that stands there when it is replaced.
#[derive(Clone, Copy, PartialEq, Eq)]
pub enum Old {
    Overwritten,
    SetAside,
}

// The register file of a folder; None where there is none.
pub fn load(rt: &HostRuntime, folder: &[u8]) -> Result<Option<Contents>, Told> {
    match open_to_read(rt, name_in(folder, b"register").as_bytes()) {
        Ok(file) => or_tell(rt, b"cannot read the register", read_whole(&file)).map(Some),
        Err(error) if error.kind() == ErrorKind::NotFound => Ok(None),
        Err(error) => Err(fail(rt, b"cannot open the register", error)),
    }
}

fn read_whole(file: &File) -> io::Result<Contents> {
    let mut bytes = [0u8; ROOM];
    let length = bytes_at::read(file, &mut bytes, 0)?;
    Ok(Buffer::front(bytes, length))
}

// Writes and syncs a new file of that name.
fn write_new(rt: &HostRuntime, path: &[u8], area: &[u8]) -> io::Result<()> {
    let file = OpenOptions::new()
        .write(true)
        .create(true)
        .truncate(true)
        .open(rt, text_of(path)?)?;
    file.set_permissions(Permissions::from_mode(MODE))?;
    bytes_at::write(&file, area, 0)?;
    file.sync_all()
}

// Letters that the system chooses.
fn letters(rt: &HostRuntime) -> io::Result<[u8; LETTERS]> {
    let mut chosen = [0u8; LETTERS];
    rt.fill_bytes(&mut chosen)?;
    for byte in chosen.iter_mut() {
        *byte = b'a' + *byte % 26;
    }
    Ok(chosen)
}

// Makes an empty file of a name that no file has.
fn make_new(rt: &HostRuntime, path: &[u8]) -> io::Result<File> {
    OpenOptions::new()
        .read(true)
        .write(true)
        .create_new(true)
        .mode(TEMP_MODE)
        .open(rt, text_of(path)?)
}

// Makes an empty file whose name is that path and six letters that the system chooses, and answers its name.
fn make_temp(rt: &HostRuntime, stem: Path) -> io::Result<Path> {
    for _ in 0..TEMP_TRIES {
        let mut path = stem;
        path.push(&letters(rt)?);
        match make_new(rt, path.as_bytes()) {
            Ok(_) => return Ok(path),
            Err(error) if error.kind() == ErrorKind::AlreadyExists => {}
            Err(error) => return Err(error),
        }
    }
    Err(io::Error::from(ErrorKind::AlreadyExists))
}

// Gives the register file a name that no file has yet, so that nothing is overwritten. One that is missing is none: the empty file is
// removed again, and that it could not be removed loses nothing.
fn set_aside(rt: &HostRuntime, folder: &[u8], register: &[u8]) -> io::Result<()> {
    let kept = make_temp(rt, name_in(folder, b"register.old."))?;
    match rename(rt, register, kept.as_bytes()) {
        Err(error) if error.kind() == ErrorKind::NotFound => {
            let _ = fs::remove_file(rt, text_of(kept.as_bytes())?);
            Ok(())
        }
        renamed => renamed,
    }
}

// Replaces the register file: a new file beside it, synced, then renamed, and the folder synced. Until the rename the old one stands;
// it is overwritten, or kept under a name of its own.
pub fn save(rt: &HostRuntime, folder: &[u8], area: &[u8], old: Old) -> Result<(), Told> {
    let new = name_in(folder, b"register.new");
    let register = name_in(folder, b"register");
    or_tell(
        rt,
        b"cannot write the new register file",
        write_new(rt, new.as_bytes(), area),
    )?;
    if old == Old::SetAside {
        or_tell(
            rt,
            b"cannot keep the old register file",
            set_aside(rt, folder, register.as_bytes()),
        )?;
    }
    or_tell(
        rt,
        b"cannot rename the new register file",
        rename(rt, new.as_bytes(), register.as_bytes()),
    )?;
    folder::sync(rt, folder).map_err(|_| Told)
}

fn rename(rt: &HostRuntime, from: &[u8], to: &[u8]) -> io::Result<()> {
    fs::rename(rt, text_of(from)?, text_of(to)?)
}

// The last number of the area's register; 0, as before the first record, where it is none.
pub fn last_number(area: &[u8]) -> u32 {
    match Register::from_bytes(area) {
        Some(register) => register.last_number(),
        None => 0,
    }
}
