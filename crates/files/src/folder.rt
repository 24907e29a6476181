// The paths in a folder, and its own sync.
use crate::buffer::Buffer;
use std::fs::File;
use std::{io, str};
use streams::fail;

// The system takes no path of so many bytes.
const PATH_MAX: usize = 4096;

// The system's numbers of two errors: a path is too long, and bytes are no text.
const ENAMETOOLONG: i32 = 36;

const EILSEQ: i32 = 84;

pub type Path = Buffer<PATH_MAX>;

// A name in a folder. One that does not fit fills the buffer, and is refused.
pub fn name_in(folder: &[u8], name: &[u8]) -> Path {
    let mut path = Buffer::new();
    path.push(folder);
    path.push(b"/");
    path.push(name);
    path
}

// The path as text, since std takes no other.
pub fn text_of(path: &[u8]) -> io::Result<&str> {
    if path.len() >= PATH_MAX {
        return Err(io::Error::from_raw_os_error(ENAMETOOLONG));
    }
    str::from_utf8(path).map_err(|_| io::Error::from_raw_os_error(EILSEQ))
}

// Opens what a path names for reading.
pub fn open_to_read(rt: &HostRuntime, path: &[u8]) -> io::Result<File> {
    File::open(rt, text_of(path)?)
}

// Makes what was made, renamed and removed in the folder last, or tells that it cannot, and answers why: who makes a log tells it too.
pub fn sync(rt: &HostRuntime, folder: &[u8]) -> io::Result<()> {
    let opened = open_to_read(rt, folder).inspect_err(|error| {
        fail(rt, b"cannot open the folder", *error);
    })?;
    opened.sync_all().inspect_err(|error| {
        fail(rt, b"cannot sync the folder", *error);
    })
}
