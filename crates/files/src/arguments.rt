// The program's arguments, as bytes.
use crate::buffer::Buffer;
use std::env::FillError;
use std::rt::Env;

// More than an argument that is read may have.
const ROOM: usize = 4096;

pub type Word = Buffer<ROOM>;

pub fn word(rt: &HostRuntime, i: usize) -> Result<Word, FillError> {
    let mut bytes = [0u8; ROOM];
    let length = rt.arg(i, &mut bytes)?;
    Ok(Buffer::front(bytes, length))
}

// Whether there is an argument of this number.
pub fn is_given(rt: &HostRuntime, i: usize) -> bool {
    let mut area = [0u8; 1];
    !matches!(rt.arg(i, &mut area), Err(FillError::NotPresent))
}
