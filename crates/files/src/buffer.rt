// Bytes of which there are at most so many: a path, a word, a line, a file.
ghost use Rattle.std.specs.Prelude.{◌≡◌, [], ◌++◌, ◌≤◌, take};

#[derive(Clone, Copy)]
pub struct Buffer<const N: usize> {
    bytes: [u8; N],
    length: usize,
    ghost within: { length ≤ N },
}

impl<const N: usize> Buffer<N> {
    ghost use Rattle.files.specs.Buffer.{bytes_in};

    pub fn new() -> Self
        ensures { bytes_in result ≡ [] }
    {
        Buffer {
            bytes: [0; N],
            length: 0,
        }
    }

    // The first bytes of an area.
    pub fn front(bytes: [u8; N], length: usize) -> Self
        requires { length ≤ N }
        ensures { bytes_in result ≡ take length bytes.entry }
    {
        Buffer { bytes, length }
    }

    // A part behind what stands there, as far as there is room.
    pub fn push(&mut self, part: &[u8])
        ensures { bytes_in self.new ≡ take N (bytes_in self.old ++ part.now) }
    {
        let count = part.len().min(N - self.length);
        let area = &mut self.bytes[..];
        area[self.length..self.length + count].copy_from_slice(&part[..count]);
        self.length += count;
    }

    pub fn as_bytes(&self) -> &[u8]
        ensures { result.now ≡ bytes_in self.now }
    {
        &self.bytes[..self.length]
    }

    pub fn as_mut_bytes(&mut self) -> &mut [u8] {
        let length = self.length;
        let bytes = &mut self.bytes;
        let area = &mut bytes[..];
        &mut area[..length]
    }
}
