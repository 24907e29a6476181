// Printing.
use iscc::refusal::Refusal;
use std::fmt;
use std::io::Write;

// Standard output. That a write fails stops nothing: what is missing shows.
#[derive(Drop)]
pub struct Out<'a> {
    rt: &'a HostRuntime,
}

impl<'a> Out<'a> {
    pub fn new(rt: &'a HostRuntime) -> Self {
        Out { rt }
    }

    pub fn bytes(&mut self, bytes: &[u8]) -> fmt::Result {
        let _ = self.rt.stdout().write_all(bytes);
        Ok(())
    }

    pub fn refused(&mut self, q: Refusal) -> fmt::Result {
        let number = q.number();
        fmt::Write::write(self, format_args!("refused {number}"))
    }
}

impl fmt::Write for Out<'_> {
    fn write_str(&mut self, s: &str) -> fmt::Result {
        self.bytes(s.as_bytes())
    }
}

// Bytes in hex.
#[derive(Clone, Copy)]
pub struct Hex<'a>(pub &'a [u8]);

impl fmt::Display for Hex<'_> {
    fn fmt<W: fmt::Write>(&self, f: &mut fmt::Formatter<W>) -> fmt::Result {
        for byte in self.0 {
            write!(f, "{byte:02x}")?;
        }
        Ok(())
    }
}
