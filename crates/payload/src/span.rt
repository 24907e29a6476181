// Where the typed code stands in a text: behind the blanks and the scheme, up to the blanks at the end.
ghost use Rattle.std.specs.Prelude.{◌≡◌, ◌+◌, ◌≤◌, length};
ghost use Rattle.iscc.specs.Doors.{behind_scheme};
ghost use Rattle.payload.specs.Offsets.{start, offset_of};

use crate::{run, scheme, trim};

// A text that is not too long, and the code in it with its offset.
#[derive(Clone, Copy)]
pub struct Typed<'a> {
    pub text: &'a [u8],
    pub from: usize,
    pub code: &'a [u8],
    ghost short: { length text.now ≤ 1024 },
    ghost within: { from + length code.now ≤ length text.now },
    ghost begins: { from ≡ start text.now },
    ghost stands: { code.now ≡ behind_scheme text.now },
}

impl<'a> Typed<'a> {
    pub fn new(text: &'a [u8]) -> Typed<'a>
        requires { length text.now ≤ 1024 }
        ensures { result.text.now ≡ text.now }
    {
        let blanks = trim::blanks(text);
        let rest = &text[blanks..];
        let trimmed = &rest[0..trim::trimmed_length(rest)];
        let front = scheme::scheme_length(trimmed);
        Typed {
            text,
            from: blanks + front,
            code: &trimmed[front..],
        }
    }

    // The offset in the text of the character with this index in its run.
    pub fn offset(self, index: usize) -> usize
        ensures { result ≡ offset_of self.entry.text.now index }
    {
        self.from + run::offset_in(self.code, index)
    }
}
