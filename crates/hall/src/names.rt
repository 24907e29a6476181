// The one text of a code, for a line.
ghost use Rattle.std.specs.Prelude.{◌≡◌, ◌≤◌, length};
ghost use Rattle.hall.specs.Serving.{text_of_typed};
ghost use Rattle.hall.specs.Sheet.{text_of_bytes};

use door::intake::intake;
use door::text::text;

// The longest text of a code, in bytes.
pub(crate) const LONGEST_NAME: usize = 73;

// Written to the front of the area; nothing where the bytes are no code.
pub(crate) fn of_code<'a>(code: &[u8], name: &'a mut [u8; LONGEST_NAME]) -> &'a [u8]
    ensures text { result.now ≡ text_of_bytes code.now }
    ensures bound { length result.now ≤ LONGEST_NAME }
{
    match text(code, name) {
        Ok(n) => &name[..n],
        Err(_) => &[],
    }
}

// The same of the code that a typed text holds. One function for both would take the door's as a closure, for two arms.
pub(crate) fn of_text<'a>(typed: &[u8], name: &'a mut [u8; LONGEST_NAME]) -> &'a [u8]
    ensures text { result.now ≡ text_of_typed typed.now }
    ensures bound { length result.now ≤ LONGEST_NAME }
{
    match intake(typed, name) {
        Ok(n) => &name[..n],
        Err(_) => &[],
    }
}
