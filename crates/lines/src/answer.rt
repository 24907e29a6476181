// The answer to one line: intake's text or the refusal, and LF.
ghost use Rattle.std.specs.Prelude.{◌≡◌, ◌++◌, ◌≤◌, length};
ghost use Rattle.iscc.specs.Answer.{accept, area_after};
ghost use Rattle.lines.specs.Feeding.{answer_line, begun_line};

use crate::begun::LONGEST_LINE;
use crate::scan::LF;
use crate::{begun, refused};
use iscc::refusal::Refusal;

// The room that every answer fits.
pub const ROOM: usize = 74;

// Answers a line that is there in one piece, and says how many bytes that took.
pub(crate) fn whole(text: &[u8], out: &mut [u8]) -> usize
    requires { 74 ≤ length out.old }
    ensures answer { result ≡ length (answer_line text.now) }
    ensures area { out.new ≡ area_after (accept (answer_line text.now)) out.old }
{
    match door::intake::intake(text, out) {
        Ok(n) => {
            out[n] = LF;
            n + 1
        }
        Err(q) => refused::write(q, out),
    }
}

// Answers the line that the area and the count keep.
pub(crate) fn kept(line: &[u8], held: usize, out: &mut [u8]) -> usize
    requires { 74 ≤ length out.old }
    ensures answer { result ≡ length (answer_line (begun_line line.now held)) }
    ensures area { out.new ≡ area_after (accept (answer_line (begun_line line.now held))) out.old }
{
    let Some(text) = begun::text(line, held) else {
        return refused::write(Refusal::LongText, out);
    };
    whole(text, out)
}

// Answers the line begun with its last part, both copied together.
fn copied(begun: &[u8], part: &[u8], out: &mut [u8]) -> usize
    requires room { 74 ≤ length out.old }
    requires short { length begun.now ≤ 1024 }
    ensures answer { result ≡ length (answer_line (begun.now ++ part.now)) }
    ensures area { out.new ≡ area_after (accept (answer_line (begun.now ++ part.now))) out.old }
{
    let mut text = [0u8; LONGEST_LINE];
    let held = begun::add(&mut text, 0, begun);
    let whole = begun::add(&mut text, held, part);
    kept(&text, whole, out)
}

// Answers the line begun with its last part. A line without an earlier part is not copied.
pub(crate) fn joined(line: &[u8], held: usize, part: &[u8], out: &mut [u8]) -> usize
    requires { 74 ≤ length out.old }
    ensures answer { result ≡ length (answer_line (begun_line line.now held ++ part.now)) }
    ensures area { out.new ≡ area_after (accept (answer_line (begun_line line.now held ++ part.now))) out.old }
{
    match begun::text(line, held) {
        Some(begun) if begun.is_empty() => whole(part, out),
        Some(begun) => copied(begun, part, out),
        None => refused::write(Refusal::LongText, out),
    }
}
