// The bytes that a typed text holds.
ghost use Rattle.std.specs.Prelude.{◌≡◌, ◌≤◌, true, length, take};
ghost use Rattle.iscc.specs.Answer.{into, area_after};
ghost use Rattle.iscc.specs.Doors.{payload};
ghost use Rattle.payload.specs.Payloads.{bad_offset, payload_detail, payload_answer_as};
ghost use Rattle.payload.specs.Runs.{no_hyphen};

use crate::run;
use crate::run::{LONGEST_RUN, Run};
use crate::span::Typed;
use iscc::refusal::{DetailedRefusal, Refusal};

// The longest typed text that is looked at, in bytes.
pub const LONGEST_TYPED: usize = 1024;

// The offset in the text of the first character of its run that is outside the alphabet; 0 where there is none.
fn bad_offset(run: Run<'_>) -> usize
    ensures { result ≡ bad_offset run.entry.typed.text.now }
{
    let bad = base32::reader::first_bad(run.chars);
    if bad < run.chars.len() {
        return run.typed.offset(bad);
    }
    0
}

// Writes the bytes of a text's run to the front of the area, and answers how many they are: 1, 3, 4, 5, 6, then 15. The detail of 4
// is the offset of the first bad character.
fn read_run(run: Run<'_>, out: &mut [u8]) -> Result<usize, DetailedRefusal>
    ensures answer { result ≡ payload_answer_as (payload_detail run.entry.typed.text.now) (into (length out.old) (payload run.entry.typed.text.now)) }
    ensures area { out.new ≡ area_after (into (length out.old) (payload run.entry.typed.text.now)) out.old }
{
    if run.chars.is_empty() {
        return Err(Refusal::EmptyText.with_detail(0));
    }
    if LONGEST_RUN < run.chars.len() {
        return Err(Refusal::LongRun.with_detail(0));
    }
    match base32::reader::read(run.chars, out) {
        Ok(n) => Ok(n),
        Err(q) => Err(q.with_detail(bad_offset(run))),
    }
}

// The same of a text whose code has hyphens, from `front` on.
fn read_hyphened(typed: Typed<'_>, front: usize, out: &mut [u8]) -> Result<usize, DetailedRefusal>
    requires within { front ≤ length typed.code.now }
    requires plain { no_hyphen (take front typed.code.now) ≡ true }
    ensures answer { result ≡ payload_answer_as (payload_detail typed.entry.text.now) (into (length out.old) (payload typed.entry.text.now)) }
    ensures area { out.new ≡ area_after (into (length out.old) (payload typed.entry.text.now)) out.old }
{
    if LONGEST_RUN < front {
        return Err(Refusal::LongRun.with_detail(0));
    }
    let mut chars = [0u8; LONGEST_RUN];
    let count = run::without_hyphens(typed.code, front, &mut chars);
    if LONGEST_RUN < count {
        return Err(Refusal::LongRun.with_detail(0));
    }
    let chars = &chars[0..count];
    read_run(Run { typed, chars }, out)
}

// The same of a text that is not too long. A run that was typed without hyphens is read where it stands.
fn read_typed(typed: Typed<'_>, out: &mut [u8]) -> Result<usize, DetailedRefusal>
    ensures answer { result ≡ payload_answer_as (payload_detail typed.entry.text.now) (into (length out.old) (payload typed.entry.text.now)) }
    ensures area { out.new ≡ area_after (into (length out.old) (payload typed.entry.text.now)) out.old }
{
    let front = run::plain_front(typed.code);
    if front == typed.code.len() {
        let chars = typed.code;
        return read_run(Run { typed, chars }, out);
    }
    read_hyphened(typed, front, out)
}

// Writes the bytes of a text's run to the front of the area. Gives 2, 1, 3, 4, 5, 6, then 15, in this order.
pub fn read(text: &[u8], out: &mut [u8]) -> Result<usize, DetailedRefusal>
    ensures answer { result ≡ payload_answer_as (payload_detail text.now) (into (length out.old) (payload text.now)) }
    ensures area { out.new ≡ area_after (into (length out.old) (payload text.now)) out.old }
{
    if LONGEST_TYPED < text.len() {
        return Err(Refusal::LongText.with_detail(0));
    }
    read_typed(Typed::new(text), out)
}
