// The run of base32 characters that a typed text holds: what is left once blanks, scheme and hyphens are dropped.
ghost use Rattle.std.specs.Prelude.{◌≡◌, true, ◌≤◌, length, take};
ghost use Rattle.payload.specs.Offsets.{offset_in};
ghost use Rattle.iscc.specs.Doors.{cleaned};
ghost use Rattle.payload.specs.Runs.{no_hyphen, Dropped};

use crate::span::Typed;

// The longest run that a code may be typed as.
pub const LONGEST_RUN: usize = 80;

// A typed text with the run that it holds.
#[derive(Clone, Copy)]
pub struct Run<'a> {
    pub typed: Typed<'a>,
    pub chars: &'a [u8],
    ghost cleaned: { chars.now ≡ cleaned typed.text.now },
}

// Whether no character of a part is a hyphen. It looks at every character, so that the loop has no branch.
fn none_in(part: &[u8]) -> bool
    ensures { result ≡ no_hyphen part.now }
{
    let mut none = true;
    for &c in part {
        none &= c != b'-';
    }
    none
}

// How many characters at the front are no hyphens: all of them, or so many sixteens as can be told at once.
pub fn plain_front(typed: &[u8]) -> usize
    ensures within { result ≤ length typed.now }
    ensures plain { no_hyphen (take result typed.now) ≡ true }
{
    let mut rest = typed;
    while let Some((part, behind)) = rest.split_first_chunk::<16>() {
        if !none_in(part) {
            return typed.len() - rest.len();
        }
        rest = behind;
    }
    if none_in(rest) {
        return typed.len();
    }
    typed.len() - rest.len()
}

// Writes the characters that are no hyphens to an area at least as long, and counts them. Each character is stored, and the next one
// over it where it was a hyphen, so that the loop has no branch: where hyphens stand as they like, a processor foresees none.
fn drop_few(typed: &[u8], out: &mut [u8]) -> usize
    requires { length typed.now ≤ length out.old }
    ensures { Dropped typed.now out.new result }
{
    let mut count: usize = 0;
    for &c in typed {
        out[count] = c;
        count += usize::from(c != b'-');
    }
    count
}

// The same for an area of any length: what has no room in it is only counted.
fn drop_many(typed: &[u8], out: &mut [u8]) -> usize
    ensures { Dropped typed.now out.new result }
{
    let mut count: usize = 0;
    for &c in typed {
        if c != b'-' {
            if count < out.len() {
                out[count] = c;
            }
            count += 1;
        }
    }
    count
}

fn drop_hyphens(typed: &[u8], out: &mut [u8]) -> usize
    ensures { Dropped typed.now out.new result }
{
    if typed.len() <= out.len() {
        return drop_few(typed, out);
    }
    drop_many(typed, out)
}

// Writes the run of characters that begin with so many that are no hyphens, and counts it.
pub fn without_hyphens(typed: &[u8], front: usize, out: &mut [u8]) -> usize
    requires within { front ≤ length typed.now }
    requires plain { no_hyphen (take front typed.now) ≡ true }
    requires room { front ≤ length out.old }
    ensures { Dropped typed.now out.new result }
{
    out[0..front].copy_from_slice(&typed[0..front]);
    front + drop_hyphens(&typed[front..], &mut out[front..])
}

// The offset among the characters behind the scheme of the one with this index in the run.
pub fn offset_in(typed: &[u8], index: usize) -> usize
    ensures value { result ≡ offset_in typed.now index }
    ensures within { result ≤ length typed.now }
{
    let mut left = index;
    for (at, &c) in typed.iter().enumerate() {
        if c == b'-' {
            continue;
        }
        if left == 0 {
            return at;
        }
        left -= 1;
    }
    typed.len()
}
