// Reads the raw header at the front of bytes.
ghost use Rattle.std.specs.Prelude.{◌≡◌, ◌+◌, ◌*◌, ◌%◌, ◌≤◌, ◌<◌, ◌||◌, ◌&&◌, eqb, ltb, length, take, drop, get_or, IfSome};
ghost use Rattle.std.specs.Option.{ok_or};
ghost use Rattle.iscc.specs.Digits.{value};
ghost use Rattle.iscc.specs.Refusals.{bad_header};
ghost use Rattle.iscc.specs.Varnibble.{read_varnibble};
ghost use Rattle.iscc.specs.Header.{nibbles, read_header};
ghost use Rattle.header.specs.Representation.{number_as, header_read_as, header_fields, fields_of, short_header};

use crate::{Header, rows};
use iscc::refusal::Refusal;

// A header that was read, and the bytes it took.
#[derive(Clone, Copy)]
pub struct RawHeader {
    pub header: Header,
    pub used: usize,
}

// A number that was read, and the nibbles it took.
#[derive(Clone, Copy)]
struct Number {
    value: u32,
    width: usize,
}

// The nibble at an index, the high nibble of a byte first; 0 past the end.
fn nibble(bytes: &[u8], at: usize) -> u32
    ensures value { result ≡ get_or (nibbles bytes.now) at 0 }
    ensures small { result < 16 }
{
    let Some(&b) = bytes.get(at / 2) else {
        return 0;
    };
    if at % 2 == 0 {
        return u32::from(b / 16);
    }
    u32::from(b % 16)
}

// The number that `width` nibbles stand for, prefix included.
fn value_at(bytes: &[u8], at: usize, width: usize) -> u32
    requires few { width ≤ 4 }
    requires near { at ≤ 12 }
    requires within { at + width ≤ 2 * length bytes.now }
    ensures { result ≡ value 4 (take width (drop at (nibbles bytes.now))) }
{
    let mut v: u32 = 0;
    for i in 0..width {
        v = v * 16 + nibble(bytes, at + i);
    }
    v
}

// The varnibble at a nibble. The prefix 1111 means nothing.
fn number_at(bytes: &[u8], at: usize) -> Option<Number>
    requires { at ≤ 12 }
    ensures number { result ≡ number_as (read_varnibble (drop at (nibbles bytes.now))) }
    ensures width { IfSome result (λ n. n.width ≤ 4) }
{
    if bytes.len() <= at / 2 {
        return None;
    }
    let row = rows::row_by(nibble(bytes, at))?;
    if bytes.len() <= (at + row.width - 1) / 2 {
        return None;
    }
    let v = value_at(bytes, at, row.width);
    Some(Number {
        value: row.first + v % row.count,
        width: row.width,
    })
}

// Whether the nibble behind an odd count of nibbles is zero.
fn padded(bytes: &[u8], count: usize) -> bool
    ensures { result ≡ (eqb (count % 2) 0 || eqb (get_or (nibbles bytes.now) count 0) 0) }
{
    count % 2 == 0 || nibble(bytes, count) == 0
}

// A header of any size at the front of the bytes: four varnibbles, each behind the one before.
fn read_any(bytes: &[u8]) -> Option<RawHeader>
    ensures { ok_or result bad_header ≡ header_read_as (read_header bytes.now) }
{
    let main_type = number_at(bytes, 0)?;
    let subtype = number_at(bytes, main_type.width)?;
    let half = main_type.width + subtype.width;
    let version = number_at(bytes, half)?;
    let length_number = number_at(bytes, half + version.width)?;
    let count = half + version.width + length_number.width;
    if !padded(bytes, count) {
        return None;
    }
    Some(RawHeader {
        header: Header {
            main_type: main_type.value,
            subtype: subtype.value,
            version: version.value,
            length_number: length_number.value,
        },
        used: count.div_ceil(2),
    })
}

// Whether two bytes are a header of four numbers below 8, the only kind that is permitted.
fn is_short(a: u8, b: u8) -> bool
    ensures { result ≡ (ltb a 128 && ltb (a % 16) 8 && ltb b 128 && ltb (b % 16) 8) }
{
    a < 128 && a % 16 < 8 && b < 128 && b % 16 < 8
}

// Such a header: each number is its own nibble.
fn short(a: u8, b: u8) -> RawHeader
    ensures { result ≡ short_header a b }
{
    RawHeader {
        header: Header {
            main_type: u32::from(a / 16),
            subtype: u32::from(a % 16),
            version: u32::from(b / 16),
            length_number: u32::from(b % 16),
        },
        used: 2,
    }
}

// The raw header at the front of the bytes, or 7. What follows is not its concern.
pub fn read(bytes: &[u8]) -> Result<RawHeader, Refusal>
    ensures answer { result ≡ header_read_as (read_header bytes.now) }
    ensures fields { header_fields result ≡ fields_of (read_header bytes.now) }
{
    match bytes {
        [a, b, ..] if is_short(*a, *b) => Ok(short(*a, *b)),
        _ => read_any(bytes).ok_or(Refusal::BadHeader),
    }
}
