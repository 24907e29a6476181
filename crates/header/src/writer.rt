// Writes a raw header to the front of a lent area.
ghost use Rattle.std.specs.Prelude.{◌≡◌, ◌+◌, ◌*◌, ◌^◌, ◌≤◌, ◌<◌, ◌&&◌, ◌++◌, leb, length};
ghost use Rattle.iscc.specs.Answer.{accept, area_after};
ghost use Rattle.iscc.specs.Digits.{digits};
ghost use Rattle.iscc.specs.Varnibble.{varnibble};
ghost use Rattle.iscc.specs.Header.{Writable, header_bytes, write_header};
ghost use Rattle.iscc.specs.Representation.{written_as};
ghost use Rattle.header.specs.Representation.{header_from};

use crate::{Header, rows};
use iscc::refusal::Refusal;

// A header whose four numbers varnibbles can write.
#[derive(Clone, Copy)]
struct WritableHeader {
    header: Header,
    ghost writable: { Writable (header_from header) },
}

// Nibbles, as the low digits of a number: a header of 16 nibbles fits.
#[derive(Clone, Copy)]
struct Nibbles {
    value: u64,
    count: usize,
    ghost fits: { value < 2 ^ (4 * count) },
}

// Bytes, as the low digits of a number.
#[derive(Clone, Copy)]
struct Bytes {
    value: u64,
    count: usize,
    ghost few: { count ≤ 8 },
}

// The nibbles of a number's varnibble behind others.
fn append(front: Nibbles, n: u32) -> Nibbles
    requires number { n ≤ 4679 }
    requires room { front.count ≤ 12 }
    ensures nibbles { digits 4 result.count result.value ≡ digits 4 front.count front.value ++ varnibble n }
    ensures more { result.count ≤ front.count + 4 }
{
    let row = rows::row_of(n);
    let x = row.prefix + (n - row.first);
    Nibbles {
        value: front.value * row.size + u64::from(x),
        count: front.count + row.width,
    }
}

// The four varnibbles of a header.
fn nibbles_of(h: WritableHeader) -> Nibbles
    ensures nibbles { digits 4 result.count result.value ≡ varnibble h.header.main_type ++ varnibble h.header.subtype ++ varnibble h.header.version ++ varnibble h.header.length_number }
    ensures few { result.count ≤ 16 }
{
    let a = append(Nibbles { value: 0, count: 0 }, h.header.main_type);
    let b = append(a, h.header.subtype);
    let c = append(b, h.header.version);
    append(c, h.header.length_number)
}

// The bytes of a header: a zero nibble follows an odd count.
fn bytes_of(h: WritableHeader) -> Bytes
    ensures { digits 8 result.count result.value ≡ header_bytes (header_from h.header) }
{
    let n = nibbles_of(h);
    if n.count % 2 == 0 {
        return Bytes {
            value: n.value,
            count: n.count / 2,
        };
    }
    Bytes {
        value: n.value * 16,
        count: n.count.div_ceil(2),
    }
}

// Writes bytes to the front of the area.
fn put(bytes: Bytes, out: &mut [u8])
    requires { bytes.count ≤ length out.old }
    ensures { out.new ≡ area_after (accept (digits 8 bytes.count bytes.value)) out.old }
{
    out[0..bytes.count].copy_from_slice(&bytes.value.to_be_bytes()[8 - bytes.count..]);
}

// Whether varnibbles can write the four numbers.
fn writable(h: Header) -> bool
    ensures { result ≡ (leb h.main_type 4679 && (leb h.subtype 4679 && (leb h.version 4679 && leb h.length_number 4679))) }
{
    h.main_type <= 4679 && h.subtype <= 4679 && h.version <= 4679 && h.length_number <= 4679
}

// Writes a raw header: 17, then 15.
pub fn write(h: Header, out: &mut [u8]) -> Result<usize, Refusal>
    ensures answer { result ≡ written_as (write_header (header_from h) (length out.old)) }
    ensures area { out.new ≡ area_after (write_header (header_from h) (length out.old)) out.old }
{
    if !writable(h) {
        return Err(Refusal::NumberTooLarge);
    }
    let bytes = bytes_of(WritableHeader { header: h });
    if out.len() < bytes.count {
        return Err(Refusal::AreaTooShort);
    }
    put(bytes, out);
    Ok(bytes.count)
}
