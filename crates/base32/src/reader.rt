// Text to bytes.
ghost use Rattle.std.specs.Prelude.{◌≡◌, cond, ◌&&◌, ◌++◌, map, ◌+◌, ◌*◌, ◌/◌, ◌%◌, ◌^◌, ◌<◌, ◌≤◌, ltb, leb, length, take, drop};
ghost use Rattle.iscc.specs.Answer.{area_after};
ghost use Rattle.iscc.specs.Alphabet.{digit_in, is_digit};
ghost use Rattle.iscc.specs.Base32.{base32, read_base32};
ghost use Rattle.iscc.specs.Digits.{digits, value, Below, all_below, byte_count, spare_count};
ghost use Rattle.iscc.specs.Representation.{written_as};
ghost use Rattle.iscc.specs.Lists.{first_not};

use iscc::refusal::Refusal;

// The digit of a character in either case, or 32 where it has none.
pub(crate) fn digit_of(c: u8) -> u8
    ensures { (result ≡ digit_in base32 c) × (result ≤ 32) }
{
    match c {
        b'A'..=b'Z' => c - b'A',
        b'a'..=b'z' => c - b'a',
        b'2'..=b'7' => c - b'2' + 26,
        _ => 32,
    }
}

// 0 for a byte from `first` to `last`, else 1.
fn outside_range(c: u8, first: u8, last: u8) -> u8
    ensures { (result ≡ cond (leb first c && leb c last) 0 1) × (result ≤ 1) }
{
    u8::from(!(first..=last).contains(&c))
}

// 0 for a character that has a digit, else 1. Without the bit of 32 a small letter is its capital.
fn outside_alphabet(c: u8) -> u8
    ensures { result ≡ cond (is_digit base32 c) 0 1 }
{
    outside_range(c & 0xdf, b'A', b'Z') * outside_range(c, b'2', b'7')
}

// Whether each character has a digit. It tests the largest answer alone, so that the loop has no branch: `all` takes 17 times as long on
// 64 characters.
fn all_digits(text: &[u8]) -> bool
    ensures { result ≡ all_below 32 (map (digit_in base32) text.now) }
{
    let mut most: u8 = 0;
    for &c in text {
        most = most.max(outside_alphabet(c));
    }
    most < 1
}

// The index of the first character outside the alphabet, or the text's length.
pub fn first_bad(text: &[u8]) -> usize
    ensures { result ≡ first_not (is_digit base32) text.now }
{
    if all_digits(text) {
        return text.len();
    }
    text.iter()
        .position(|&c| 32 <= digit_of(c))
        .unwrap_or(text.len())
}

// The digit of a character that has one.
fn digit(c: u8) -> u64
    requires { digit_in base32 c < 32 }
    ensures { (result ≡ digit_in base32 c) × (result < 32) }
{
    // A letter's last five bits are one more than its digit; those of 2 to 7, which are below 64, eight less.
    u64::from(c % 32 + 8 - c / 64 * 9)
}

// The number that the digits of some characters make, the first one highest.
fn load(chars: &[u8]) -> u64
    requires below { Below 32 (map (digit_in base32) chars.now) }
    requires few { length chars.now ≤ 8 }
    ensures { result ≡ value 5 (map (digit_in base32) chars.now) }
{
    let mut number: u64 = 0;
    for &c in chars {
        number = number * 32 + digit(c);
    }
    number
}

// The digits of eight characters, a byte for each: what `digit` does, for all eight at once.
fn digit_bytes(group: [u8; 8]) -> u64
    requires { Below 32 (map (digit_in base32) group) }
    ensures { result ≡ value 8 (map (digit_in base32) group) }
{
    let w = u64::from_be_bytes(group);
    (w & 0x1f1f1f1f1f1f1f1f) + 0x0808080808080808 - (w & 0x4040404040404040) / 64 * 9
}

// What `load` gives of eight characters. Neighbours are joined: 8 digits of 5 bits to 4 of 10, to 2 of 20, to one number.
fn load_eight(group: [u8; 8]) -> u64
    requires { Below 32 (map (digit_in base32) group) }
    ensures { result ≡ value 5 (map (digit_in base32) group) }
{
    let eight = digit_bytes(group);
    let four = (eight & 0x1f001f001f001f00) / 8 + (eight & 0x001f001f001f001f);
    let two = (four & 0x03ff000003ff0000) / 64 + (four & 0x000003ff000003ff);
    (two & 0x000fffff00000000) / 4096 + (two & 0x00000000000fffff)
}

// Fills a part with the low bytes of a number.
fn put(number: u64, part: &mut [u8])
    requires { length part.old ≤ 8 }
    ensures { part.new ≡ digits 8 (length part.old) number }
{
    part.copy_from_slice(&number.to_be_bytes()[8 - part.len()..]);
}

// Whether a text of n characters is that of whole bytes: not if n is 1, 3 or 6 over a multiple of 8.
fn whole_count(n: usize) -> bool
    ensures { result ≡ ltb (spare_count 5 n) 5 }
{
    !matches!(n % 8, 1 | 3 | 6)
}

// How many whole bytes n characters hold.
#[tactic(auto, unfolding(iscc::specs::Digits::byte_count))]
fn byte_length(n: usize) -> usize
    ensures { result ≡ byte_count 5 n }
{
    n / 8 * 5 + n % 8 * 5 / 8
}

// The spare bits behind the last whole byte, as a number: fewer than five, they are bits of the last digit.
fn spare(text: &[u8]) -> u64
    requires below { Below 32 (map (digit_in base32) text.now) }
    requires text_bound { spare_count 5 (length text.now) < 5 }
    ensures { result ≡ value 5 (map (digit_in base32) text.now) % 2 ^ spare_count 5 (length text.now) }
{
    let Some(&last) = text.last() else {
        return 0;
    };
    let bits: usize = text.len() % 8 * 5 % 8;
    digit(last) % (1 << bits)
}

// Writes the bytes of the text to the front of an area that has room for them: eight characters as five bytes, then the rest.
fn fill(text: &[u8], out: &mut [u8])
    requires below { Below 32 (map (digit_in base32) text.now) }
    requires text_in_bounds { byte_count 5 (length text.now) ≤ length out.old }
    ensures { out.new ≡ digits 8 (byte_count 5 (length text.now)) (value 5 (map (digit_in base32) text.now) / 2 ^ spare_count 5 (length text.now)) ++ drop (byte_count 5 (length text.now)) out.old }
{
    let (groups, rest) = text.as_chunks::<8>();
    for (i, &group) in groups.iter().enumerate() {
        put(load_eight(group), &mut out[i * 5..i * 5 + 5]);
    }
    let start = groups.len() * 5;
    let count = rest.len() * 5 / 8;
    put(
        load(rest) >> (rest.len() * 5 % 8),
        &mut out[start..start + count],
    );
}

// Writes the bytes of the text to the front of the area. Gives, in this order: 4 for a character outside the alphabet, 5 for a count
// of characters that no bytes have, 6 for a spare bit that is not zero, 15 where the area is too short.
pub fn read(text: &[u8], out: &mut [u8]) -> Result<usize, Refusal>
    ensures answer { result ≡ written_as (read_base32 text.now (length out.old)) }
    ensures area { out.new ≡ area_after (read_base32 text.now (length out.old)) out.old }
{
    if !all_digits(text) {
        return Err(Refusal::BadCharacter);
    }
    if !whole_count(text.len()) {
        return Err(Refusal::BadCount);
    }
    if spare(text) != 0 {
        return Err(Refusal::SpareBits);
    }
    let count = byte_length(text.len());
    if out.len() < count {
        return Err(Refusal::AreaTooShort);
    }
    fill(text, out);
    Ok(count)
}
