// Bytes to text.
ghost use Rattle.std.specs.Prelude.{◌≡◌, ◌++◌, map, ◌+◌, ◌*◌, ◌^◌, ◌<◌, ◌≤◌, length, take, drop};
ghost use Rattle.iscc.specs.Answer.{area_after};
ghost use Rattle.iscc.specs.Alphabet.{char_in, encode};
ghost use Rattle.iscc.specs.Base32.{base32, write_base32};
ghost use Rattle.iscc.specs.Digits.{digits, value, digit_count};
ghost use Rattle.iscc.specs.Representation.{written_as};

use iscc::refusal::Refusal;

// The number of five bytes, the first one highest.
fn load_five(group: [u8; 5]) -> u64
    ensures { result ≡ value 8 group }
{
    let [a, b, c, d, e] = group;
    u64::from_be_bytes([0, 0, 0, a, b, c, d, e])
}

// Fills a part with the characters of the low digits of a number.
fn put(alphabet: &[u8; 32], number: u64, part: &mut [u8])
    requires alphabet_value { alphabet.now ≡ base32.chars }
    requires few { length part.old ≤ 8 }
    ensures { part.new ≡ map (char_in base32) (digits 5 (length part.old) number) }
{
    // By index, since the shift goes by it; with a count of eight the compiler writes the turns out.
    for i in 0..part.len() {
        let shift: usize = (part.len() - 1 - i) * 5;
        let digit: usize = ((number >> shift) % 32) as usize;
        part[i] = alphabet[digit];
    }
}

// How many characters the text of n bytes has.
#[tactic(auto, unfolding(iscc::specs::Digits::digit_count))]
fn text_length(n: usize) -> usize
    requires { n < 9223372036854775808 }
    ensures { result ≡ digit_count 5 n }
{
    n / 5 * 8 + (n % 5 * 8 + 4) / 5
}

// Writes the text of the bytes to the front of an area that has room for it: five bytes as eight characters, then the rest.
fn fill(bytes: &[u8], out: &mut [u8])
    requires { digit_count 5 (length bytes.now) ≤ length out.old }
    ensures { out.new ≡ encode base32 bytes.now ++ drop (digit_count 5 (length bytes.now)) out.old }
{
    // One copy for the whole text: a table that is named in a loop is copied at each use.
    let alphabet = tables::alphabet();
    let (groups, rest) = bytes.as_chunks::<5>();
    for (i, &group) in groups.iter().enumerate() {
        put(&alphabet, load_five(group), &mut out[i * 8..i * 8 + 8]);
    }
    let start = groups.len() * 8;
    let count = (rest.len() * 8 + 4) / 5;
    let zeros: usize = count * 5 - rest.len() * 8;
    let number = u64::from(octets::number::read(rest)) << zeros;
    put(&alphabet, number, &mut out[start..start + count]);
}

// Writes the text of the bytes to the front of the area. Gives 15 where the area is too short.
pub fn write(bytes: &[u8], out: &mut [u8]) -> Result<usize, Refusal>
    ensures answer { result ≡ written_as (write_base32 bytes.now (length out.old)) }
    ensures area { out.new ≡ area_after (write_base32 bytes.now (length out.old)) out.old }
{
    let count = text_length(bytes.len());
    if out.len() < count {
        return Err(Refusal::AreaTooShort);
    }
    fill(bytes, out);
    Ok(count)
}
