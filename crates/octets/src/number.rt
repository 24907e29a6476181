// Numbers in a part of an area, the high byte first. A part is as long as the number is wide: two bytes, or four.
ghost use Rattle.std.specs.Prelude.{◌≡◌, ◌%◌, ◌^◌, ◌<◌, length};
ghost use Rattle.iscc.specs.Digits.{digits, value};

// The number that a part holds. Of one longer than four bytes, what its last four hold.
pub fn read(part: &[u8]) -> u32
    ensures { result ≡ value 8 part.now % 2 ^ 32 }
{
    let mut number: u32 = 0;
    for &byte in part {
        number = number % 16777216 * 256 + u32::from(byte);
    }
    number
}

// Fills a part with a number: one shorter than four bytes takes the low bytes, one longer has zeros in front.
pub fn write(number: u32, part: &mut [u8])
    ensures { part.new ≡ digits 8 (length part.old) number }
{
    let mut rest = number;
    for i in (0..part.len()).rev() {
        part[i] = (rest % 256) as u8;
        rest /= 256;
    }
}
