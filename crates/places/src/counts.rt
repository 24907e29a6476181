// The counts in front of the places: codes out in all, and by main type. The two bytes of a number are read and written with no loop,
// since the test of an area counts each used place.
ghost use Rattle.std.specs.Prelude.{◌≡◌, suc, ◌<◌};
ghost use Rattle.iscc.specs.Permitted as permitted;
ghost use Rattle.loans.specs.Moves.{number_at, with_number, one_more, one_less};

use iscc::main_type::MainType;
use loans::layout::COUNTS_LENGTH;

// The number that stands i-th, from 0.
pub fn read(counts: &[u8; COUNTS_LENGTH], i: usize) -> u32
    requires { i < 8 }
    ensures { (result ≡ number_at i counts.now) × (result < 65536) }
{
    let offset = 2 * i;
    u32::from(u16::from_be_bytes([counts[offset], counts[offset + 1]]))
}

fn write(counts: &mut [u8; COUNTS_LENGTH], i: usize, number: u32)
    requires { i < 8 }
    ensures { counts.new ≡ with_number i number counts.old }
{
    let offset = 2 * i;
    let bytes = ((number % 65536) as u16).to_be_bytes();
    counts[offset..offset + 2].copy_from_slice(&bytes);
}

// One code more of a main type.
pub fn one_more(counts: &mut [u8; COUNTS_LENGTH], main_type: MainType)
    ensures { counts.new ≡ one_more (permitted.number main_type) counts.old }
{
    let i = main_type.number() as usize + 1;
    let of_type = read(counts, i);
    let out = read(counts, 0);
    write(counts, 0, out + 1);
    write(counts, i, of_type + 1);
}

// One code less of a main type, where there is one.
pub fn one_less(counts: &mut [u8; COUNTS_LENGTH], main_type: MainType)
    requires { (0 < number_at 0 counts.old) × (0 < number_at (suc (permitted.number main_type)) counts.old) }
    ensures { counts.new ≡ one_less (permitted.number main_type) counts.old }
{
    let i = main_type.number() as usize + 1;
    let of_type = read(counts, i);
    let out = read(counts, 0);
    write(counts, 0, out - 1);
    write(counts, i, of_type - 1);
}
