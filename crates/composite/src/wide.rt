// The units of a wide composite. Its two bodies of sixteen bytes pass from area to area: the five by value are of eight.
ghost use Rattle.std.specs.Prelude.{◌≡◌, length};
ghost use Rattle.iscc.specs.Answer.{accept, area_after, into};
ghost use Rattle.iscc.specs.Representation.{written_as};
ghost use Rattle.composite.specs.Wide.{wide_units};

use iscc::main_type::MainType;
use iscc::refusal::Refusal;

// Splits a wide composite's own bytes into DATA and INSTANCE of 128 bits, or 15.
pub(crate) fn write_units(bytes: &[u8], out: &mut [u8]) -> Result<usize, Refusal>
    requires { length bytes.now ≡ 34 }
    ensures answer { result ≡ written_as (into (length out.old) (accept (wide_units bytes.now))) }
    ensures area { out.new ≡ area_after (into (length out.old) (accept (wide_units bytes.now))) out.old }
{
    if out.len() < 36 {
        return Err(Refusal::AreaTooShort);
    }
    let _ = unit::writer::write(MainType::DATA, 0, 0, 3, &bytes[2..18], out);
    let _ = unit::writer::write(MainType::INSTANCE, 0, 0, 3, &bytes[18..34], &mut out[18..]);
    Ok(36)
}
