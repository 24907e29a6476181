// Base32 by itself.
ghost use Rattle.std.specs.Prelude.{◌≡◌, length};
ghost use Rattle.iscc.specs.Answer.{area_after};
ghost use Rattle.iscc.specs.Base32.{read_base32, write_base32};
ghost use Rattle.iscc.specs.Representation.{written_as, outcome_as};

use iscc::outcome::Outcome;

#[unsafe(no_mangle)]
pub extern "C" fn probe_base32_read(text: &[u8], out: &mut [u8]) -> Outcome
    ensures answer { result ≡ outcome_as (written_as (read_base32 text.now (length out.old))) }
    ensures area { out.new ≡ area_after (read_base32 text.now (length out.old)) out.old }
{
    Outcome::from(base32::reader::read(text, out))
}

#[unsafe(no_mangle)]
pub extern "C" fn probe_base32_write(bytes: &[u8], out: &mut [u8]) -> Outcome
    ensures answer { result ≡ outcome_as (written_as (write_base32 bytes.now (length out.old))) }
    ensures area { out.new ≡ area_after (write_base32 bytes.now (length out.old)) out.old }
{
    Outcome::from(base32::writer::write(bytes, out))
}
