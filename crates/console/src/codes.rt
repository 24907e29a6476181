// The code of a typed text, and the text of a code.
ghost use Rattle.std.specs.Prelude.{◌≡◌, length};
ghost use Rattle.iscc.specs.Answer.{area_after};
ghost use Rattle.iscc.specs.Doors.{read_code, write_text};
ghost use Rattle.iscc.specs.Representation.{written_as, outcome_as};

use iscc::outcome::Outcome;

#[unsafe(no_mangle)]
pub extern "C" fn iscc_code(text: &[u8], out: &mut [u8]) -> Outcome
    ensures answer { result ≡ outcome_as (written_as (read_code text.now (length out.old))) }
    ensures area { out.new ≡ area_after (read_code text.now (length out.old)) out.old }
{
    Outcome::from(door::code::code(text, out))
}

#[unsafe(no_mangle)]
pub extern "C" fn iscc_text(code: &[u8], out: &mut [u8]) -> Outcome
    ensures answer { result ≡ outcome_as (written_as (write_text code.now (length out.old))) }
    ensures area { out.new ≡ area_after (write_text code.now (length out.old)) out.old }
{
    Outcome::from(door::text::text(code, out))
}
