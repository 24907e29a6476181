// What comes before every call's own tests: the numbers of the text, then 23.
ghost use Rattle.std.specs.Prelude.{◌≡◌};
ghost use Rattle.iscc.specs.Representation.{code_read_as};
ghost use Rattle.register.specs.Admitted.{admitted, admitted_detail};

use crate::check;
use iscc::code::Code;
use iscc::refusal::{DetailedRefusal, Refusal};

// The code that the text holds, where the area is a register: 2, 1, 3 to 14, then 23.
pub(crate) fn admit(text: &[u8], area: &[u8]) -> Result<Code, DetailedRefusal>
    ensures { result ≡ code_read_as (admitted_detail text.now) (admitted text.now area.now) }
{
    let code = door::code::read(text)?;
    if check::is_register(area) {
        return Ok(code);
    }
    iscc::code::refused(Refusal::NotRegister, 0)
}
