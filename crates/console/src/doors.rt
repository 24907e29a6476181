// The two doors.
ghost use Rattle.std.specs.Prelude.{◌≡◌};
ghost use Rattle.console.specs.Demand3.{answer_of, area_of, strict_number};

use iscc::outcome::Outcome;

#[unsafe(no_mangle)]
pub extern "C" fn iscc_intake(text: &[u8], out: &mut [u8]) -> Outcome
    ensures answer { result ≡ answer_of text.now out.old }
    ensures area { out.new ≡ area_of text.now out.old }
{
    Outcome::from(door::intake::intake(text, out))
}

// The number: 0 where the text is taken.
#[unsafe(no_mangle)]
pub extern "C" fn iscc_strict(text: &[u8]) -> u32
    ensures { result ≡ strict_number text.now }
{
    match door::strict::strict(text) {
        Ok(()) => 0,
        Err(q) => q.number(),
    }
}
