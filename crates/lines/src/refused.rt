// The answer to a line that intake refuses.
ghost use Rattle.std.specs.Prelude.{◌≡◌, [], ◌∷◌, ◌++◌, ◌≤◌, ◌<◌, length, drop};
ghost use Rattle.iscc.specs.Refusals.{refusal_number};
ghost use Rattle.iscc.specs.Answer.{accept, refuse, area_after};
ghost use Rattle.iscc.specs.Lines.{refused_word, line_answer};

use crate::scan::LF;
use iscc::refusal::Refusal;
use itoa::Buffer;

const WORD: [u8; 8] = *b"refused ";

// Writes the word to the front of the area.
fn put_word(out: &mut [u8])
    requires { 8 ≤ length out.old }
    ensures { out.new ≡ refused_word ++ drop 8 out.old }
{
    out[..WORD.len()].copy_from_slice(&WORD);
}

// Writes the word, the number in decimal and LF to the front of the area, and answers how many bytes these are.
pub(crate) fn write(q: Refusal, out: &mut [u8]) -> usize
    requires number { refusal_number q < 100 }
    requires room { 11 ≤ length out.old }
    ensures answer { result ≡ length (line_answer (refuse q) ++ (10 ∷ [])) }
    ensures area { out.new ≡ area_after (accept (line_answer (refuse q) ++ (10 ∷ []))) out.old }
{
    put_word(out);
    let mut buffer = Buffer::new();
    let number = buffer.format(q.number()).as_bytes();
    let end = WORD.len() + number.len();
    out[WORD.len()..end].copy_from_slice(number);
    out[end] = LF;
    end + 1
}
