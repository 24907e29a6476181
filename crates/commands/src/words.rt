// The words of a line, and a borrower's number.
ghost use Rattle.std.specs.Prelude.{◌≡◌};
ghost use Rattle.commands.specs.Commands.{is_digit, borrower_of};
ghost use Rattle.commands.specs.Reading.{next_word, behind_word};

use octets::blank::is_blank;

// The first word of a text, empty where it has none, and what stands behind that word.
pub(crate) fn next(text: &[u8]) -> (&[u8], &[u8])
    ensures word { result.0.now ≡ next_word text.now }
    ensures behind { result.1.now ≡ behind_word text.now }
{
    let start = text
        .iter()
        .position(|&byte| !is_blank(byte))
        .unwrap_or(text.len());
    let (_, rest) = text.split_at(start);
    let end = rest
        .iter()
        .position(|&byte| is_blank(byte))
        .unwrap_or(rest.len());
    rest.split_at(end)
}

// A digit from 0 to 9.
#[tactic(auto, unfolding(crate::specs::Commands::is_digit))]
fn is_digit(byte: u8) -> bool
    ensures { result ≡ is_digit byte }
{
    byte.is_ascii_digit()
}

// The number that a word of one to ten digits stands for. std's parse takes a sign and any number of zeros, and a borrower has neither.
#[tactic(auto, unfolding(crate::specs::Commands::is_digit))]
pub(crate) fn read_borrower(word: &[u8]) -> Option<u32>
    ensures { result ≡ borrower_of word.now }
{
    if word.is_empty() || word.len() > 10 {
        return None;
    }
    let mut number: u64 = 0;
    for &digit in word {
        if !is_digit(digit) {
            return None;
        }
        number = number * 10 + u64::from(digit - b'0');
    }
    u32::try_from(number).ok()
}
