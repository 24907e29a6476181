// Blanks, dropped at both ends of a text only.
ghost use Rattle.std.specs.Prelude.{◌≡◌, ◌≤◌, length};
ghost use Rattle.iscc.specs.Doors.{is_blank, trim_end};
ghost use Rattle.iscc.specs.Lists.{first_not};

use octets::blank::is_blank;

// How many blanks stand at the start.
pub fn blanks(text: &[u8]) -> usize
    ensures value { result ≡ first_not is_blank text.now }
    ensures within { result ≤ length text.now }
{
    text.iter()
        .position(|&c| !is_blank(c))
        .unwrap_or(text.len())
}

// How long the text is without the blanks at its end.
pub fn trimmed_length(text: &[u8]) -> usize
    ensures value { result ≡ length (trim_end text.now) }
    ensures within { result ≤ length text.now }
{
    let mut rest = text;
    while let [front @ .., last] = rest {
        if !is_blank(*last) {
            break;
        }
        rest = front;
    }
    rest.len()
}
