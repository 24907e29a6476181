// Where a line ends.
ghost use Rattle.std.specs.Prelude.{◌≡◌, ◌≤◌, length};
ghost use Rattle.iscc.specs.Lists.{first_not};
ghost use Rattle.lines.specs.Feeding.{not_lf};

pub const LF: u8 = 10;

// The bytes before the first LF: all of them where there is none.
pub fn line_length(piece: &[u8]) -> usize
    ensures within { result ≤ length piece.now }
    ensures found { result ≡ first_not not_lf piece.now }
{
    piece.iter().position(|&c| c == LF).unwrap_or(piece.len())
}
