// Blanks, as they stand between the words of a line and round a text.
ghost use Rattle.std.specs.Prelude.{◌≡◌};
ghost use Rattle.iscc.specs.Doors.{is_blank};

// Space, tab, CR and LF.
pub fn is_blank(byte: u8) -> bool
    ensures { result ≡ is_blank byte }
{
    matches!(byte, b' ' | b'\t' | b'\r' | b'\n')
}
