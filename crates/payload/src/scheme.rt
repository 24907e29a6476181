// The scheme in front of a code: compared with folded case at intake, written by intake, required by the strict door.
ghost use Rattle.std.specs.Prelude.{◌≡◌, ◌≤◌, length};
ghost use Rattle.iscc.specs.Doors.{scheme_length};

pub const SCHEME: [u8; 5] = *b"ISCC:";

// How many characters the scheme takes at the start of a text: all five, in any letter case, or none.
pub fn scheme_length(text: &[u8]) -> usize
    ensures value { result ≡ scheme_length text.now }
    ensures within { result ≤ length text.now }
{
    match text.get(0..SCHEME.len()) {
        Some(front) if front.eq_ignore_ascii_case(&SCHEME) => SCHEME.len(),
        _ => 0,
    }
}
