// The line begun in earlier pieces: at most 1,024 of its bytes and their count, where a greater count stands for any longer line.
// Both stay arguments side by side: who calls `feed` keeps them from call to call.
ghost use Rattle.std.specs.Prelude.{◌≡◌, ◌++◌, ◌≤◌, ◌<◌, length, IfSome, IsNone};
ghost use Rattle.lines.specs.Feeding.{begun_line, held_for, line_for};

pub const LONGEST_LINE: usize = 1024;

// The line begun; none stands for any that is too long.
pub(crate) fn text(line: &[u8], held: usize) -> Option<&[u8]>
    ensures short { IfSome result (λ t. t.now ≡ begun_line line.now held) }
    ensures most { IfSome result (λ t. length t.now ≤ 1024) }
    ensures long { IsNone result → 1024 < held }
{
    if LONGEST_LINE < held {
        return None;
    }
    Some(&line[0..held.min(line.len())])
}

// The count of the line begun: at most the area's length, or 1,025.
pub(crate) fn count(line: &[u8], held: usize) -> usize
    ensures { result ≡ held_for (begun_line line.now held) }
{
    if LONGEST_LINE < held {
        return LONGEST_LINE + 1;
    }
    held.min(line.len())
}

// Adds a part to the line begun, and answers the new count. A line that gets too long leaves the area as it was.
pub(crate) fn add(line: &mut [u8], held: usize, part: &[u8]) -> usize
    requires { 1024 ≤ length line.old }
    ensures count { result ≡ held_for (begun_line line.old held ++ part.now) }
    ensures area { line.new ≡ line_for (begun_line line.old held ++ part.now) line.old }
{
    if LONGEST_LINE < held {
        return LONGEST_LINE + 1;
    }
    if LONGEST_LINE - held < part.len() {
        return LONGEST_LINE + 1;
    }
    let end = held + part.len();
    line[held..end].copy_from_slice(part);
    end
}
