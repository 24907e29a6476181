// The line program's work on one piece of its input, and at the end of input.
ghost use Rattle.std.specs.Prelude.{◌≡◌, length};
ghost use Rattle.iscc.specs.Answer.{accept, area_after};
ghost use Rattle.iscc.specs.Representation.{written_as};
ghost use Rattle.lines.specs.Feeding.{begun_line, line_for, fed_by, fed_as, finishing};

use crate::answer::ROOM;
use crate::begun::LONGEST_LINE;
use crate::{answer, begun, scan};
use iscc::refusal::Refusal;

// The count of the line begun, the bytes of the piece that were taken, and the bytes of answers that were written.
#[derive(Clone, Copy)]
pub struct Fed {
    pub held: usize,
    pub used: usize,
    pub written: usize,
}

// Takes the piece line by line as long as the area has 74 bytes left, and answers each line that ends. The line begun stands in
// front of `line`, and `held` is its count, at first 0. A count above 1,024 stands for any longer line. Where `line` has fewer
// than 1,024 bytes, nothing of the piece is taken.
pub fn feed(line: &mut [u8], held: usize, piece: &[u8], out: &mut [u8]) -> Fed
    ensures answer { result ≡ fed_as (fed_by line.old held piece.now (length out.old)) }
    ensures begun { line.new ≡ line_for (fed_by line.old held piece.now (length out.old)).begun line.old }
    ensures area { out.new ≡ area_after (accept (fed_by line.old held piece.now (length out.old)).answers) out.old }
{
    let mut kept = begun::count(line, held);
    if line.len() < LONGEST_LINE {
        return Fed {
            held: kept,
            used: 0,
            written: 0,
        };
    }
    // Two counts and no iterator: both are answered, and the area says when to stop.
    let mut used = 0;
    let mut written = 0;
    while ROOM <= out.len() - written {
        let rest = &piece[used..];
        let n = scan::line_length(rest);
        // No LF is left. A rest of no bytes adds nothing.
        if n == rest.len() {
            kept = begun::add(line, kept, rest);
            used += n;
            break;
        }
        written += answer::joined(line, kept, &rest[0..n], &mut out[written..]);
        kept = 0;
        used += n + 1;
    }
    Fed {
        held: kept,
        used,
        written,
    }
}

// Answers the last line, if one was begun. Gives 15 where there is one and the area is below 74 bytes.
#[tactic(auto, using(crate::proofs::Fed::finishing_none))]
pub fn finish(line: &[u8], held: usize, out: &mut [u8]) -> Result<usize, Refusal>
    ensures answer { result ≡ written_as (finishing (length out.old) (begun_line line.now held)) }
    ensures area { out.new ≡ area_after (finishing (length out.old) (begun_line line.now held)) out.old }
{
    if begun::count(line, held) == 0 {
        return Ok(0);
    }
    if out.len() < ROOM {
        return Err(Refusal::AreaTooShort);
    }
    Ok(answer::kept(line, held, out))
}
