// The one code that items laid end to end mean: one item's own bytes, or the bytes of the composite that a list makes.
ghost use Rattle.std.specs.Prelude.{◌≡◌, length};
ghost use Rattle.iscc.specs.Answer.{accept, into, area_after};
ghost use Rattle.iscc.specs.Representation.{code_read_as};
ghost use Rattle.iscc.specs.Item.{Item, read_one};
ghost use Rattle.composite.specs.Joined.{Listed, composed_bytes};
ghost use Rattle.composite.specs.Canonical.{detail_of, canonical_bytes, coded_into};

use crate::gather;
use iscc::code::Code;
use iscc::refusal::{DetailedRefusal, Refusal};
use unit::one;
use units::summary::Summary;
use units::verdict;

// Writes the code of a list of two or more to the front of the area: 10 to 14, then 15, which tells nothing more.
pub(crate) fn write_list(
    bytes: &[u8],
    list: &Summary,
    out: &mut [u8],
) -> Result<usize, DetailedRefusal>
    requires { Listed bytes.now list.now }
    ensures answer { result ≡ coded_into (length out.old) (detail_of bytes.now) (composed_bytes bytes.now) }
    ensures area { out.new ≡ area_after (into (length out.old) (composed_bytes bytes.now)) out.old }
{
    verdict::decide(list)?;
    Ok(gather::from_list(bytes, list).write(out)?)
}

// Writes the code of bytes that are not exactly one item: two or more, or none that can be read. Not inlined, since its room on the
// stack would cost a text of one item time.
#[inline(never)]
fn write_items(bytes: &[u8], out: &mut [u8]) -> Result<usize, DetailedRefusal>
    requires { (i : Item) → read_one bytes.now ≡ accept i → ⊥ }
    ensures answer { result ≡ coded_into (length out.old) (detail_of bytes.now) (canonical_bytes bytes.now) }
    ensures area { out.new ≡ area_after (into (length out.old) (canonical_bytes bytes.now)) out.old }
{
    let read = units::reader::read(bytes);
    read.answer?;
    write_list(bytes, &read.list, out)
}

// Writes the code of items laid end to end: 7 to 14, then 15. Exactly one is looked for first, since most texts hold one: its own
// bytes are the code.
fn write(bytes: &[u8], out: &mut [u8]) -> Result<usize, DetailedRefusal>
    ensures answer { result ≡ coded_into (length out.old) (detail_of bytes.now) (canonical_bytes bytes.now) }
    ensures area { out.new ≡ area_after (into (length out.old) (canonical_bytes bytes.now)) out.old }
{
    match one::read(bytes) {
        Err(_q) => write_items(bytes, out),
        Ok(_unit) => {
            if out.len() < bytes.len() {
                return Err(Refusal::AreaTooShort.with_detail(0));
            }
            out[..bytes.len()].copy_from_slice(bytes);
            Ok(bytes.len())
        }
    }
}

// The code of items laid end to end. Tests 7 to 9 from the left; of two or more items 10 to 14. No bytes are 7.
// The bytes are written once, to the area that is answered: a code that is handed on by value is copied at each step.
pub fn read(bytes: &[u8]) -> Result<Code, DetailedRefusal>
    ensures { result ≡ code_read_as (detail_of bytes.now) (canonical_bytes bytes.now) }
{
    let mut area = [0u8; 42];
    let length = write(bytes, &mut area)?;
    Ok(Code {
        bytes: area,
        length,
    })
}
