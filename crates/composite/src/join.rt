// Joins units laid end to end to one composite.
ghost use Rattle.std.specs.Prelude.{◌≡◌, length};
ghost use Rattle.iscc.specs.Answer.{area_after, into};
ghost use Rattle.iscc.specs.Items as items;
ghost use Rattle.iscc.specs.Representation.{written_as};
ghost use Rattle.composite.specs.Joined.{Listed, composed_bytes, single_refusal};

use crate::code;
use iscc::refusal::Refusal;
use units::summary::Summary;

// Joins a list of two or more: 10 to 14, then 15.
fn join_list(bytes: &[u8], list: &Summary, out: &mut [u8]) -> Result<usize, Refusal>
    requires { Listed bytes.now list.now }
    ensures answer { result ≡ written_as (into (length out.old) (composed_bytes bytes.now)) }
    ensures area { out.new ≡ area_after (into (length out.old) (composed_bytes bytes.now)) out.old }
{
    Ok(code::write_list(bytes, list, out)?)
}

// Of one item alone: 10 if it is a composite or an ID, else 13.
#[tactic(auto, unfolding(crate::specs::Joined::single_refusal))]
fn single(list: &Summary) -> Refusal
    ensures { result ≡ single_refusal list.now }
{
    if list.not_joinable.is_some() {
        return Refusal::NotJoinable;
    }
    Refusal::LacksDataOrInstance
}

// Tests 7 to 9 from the left; of one item 10 or 13, of more 10 to 14; then 15. No bytes are 7.
pub fn join(bytes: &[u8], out: &mut [u8]) -> Result<usize, Refusal>
    ensures answer { result ≡ written_as (items.join bytes.now (length out.old)) }
    ensures area { out.new ≡ area_after (items.join bytes.now (length out.old)) out.old }
{
    let read = units::reader::read(bytes);
    read.answer?;
    if read.list.count < 2 {
        return Err(single(&read.list));
    }
    join_list(bytes, &read.list, out)
}
