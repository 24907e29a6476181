// Reads units laid end to end from the left until no byte remains.
ghost use Rattle.std.specs.Prelude.{◌≡◌};
ghost use Rattle.iscc.specs.Items.{read_items};
ghost use Rattle.units.specs.Summary.{Summarizes};
ghost use Rattle.units.specs.Reading.{leading_items, refused_index, reading_as};

use crate::summary::Summary;
use iscc::refusal::{DetailedRefusal, Refusal};

// What was read: every item; or the refusal of the first that is refused, and its index. No Result of the summary, since a refusal
// promises that of the items before.
#[derive(Clone, Copy)]
pub struct ListRead {
    pub answer: Result<(), DetailedRefusal>,
    pub list: Summary,
}

// 7, 8, 9 for each item, all of one item before the next. No bytes are 7.
pub fn read(bytes: &[u8]) -> ListRead
    ensures answer { result.answer ≡ reading_as (refused_index bytes.now) (read_items bytes.now) }
    ensures list { Summarizes bytes.now (leading_items bytes.now) result.list }
{
    let mut list = Summary::empty();
    let mut at: usize = 0;
    // a step for each item, which says where the next begins; no bytes at all are a step too, so no iterator over the items is plainer
    loop {
        let u = match unit::reader::read(&bytes[at..]) {
            Ok(u) => u,
            Err(q) => {
                return ListRead {
                    answer: Err(q.with_detail(list.count)),
                    list,
                };
            }
        };
        list.add(u.main_type, u.subtype, u.used - u.start, at + u.start);
        at += u.used;
        if bytes.len() <= at {
            return ListRead {
                answer: Ok(()),
                list,
            };
        }
    }
}
