// 256 places that are known to be in order, for reading: the code and the borrower in one, and the search for a code by halving.
ghost use Rattle.std.specs.Prelude.{◌≡◌, true, ◌+◌, ◌*◌, ◌≤◌, ◌<◌, length, take, drop};
ghost use Rattle.iscc.specs.Digits.{value};
ghost use Rattle.octets.specs.Representation.{order_as};
ghost use Rattle.loans.specs.Order.{are_ordered, loans_at};
ghost use Rattle.loans.specs.Halving.{loan_in, searched};
ghost use Rattle.places.specs.Representation.{found_as};

use crate::place;
use crate::search::Found;
use loans::layout::{CODE_OFFSET, PLACE_LENGTH};
use octets::compare;
use std::cmp::Ordering;

#[derive(Clone, Copy)]
pub struct Places<'a> {
    pub bytes: &'a [u8],
    pub ghost whole: { length bytes.now ≡ 12288 },
    pub ghost ordered: { are_ordered bytes.now ≡ true },
    // It follows, and stands here so that arithmetic sees it.
    pub ghost few: { length (loans_at bytes.now) ≤ 256 },
}

impl<'a> Places<'a> {
    // Of bytes that are known to be such places.
    pub fn new(bytes: &'a [u8]) -> Self
        requires whole { length bytes.now ≡ 12288 }
        requires ordered { are_ordered bytes.now ≡ true }
        ensures { result.bytes ≡ bytes.entry }
    {
        Places { bytes: bytes }
    }

    // The code in a used place.
    pub fn code(self, i: usize) -> &'a [u8]
        requires { i < length (loans_at self.bytes.now) }
        ensures { (result.now ≡ (loan_in (loans_at self.entry.bytes.now) i).code) × (length result.now ≤ 42) }
    {
        let start = PLACE_LENGTH * i;
        let n = usize::from(self.bytes[start]);
        &self.bytes[start + CODE_OFFSET..start + CODE_OFFSET + n]
    }

    // The borrower in a place.
    pub fn borrower(self, i: usize) -> u32
        requires { i < 256 }
        ensures { result ≡ value 8 (take 4 (drop (48 * i + 44) self.entry.bytes.now)) }
    {
        place::borrower(self.bytes, i)
    }

    // How the code stands to the one in a used place.
    pub fn look(self, i: usize, code: &[u8]) -> Ordering
        requires { i < length (loans_at self.bytes.now) }
        ensures { result ≡ order_as code.now (loan_in (loans_at self.entry.bytes.now) i).code }
    {
        let held = self.code(i);
        compare::front_of(code, held).then_with(|| compare::order_of(code, held))
    }

    // The places that remain are `count` from `first` on. The middle one is looked at, then those before it or those behind. It is no
    // `binary_search_by`, which tells no looks.
    pub fn search(self, used: usize, code: &[u8]) -> Found
        requires { used ≡ length (loans_at self.bytes.now) }
        ensures { result ≡ found_as (searched code.now (loans_at self.entry.bytes.now)) }
    {
        let mut first: usize = 0;
        let mut count = used;
        let mut looks: u32 = 0;
        while 0 < count {
            let half = count / 2;
            let middle = first + half;
            let order = self.look(middle, code);
            looks += 1;
            match order {
                Ordering::Equal => {
                    return Found {
                        place: Ok(middle),
                        looks: looks,
                    };
                }
                Ordering::Less => {
                    count = half;
                }
                Ordering::Greater => {
                    first = middle + 1;
                    count = count - half - 1;
                }
            }
        }
        Found {
            place: Err(first),
            looks: looks,
        }
    }
}
