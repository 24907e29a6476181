// An area that is known to be a register, for reading: what it holds, and who has a code.
ghost use Rattle.std.specs.Prelude.{◌≡◌, true, ◌≤◌, ◌<◌, length, get_or, is_some, IfSome};
ghost use Rattle.loans.specs.Counts as tallies;
ghost use Rattle.loans.specs.Halving.{searched, looks};
ghost use Rattle.loans.specs.Numbered.{loans_of};
ghost use Rattle.loans.specs.Register.{asked_area};
ghost use Rattle.loans.specs.Contents.{places_part, is_register, contents_of, register};
ghost use Rattle.places.specs.Representation.{found_as};
ghost use Rattle.register.specs.Next.{next_number};
ghost use Rattle.register.specs.Representation.{asked_as, counts_of};

use crate::answer::{Asked, Counts};
use crate::check;
use iscc::refusal::Refusal;
use loans::layout::{COUNTS_LENGTH, LAST_NUMBER, LAST_NUMBER_OFFSET, NUMBER_LENGTH};
use places::ordered::Places;
use places::search::Found;
use places::{counts, place};

#[derive(Clone, Copy)]
pub struct Register<'a> {
    pub area: &'a [u8],
    pub ghost valid: { is_register area.now ≡ true },
    // It follows, and stands here so that arithmetic sees it.
    pub ghost whole: { length area.now ≡ 12308 },
}

impl<'a> Register<'a> {
    // The one test of an area.
    pub fn from_bytes(area: &'a [u8]) -> Option<Self>
        ensures valid { is_some result ≡ is_register area.now }
        ensures area { IfSome result (λ r. r.area ≡ area.entry) }
    {
        if check::is_register(area) {
            return Some(Register::new(area));
        }
        None
    }

    // Of an area that is known to be one.
    pub fn new(area: &'a [u8]) -> Self
        requires { is_register area.now ≡ true }
        ensures { result.area ≡ area.entry }
    {
        Register { area: area }
    }

    pub fn places(self) -> Places<'a>
        ensures { result.bytes.now ≡ places_part self.entry.area.now }
    {
        Places::new(&self.area[COUNTS_LENGTH..LAST_NUMBER_OFFSET])
    }

    // The number that stands i-th in front, from 0: the counts are true here.
    fn count(self, i: usize) -> u32
        requires { i < 8 }
        ensures { result ≡ get_or (tallies.counts (loans_of (contents_of self.entry.area.now))) i 0 }
    {
        counts::read(self.area.first_chunk::<COUNTS_LENGTH>().unwrap(), i)
    }

    // How many codes are out in all.
    pub fn codes_out(self) -> usize
        ensures { (result ≡ length (loans_of (contents_of self.entry.area.now))) × (result ≤ 256) }
    {
        self.count(0) as usize
    }

    // How many codes are out, in all and by main type.
    pub fn counts(self) -> Counts
        ensures { result ≡ counts_of (tallies.counts (loans_of (contents_of self.entry.area.now))) }
    {
        Counts {
            out: self.count(0),
            meta: self.count(1),
            semantic: self.count(2),
            content: self.count(3),
            data: self.count(4),
            instance: self.count(5),
            iscc: self.count(6),
            id: self.count(7),
        }
    }

    // The number of the last change, in the four bytes behind the places; 0 where there was none.
    pub fn last_number(self) -> u32
        ensures { result ≡ (contents_of self.entry.area.now).last }
    {
        place::number_in(self.area.last_chunk::<NUMBER_LENGTH>().unwrap())
    }

    // The next number, where one is left.
    pub(crate) fn next_number(self) -> Option<u32>
        ensures { result ≡ next_number (contents_of self.entry.area.now).last }
    {
        let last = self.last_number();
        if last == LAST_NUMBER {
            return None;
        }
        Some(last + 1)
    }

    // Where the code stands in the order, or would stand.
    pub(crate) fn find(self, code: &[u8]) -> Found
        ensures { result ≡ found_as (searched code.now (loans_of (contents_of self.entry.area.now))) }
    {
        self.places().search(self.codes_out(), code)
    }

    // Who has the code: 22. The looks of the search are told with both.
    pub(crate) fn ask(self, code: &[u8]) -> Asked
        ensures { result ≡ asked_as (asked_area register code.now self.entry.area.now) (looks code.now (loans_of (contents_of self.entry.area.now))) }
    {
        let at = self.find(code);
        match at.place {
            Ok(place) => Asked {
                holder: Ok(self.places().borrower(place)),
                looks: at.looks,
            },
            Err(_) => Asked {
                holder: Err(Refusal::NotOut),
                looks: at.looks,
            },
        }
    }
}
