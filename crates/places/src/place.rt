// One place: 48 bytes with a loan, or free.
ghost use Rattle.std.specs.Prelude.{◌≡◌, true, ◌+◌, ◌*◌, ◌≤◌, ◌<◌, length, take, drop, is_some, IfSome};
ghost use Rattle.std.proofs.Math.Option.{some};
ghost use Rattle.iscc.specs.Digits.{all_below, value};
ghost use Rattle.iscc.specs.Permitted.{number};
ghost use Rattle.loans.specs.Loan.{loan_of};
ghost use Rattle.loans.specs.Place.{place_of, place_bytes};
ghost use Rattle.loans.specs.Order.{follows};
ghost use Rattle.loans.specs.Counts.{code_type};
ghost use Rattle.places.specs.Used.{is_used, code_in};

use crate::code;
use iscc::code::LONGEST_CODE;
use iscc::main_type::MainType;
use loans::layout::{BORROWER_LENGTH, BORROWER_OFFSET, CODE_OFFSET, NUMBER_LENGTH, PLACE_LENGTH};
use octets::compare;

// Whether all bytes are zero. Only the largest is tested, so that no byte ends the loop and many go at a time.
pub(crate) fn all_zero(bytes: &[u8]) -> bool
    ensures { result ≡ all_below 1 bytes.now }
{
    let mut most = 0;
    for &byte in bytes {
        most = most.max(byte);
    }
    most == 0
}

// Whether 48 bytes are a used place: a code of its length, with zeros behind it up to the borrower.
fn is_used(place: &[u8; PLACE_LENGTH]) -> bool
    ensures { result ≡ is_used place.now }
{
    let n = usize::from(place[0]);
    if n == 0 || LONGEST_CODE < n {
        return false;
    }
    let end = CODE_OFFSET + n;
    code::is_code(&place[CODE_OFFSET..end]) && all_zero(&place[end..BORROWER_OFFSET])
}

// A place that is known to be used.
#[derive(Clone, Copy)]
pub(crate) struct Used<'a> {
    pub place: &'a [u8; PLACE_LENGTH],
    pub ghost used: { is_used place.now ≡ true },
}

impl<'a> Used<'a> {
    // The one test of a place.
    pub(crate) fn from_bytes(place: &'a [u8; PLACE_LENGTH]) -> Option<Self>
        ensures used { is_some result ≡ is_used place.now }
        ensures place { IfSome result (λ u. u.place.now ≡ place.now) }
    {
        if is_used(place) {
            return Some(Used { place: place });
        }
        None
    }

    // The code in it.
    pub(crate) fn code(self) -> &'a [u8]
        ensures { result.now ≡ code_in self.entry.place.now }
    {
        let place = self.place;
        let n = usize::from(place[0]);
        let bytes = &place[..];
        &bytes[CODE_OFFSET..CODE_OFFSET + n]
    }

    // The main type of its code.
    pub(crate) fn main_type(self) -> MainType
        ensures { number result ≡ code_type (code_in self.entry.place.now) }
    {
        code::main_type(self.code())
    }

    // Whether it may stand behind another one: its code comes later.
    pub(crate) fn may_follow(self, earlier: Used) -> bool
        ensures { result ≡ follows (place_of earlier.entry.place.now) (place_of self.entry.place.now) }
    {
        let before = earlier.code();
        let code = self.code();
        compare::front_of(before, code)
            .then_with(|| compare::order_of(before, code))
            .is_lt()
    }
}

// The number in four bytes, the high byte first.
pub fn number_in(part: &[u8; NUMBER_LENGTH]) -> u32
    ensures { result ≡ value 8 part.now }
{
    u32::from_be_bytes(*part)
}

// The place of a loan.
pub fn place_of(code: &[u8], borrower: u32) -> [u8; PLACE_LENGTH]
    requires { length code.now ≤ 42 }
    ensures { result ≡ place_bytes (some (loan_of code.now borrower)) }
{
    let mut place = [0u8; 48];
    place[0] = code.len() as u8;
    place[CODE_OFFSET..CODE_OFFSET + code.len()].copy_from_slice(code);
    octets::number::write(borrower, &mut place[BORROWER_OFFSET..PLACE_LENGTH]);
    place
}

// The borrower in a place.
pub fn borrower(places: &[u8], i: usize) -> u32
    requires { (length places.now ≡ 12288) × (i < 256) }
    ensures { result ≡ value 8 (take 4 (drop (48 * i + 44) places.now)) }
{
    let start = PLACE_LENGTH * i;
    let place = &places[start..start + PLACE_LENGTH];
    number_in(place.last_chunk::<BORROWER_LENGTH>().unwrap())
}
