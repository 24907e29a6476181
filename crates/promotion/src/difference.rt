// The least difference of two registers. Both have their loans in rising order, so that one pass over both meets it first.
ghost use Rattle.std.specs.Prelude.{◌≡◌, ◌<◌, length};
ghost use Rattle.iscc.specs.Representation.{code_as};
ghost use Rattle.loans.specs.Order.{loans_at};
ghost use Rattle.loans.specs.Halving.{loan_in};
ghost use Rattle.loans.specs.Numbered.{loans_of};
ghost use Rattle.loans.specs.Contents.{contents_of};
ghost use Rattle.loans.specs.Promotion.{difference};
ghost use Rattle.promotion.specs.Representation.{difference_as, loans_difference};

use iscc::code::{Code, LONGEST_CODE};
use places::ordered::Places;
use register::area::Register;
use std::cmp::Ordering;

// The code in a place, by value.
fn code_in(places: Places, i: usize) -> Code
    requires { i < length (loans_at places.bytes.now) }
    ensures { result ≡ code_as (loan_in (loans_at places.entry.bytes.now) i).code }
{
    let code = places.code(i);
    let mut bytes = [0u8; LONGEST_CODE];
    let length = code.len();
    bytes[0..length].copy_from_slice(code);
    Code {
        bytes: bytes,
        length: length,
    }
}

// Of the loans in one place of two registers, the lesser code that differs.
fn in_place(first: Places, second: Places, i: usize) -> Option<Code>
    requires { (i < length (loans_at first.bytes.now)) × (i < length (loans_at second.bytes.now)) }
    ensures { result ≡ difference_as (loans_difference (loan_in (loans_at first.entry.bytes.now) i) (loan_in (loans_at second.entry.bytes.now) i)) }
{
    match second.look(i, first.code(i)) {
        Ordering::Less => Some(code_in(first, i)),
        Ordering::Equal => {
            if first.borrower(i) == second.borrower(i) {
                return None;
            }
            Some(code_in(first, i))
        }
        Ordering::Greater => Some(code_in(second, i)),
    }
}

// Place by place, as long as both have the same loan there. The first has n codes out, the second m.
fn walk(first: Places, n: usize, second: Places, m: usize) -> Option<Code>
    requires { (n ≡ length (loans_at first.bytes.now)) × (m ≡ length (loans_at second.bytes.now)) }
    ensures { result ≡ difference_as (difference (loans_at first.entry.bytes.now) (loans_at second.entry.bytes.now)) }
{
    for i in 0..n.min(m) {
        let least = in_place(first, second, i);
        if least.is_some() {
            return least;
        }
    }
    if m < n {
        return Some(code_in(first, m));
    }
    if n < m {
        return Some(code_in(second, n));
    }
    None
}

pub(crate) fn least(first: Register, second: Register) -> Option<Code>
    ensures { result ≡ difference_as (difference (loans_of (contents_of first.entry.area.now)) (loans_of (contents_of second.entry.area.now))) }
{
    walk(
        first.places(),
        first.codes_out(),
        second.places(),
        second.codes_out(),
    )
}
