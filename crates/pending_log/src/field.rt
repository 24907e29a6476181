// The field that starts at an offset of a log, and the record that it holds.
ghost use Rattle.std.specs.Prelude.{◌≡◌, true, not, ◌&&◌, ◌+◌, ◌≤◌, length, take, drop, eqb, is_some, IfSome};
ghost use Rattle.iscc.specs.Digits.{value};
ghost use Rattle.loans.specs.Loan.{one_code};
ghost use Rattle.loans.specs.Fields.{first_is_whole, first_field};
ghost use Rattle.loans.specs.Records.{code_of};
ghost use Rattle.loans.specs.PendingLog.{number_in, is_numbered, numbered_of};
ghost use Rattle.pending_log.specs.WholeSize.{whole_size};
ghost use Rattle.pending_log.specs.Representation.{change_in, field_in};

use crate::check;
use loans::layout::{BORROWER_LENGTH, HEAD_LENGTH, ISSUE_TAG, NUMBER_LENGTH, RETURN_TAG};

#[derive(Clone, Copy)]
pub struct Field<'a> {
    pub tag: u8,
    pub body: &'a [u8],
}

// The change of a record, by the code's bytes.
#[derive(Clone, Copy)]
pub(crate) enum Change<'a> {
    // To this borrower.
    Issue(&'a [u8], u32),
    Return(&'a [u8]),
}

// The size of the field at an offset; none where no whole field stands there.
pub fn whole_size(log: &[u8], offset: usize) -> Option<usize>
    requires { offset ≤ length log.now }
    ensures size { result ≡ whole_size (drop offset log.now) }
    ensures room { IfSome result (λ n. (3 ≤ n) × (offset + n ≤ length log.now)) }
{
    let rest = log.len() - offset;
    if rest < HEAD_LENGTH {
        return None;
    }
    let size = HEAD_LENGTH + 256 * usize::from(log[offset + 1]) + usize::from(log[offset + 2]);
    if rest < size {
        return None;
    }
    Some(size)
}

// The number that a body starts with; of one that is shorter, what it holds.
fn number_in(body: &[u8]) -> u32
    ensures { result ≡ value 8 (take 4 body.now) }
{
    octets::number::read(&body[..body.len().min(NUMBER_LENGTH)])
}

impl<'a> Field<'a> {
    // None where no whole field stands at the offset.
    pub fn at(log: &'a [u8], offset: usize) -> Option<Self>
        requires { offset ≤ length log.now }
        ensures whole { is_some result ≡ first_is_whole (drop offset log.entry.now) }
        ensures field { IfSome result (λ f. field_in f ≡ first_field (drop offset log.entry.now)) }
        ensures room { IfSome result (λ f. offset + (3 + length f.body.now) ≤ length log.entry.now) }
    {
        let size = whole_size(log, offset)?;
        Some(Field {
            tag: log[offset],
            body: &log[offset + HEAD_LENGTH..offset + size],
        })
    }

    // How many bytes of the log it is.
    pub fn size(self) -> usize
        requires { 3 + length self.body.now ≤ 18446744073709551615 }
        ensures { result ≡ 3 + length self.entry.body.now }
    {
        HEAD_LENGTH + self.body.len()
    }

    // The number that its body starts with.
    pub fn number(self) -> u32
        ensures { result ≡ number_in (field_in self.entry) }
    {
        number_in(self.body)
    }

    // The code behind an offset of its body, where this and the number make a record.
    fn code_behind(self, offset: usize) -> Option<&'a [u8]>
        ensures is { is_some result ≡ (one_code (drop offset self.entry.body.now) && not (eqb (number_in (field_in self.entry)) 0)) }
        ensures code { IfSome result (λ c. c.now ≡ drop offset self.entry.body.now) }
    {
        let code = self.body.get(offset..)?;
        if check::is_numbered(self.number(), code) {
            return Some(code);
        }
        None
    }

    // What the record in it changes; none for another tag, or a body that is no such record: 24.
    pub(crate) fn change(self) -> Option<Change<'a>>
        ensures is { is_some result ≡ is_numbered (field_in self.entry) }
        ensures change { IfSome result (λ c. change_in c ≡ (numbered_of (field_in self.entry)).change) }
        ensures code { IfSome result (λ c. one_code (code_of (change_in c)) ≡ true) }
    {
        if self.tag == ISSUE_TAG {
            let end = NUMBER_LENGTH + BORROWER_LENGTH;
            let code = self.code_behind(end)?;
            let borrower = number_in(&self.body[NUMBER_LENGTH..end]);
            return Some(Change::Issue(code, borrower));
        }
        if self.tag == RETURN_TAG {
            let code = self.code_behind(NUMBER_LENGTH)?;
            return Some(Change::Return(code));
        }
        None
    }
}
