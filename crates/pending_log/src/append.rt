// Records appended to a lent log at a position, by the code's bytes: a whole record, or nothing.
ghost use Rattle.std.specs.Prelude.{◌≡◌, ◌∷◌, ◌++◌, ◌+◌, ◌≤◌, length};
ghost use Rattle.iscc.specs.Digits.{digits};
ghost use Rattle.loans.specs.Map.{issue_code, return_code};
ghost use Rattle.loans.specs.Moves.{pasted};
ghost use Rattle.loans.specs.Writer.{written_after};
ghost use Rattle.loans.specs.PendingLog.{write_record};
ghost use Rattle.pending_log.specs.AppendedRecord.{appended_record};
ghost use Rattle.pending_log.specs.Representation.{appended_as};

use crate::check;
use iscc::refusal::Refusal;
use loans::layout::{BORROWER_LENGTH, HEAD_LENGTH, ISSUE_TAG, NUMBER_LENGTH, RETURN_TAG};

// A record to be written: its tag, its number, and what its body has in front of the code.
#[derive(Clone, Copy)]
struct Record<'a> {
    tag: u8,
    number: u32,
    front: &'a [u8],
    code: &'a [u8],
    ghost short: { length front.now ≤ 4 },
}

// Writes a part of a record at an offset, where there is room for it; the offset behind it.
fn put(part: &[u8], log: &mut [u8], offset: usize) -> usize
    requires { offset + length part.now ≤ length log.old }
    ensures offset { result ≡ offset + length part.now }
    ensures log { log.new ≡ pasted offset part.now log.old }
{
    let end = offset + part.len();
    log[offset..end].copy_from_slice(part);
    end
}

impl<'a> Record<'a> {
    // What it starts with: its tag, the size of its body, its number.
    fn head(self) -> [u8; HEAD_LENGTH + NUMBER_LENGTH]
        requires { length self.code.now ≤ 42 }
        ensures { result ≡ self.entry.tag ∷ (digits 8 2 (4 + length self.entry.front.now + length self.entry.code.now) ++ digits 8 4 self.entry.number) }
    {
        let size = NUMBER_LENGTH + self.front.len() + self.code.len();
        let mut head = [0u8; HEAD_LENGTH + NUMBER_LENGTH];
        head[0] = self.tag;
        octets::number::write(size as u32, &mut head[1..HEAD_LENGTH]);
        octets::number::write(
            self.number,
            &mut head[HEAD_LENGTH..HEAD_LENGTH + NUMBER_LENGTH],
        );
        head
    }

    // Behind a position of a log, in three parts; the position behind it: 24, then 15.
    fn append(self, log: &mut [u8], position: usize) -> Result<usize, Refusal>
        ensures answer { result ≡ appended_as (appended_record self.entry.tag self.entry.number self.entry.front.now self.entry.code.now log.old position) }
        ensures log { log.new ≡ (written_after log.old position (appended_record self.entry.tag self.entry.number self.entry.front.now self.entry.code.now log.old position)).log }
    {
        if !check::is_numbered(self.number, self.code) {
            return Err(Refusal::NotRecord);
        }
        let room = log.len().saturating_sub(position);
        if room < HEAD_LENGTH + NUMBER_LENGTH + self.front.len() + self.code.len() {
            return Err(Refusal::AreaTooShort);
        }
        let behind = put(&self.head(), log, position);
        let middle = put(self.front, log, behind);
        Ok(put(self.code, log, middle))
    }
}

// The record of an issue: 24, then 15. The position behind it; a refusal changes no byte, and the caller's position stays.
pub fn issue(
    log: &mut [u8],
    position: usize,
    record_number: u32,
    code: &[u8],
    borrower: u32,
) -> Result<usize, Refusal>
    ensures answer { result ≡ appended_as (write_record (record { number = record_number; change = issue_code code.now borrower }) log.old position) }
    ensures log { log.new ≡ (written_after log.old position (write_record (record { number = record_number; change = issue_code code.now borrower }) log.old position)).log }
{
    let mut front = [0u8; BORROWER_LENGTH];
    octets::number::write(borrower, &mut front);
    let issued = Record {
        tag: ISSUE_TAG,
        number: record_number,
        front: &front,
        code: code,
    };
    issued.append(log, position)
}

// The record of a return, whose code follows the number: 24, then 15.
pub fn take_back(
    log: &mut [u8],
    position: usize,
    record_number: u32,
    code: &[u8],
) -> Result<usize, Refusal>
    ensures answer { result ≡ appended_as (write_record (record { number = record_number; change = return_code code.now }) log.old position) }
    ensures log { log.new ≡ (written_after log.old position (write_record (record { number = record_number; change = return_code code.now }) log.old position)).log }
{
    let returned = Record {
        tag: RETURN_TAG,
        number: record_number,
        front: &[],
        code: code,
    };
    returned.append(log, position)
}
