// The register's calls. By a typed text: the numbers of the text come first, then 23, then the register's own; and its counts.
ghost use Rattle.std.specs.Prelude.{◌≡◌, ◌≤◌};
ghost use Rattle.iscc.specs.Answer.{number_of};
ghost use Rattle.loans.specs.Calls.{afterwards};
ghost use Rattle.loans.specs.Contents.{issue_text, return_text, number_taken, ask_text, looks_text, counts_asked};
ghost use Rattle.register.specs.Representation.{asked_as, holder_number, holder_borrower, borrower_in, changed_as, changed_number, changed_record, counts_as};

use crate::admit::admit;
use crate::answer::{Asked, Counts};
use crate::area::Register;
use crate::change;
use iscc::refusal::Refusal;

// Issues the code that the text holds: 2, 1, 3 to 14, then 23, 26, 20, 21.
pub fn issue(text: &[u8], borrower: u32, area: &mut [u8]) -> Result<u32, Refusal>
    ensures answer { result ≡ changed_as (issue_text text.now borrower area.old) }
    ensures number { changed_number result ≡ number_of (issue_text text.now borrower area.old) }
    ensures taken { changed_record result ≡ number_taken (issue_text text.now borrower area.old) }
    ensures area { area.new ≡ afterwards area.old (issue_text text.now borrower area.old) }
{
    let code = admit(text, area)?;
    change::issue(&code.bytes[0..code.length], borrower, area)
}

// Takes back the code that the text holds: 2, 1, 3 to 14, then 23, 26, 22.
pub fn take_back(text: &[u8], area: &mut [u8]) -> Result<u32, Refusal>
    ensures answer { result ≡ changed_as (return_text text.now area.old) }
    ensures number { changed_number result ≡ number_of (return_text text.now area.old) }
    ensures taken { changed_record result ≡ number_taken (return_text text.now area.old) }
    ensures area { area.new ≡ afterwards area.old (return_text text.now area.old) }
{
    let code = admit(text, area)?;
    change::take_back(&code.bytes[0..code.length], area)
}

// Who has the code that the text holds, and how many places were looked at: 2, 1, 3 to 14, then 23, 22.
pub fn ask(text: &[u8], area: &[u8]) -> Asked
    ensures answer { result ≡ asked_as (ask_text text.now area.now) (looks_text text.now area.now) }
    ensures number { holder_number result.holder ≡ number_of (ask_text text.now area.now) }
    ensures borrower { holder_borrower result.holder ≡ borrower_in (ask_text text.now area.now) }
    ensures looks { (result.looks ≡ looks_text text.now area.now) × (result.looks ≤ 9) }
{
    match admit(text, area) {
        Ok(code) => Register::new(area).ask(&code.bytes[0..code.length]),
        Err(q) => Asked {
            holder: Err(q.refusal),
            looks: 0,
        },
    }
}

// How many codes are out, in all and by main type: 23.
pub fn counts(area: &[u8]) -> Result<Counts, Refusal>
    ensures { result ≡ counts_as (counts_asked area.now) }
{
    match Register::from_bytes(area) {
        Some(register) => Ok(register.counts()),
        None => Err(Refusal::NotRegister),
    }
}
