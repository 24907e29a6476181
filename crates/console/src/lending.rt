// The loans register: include/loans.h declares its entries.
ghost use Rattle.std.specs.Prelude.{◌≡◌};
ghost use Rattle.loans.specs.Calls.{afterwards};
ghost use Rattle.loans.specs.Contents.{issue_text, return_text, ask_text, looks_text, counts_asked};
ghost use Rattle.console.specs.Representation.{change_answer_as, change_answer_for, holder_answer_as, counts_answer_as};

use iscc::refusal::Refusal;

// Number 0 and the record number that the change took; or a refusal and 0.
#[repr(C)]
#[derive(Clone, Copy)]
pub struct ChangeAnswer {
    pub number: u32,
    pub record_number: u32,
}

// Number 0 and the borrower; or a refusal and 0. And how many places a question looked at.
#[repr(C)]
#[derive(Clone, Copy)]
pub struct HolderAnswer {
    pub number: u32,
    pub borrower: u32,
    pub looks: u32,
}

// Number 0 and how many codes are out, in all and by main type; or a refusal and zeros.
#[repr(C)]
#[derive(Clone, Copy)]
pub struct Counts {
    pub number: u32,
    pub out: u32,
    pub meta: u32,
    pub semantic: u32,
    pub content: u32,
    pub data: u32,
    pub instance: u32,
    pub iscc: u32,
    pub id: u32,
}

// A change's two numbers.
fn told(answer: Result<u32, Refusal>) -> ChangeAnswer
    ensures { result ≡ change_answer_for answer }
{
    match answer {
        Ok(n) => ChangeAnswer {
            number: 0,
            record_number: n,
        },
        Err(why) => ChangeAnswer {
            number: why.number(),
            record_number: 0,
        },
    }
}

#[unsafe(no_mangle)]
pub extern "C" fn loans_issue(text: &[u8], borrower: u32, area: &mut [u8]) -> ChangeAnswer
    ensures answer { result ≡ change_answer_as (issue_text text.now borrower area.old) }
    ensures area { area.new ≡ afterwards area.old (issue_text text.now borrower area.old) }
{
    told(register::calls::issue(text, borrower, area))
}

#[unsafe(no_mangle)]
pub extern "C" fn loans_return(text: &[u8], area: &mut [u8]) -> ChangeAnswer
    ensures answer { result ≡ change_answer_as (return_text text.now area.old) }
    ensures area { area.new ≡ afterwards area.old (return_text text.now area.old) }
{
    told(register::calls::take_back(text, area))
}

#[unsafe(no_mangle)]
pub extern "C" fn loans_ask(text: &[u8], area: &[u8]) -> HolderAnswer
    ensures { result ≡ holder_answer_as (ask_text text.now area.now) (looks_text text.now area.now) }
{
    let asked = register::calls::ask(text, area);
    let looks = asked.looks;
    match asked.holder {
        Ok(borrower) => HolderAnswer {
            number: 0,
            borrower,
            looks,
        },
        Err(q) => HolderAnswer {
            number: q.number(),
            borrower: 0,
            looks,
        },
    }
}

#[unsafe(no_mangle)]
pub extern "C" fn loans_counts(area: &[u8]) -> Counts
    ensures { result ≡ counts_answer_as (counts_asked area.now) }
{
    match register::calls::counts(area) {
        Ok(counts) => Counts {
            number: 0,
            out: counts.out,
            meta: counts.meta,
            semantic: counts.semantic,
            content: counts.content,
            data: counts.data,
            instance: counts.instance,
            iscc: counts.iscc,
            id: counts.id,
        },
        Err(refusal) => Counts {
            number: refusal.number(),
            out: 0,
            meta: 0,
            semantic: 0,
            content: 0,
            data: 0,
            instance: 0,
            iscc: 0,
            id: 0,
        },
    }
}
