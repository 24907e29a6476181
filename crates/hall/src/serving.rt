// A line of the counter's input against the register in an area: the answer, the record to append, and the register afterwards.
ghost use Rattle.std.specs.Prelude.{◌≡◌, [], ◌++◌, length, drop};
ghost use Rattle.iscc.specs.Answer.{accept};
ghost use Rattle.loans.specs.Calls as calls;
ghost use Rattle.loans.specs.Map.{issue_code, return_code};
ghost use Rattle.commands.specs.Representation.{fault_in};
ghost use Rattle.answers.specs.Answers.{refused_line};
ghost use Rattle.hall.specs.Faults.{fault_line};
ghost use Rattle.hall.specs.Serving as serving;
ghost use Rattle.hall.specs.Serving.{code_of_typed};
ghost use Rattle.hall.specs.Said.{Said, Tells, Recordable, entry_size, record_bytes, issued_as, returned_as};

use crate::names::LONGEST_NAME;
use crate::{faults, names, sheet};
use answers::line::Line;
use answers::replies;
use commands::command;
use commands::command::{Command, Fault};
use iscc::refusal::Refusal;
use pending_log::append;
use register::calls;

// The longest record, in bytes.
pub const LONGEST_RECORD: usize = 53;

// What a command came to.
#[derive(Clone, Copy, Debug, PartialEq, Eq)]
pub enum Outcome {
    Refused,
    // Nothing changed.
    Answered,
    // Nothing changed, and the sheet's other lines follow.
    Sheet,
    // A record of so many bytes stands in front of the area for it.
    Recorded(usize),
}

#[derive(Clone, Copy)]
pub struct Served {
    pub line: Line,
    pub outcome: Outcome,
}

fn refused(q: Refusal) -> Served
    ensures { Said (serving.not_served (refused_line q) []) result }
{
    Served {
        line: replies::refused(q),
        outcome: Outcome::Refused,
    }
}

fn faulty(fault: Fault) -> Served
    ensures { Said (serving.not_served (fault_line (fault_in fault)) []) result }
{
    Served {
        line: faults::line(fault),
        outcome: Outcome::Refused,
    }
}

// The record of an issue that was made; its size. It is no function of one with the return's: an Option would tell which append to call.
fn issue_entry(text: &[u8], borrower: u32, number: u32, entry: &mut [u8; LONGEST_RECORD]) -> usize
    requires { Recordable text.now number }
    ensures size { result ≡ length (record_bytes (issue_code (code_of_typed text.now) borrower) number) }
    ensures entry { entry.new ≡ record_bytes (issue_code (code_of_typed text.now) borrower) number ++ drop result entry.old }
{
    let code = door::code::read(text).unwrap();
    append::issue(entry, 0, number, &code.bytes[0..code.length], borrower).unwrap()
}

// The record of a return that was made; its size.
fn return_entry(text: &[u8], number: u32, entry: &mut [u8; LONGEST_RECORD]) -> usize
    requires { Recordable text.now number }
    ensures size { result ≡ length (record_bytes (return_code (code_of_typed text.now)) number) }
    ensures entry { entry.new ≡ record_bytes (return_code (code_of_typed text.now)) number ++ drop result entry.old }
{
    let code = door::code::read(text).unwrap();
    append::take_back(entry, 0, number, &code.bytes[0..code.length]).unwrap()
}

// An issue that was made, under its number.
fn issued(text: &[u8], borrower: u32, number: u32, entry: &mut [u8; LONGEST_RECORD]) -> Served
    requires { Recordable text.now number }
    ensures { Tells (issued_as text.now borrower number) result entry.old entry.new }
{
    let mut name = [0; LONGEST_NAME];
    Served {
        line: replies::issued(names::of_text(text, &mut name), borrower, number),
        outcome: Outcome::Recorded(issue_entry(text, borrower, number, entry)),
    }
}

// A return that was made, under its number.
fn returned(text: &[u8], number: u32, entry: &mut [u8; LONGEST_RECORD]) -> Served
    requires { Recordable text.now number }
    ensures { Tells (returned_as text.now number) result entry.old entry.new }
{
    let mut name = [0; LONGEST_NAME];
    Served {
        line: replies::returned(names::of_text(text, &mut name), number),
        outcome: Outcome::Recorded(return_entry(text, number, entry)),
    }
}

// Issues the code that the text holds: the register's numbers.
pub fn issue(
    text: &[u8],
    borrower: u32,
    area: &mut [u8],
    entry: &mut [u8; LONGEST_RECORD],
) -> Served
    ensures told { Tells (serving.call_served (calls.issue text.now borrower) area.old) result entry.old entry.new }
    ensures area { area.new ≡ (serving.call_served (calls.issue text.now borrower) area.old).area }
{
    match calls::issue(text, borrower, area) {
        Ok(number) => issued(text, borrower, number, entry),
        Err(q) => refused(q),
    }
}

// Takes back the code that the text holds: the register's numbers.
pub fn take_back(text: &[u8], area: &mut [u8], entry: &mut [u8; LONGEST_RECORD]) -> Served
    ensures told { Tells (serving.call_served (calls.take_back text.now) area.old) result entry.old entry.new }
    ensures area { area.new ≡ (serving.call_served (calls.take_back text.now) area.old).area }
{
    match calls::take_back(text, area) {
        Ok(number) => returned(text, number, entry),
        Err(q) => refused(q),
    }
}

// A question that was answered: the code is out to a borrower.
fn found(text: &[u8], borrower: u32) -> Served
    ensures { Said (serving.ask_served text.now [] (accept borrower)) result }
{
    let mut name = [0; LONGEST_NAME];
    Served {
        line: replies::out(names::of_text(text, &mut name), borrower),
        outcome: Outcome::Answered,
    }
}

// Who has the code that the text holds.
pub fn ask(text: &[u8], area: &[u8]) -> Served
    ensures said { Said (serving.call_served (calls.ask text.now) area.now) result }
    ensures entry { entry_size result.outcome ≡ 0 }
{
    let asked = calls::ask(text, area);
    let holder = asked.holder;
    match holder {
        Ok(borrower) => found(text, borrower),
        Err(q) => refused(q),
    }
}

// The sheet's first line: 23.
fn counted(area: &[u8]) -> Served
    ensures { Said (serving.sheet_served area.now) result }
{
    if register::check::is_register(area) {
        return Served {
            line: sheet::line(area, 0),
            outcome: Outcome::Sheet,
        };
    }
    refused(Refusal::NotRegister)
}

// A line of the counter's input.
pub fn serve(line: &[u8], area: &mut [u8], entry: &mut [u8; LONGEST_RECORD]) -> Served
    ensures told { Tells (serving.served line.now area.old) result entry.old entry.new }
    ensures area { area.new ≡ (serving.served line.now area.old).area }
{
    match command::read(line) {
        Ok(Command::Issue { text, borrower }) => issue(text, borrower, area, entry),
        Ok(Command::Return { text }) => take_back(text, area, entry),
        Ok(Command::Ask { text }) => ask(text, area),
        Ok(Command::Sheet) => counted(area),
        Err(fault) => faulty(fault),
    }
}
