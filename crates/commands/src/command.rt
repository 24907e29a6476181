// A command line read: the command that it is, or why it is none.
ghost use Rattle.std.specs.Prelude.{◌≡◌};
ghost use Rattle.commands.specs.Commands.{command_of};
ghost use Rattle.commands.specs.Reading.{only_word, issue_behind, sheet_behind};
ghost use Rattle.commands.specs.Representation.{command_in, word_in};

use crate::words;

// The longest line that is read, in bytes.
pub const LONGEST_COMMAND: usize = 2048;

// Why a line is no command.
#[derive(Clone, Copy, Debug, PartialEq, Eq)]
pub enum Fault {
    LongLine,
    NoCommand,
    UnknownCommand,
    IssueWords,
    ReturnWords,
    AskWords,
    SheetWords,
    BadBorrower,
}

// A text stands as it was typed.
#[derive(Clone, Copy, Debug, PartialEq, Eq)]
pub enum Command<'a> {
    Issue { text: &'a [u8], borrower: u32 },
    Return { text: &'a [u8] },
    Ask { text: &'a [u8] },
    Sheet,
}

// The word of a text that has one and no more.
fn only_word(text: &[u8]) -> Option<&[u8]>
    ensures { word_in result ≡ only_word text.now }
{
    let (word, behind) = words::next(text);
    let (more, _) = words::next(behind);
    (!word.is_empty() && more.is_empty()).then_some(word)
}

// A text and a borrower, and no word behind them.
fn issue(words: &[u8]) -> Result<Command<'_>, Fault>
    ensures { command_in result ≡ issue_behind words.now }
{
    let (text, behind) = words::next(words);
    let borrower = only_word(behind).ok_or(Fault::IssueWords)?;
    let borrower = words::read_borrower(borrower).ok_or(Fault::BadBorrower)?;
    Ok(Command::Issue { text, borrower })
}

// No word.
fn sheet(words: &[u8]) -> Result<Command<'_>, Fault>
    ensures { command_in result ≡ sheet_behind words.now }
{
    let (more, _) = words::next(words);
    if more.is_empty() {
        Ok(Command::Sheet)
    } else {
        Err(Fault::SheetWords)
    }
}

// The command that a line is.
pub fn read(line: &[u8]) -> Result<Command<'_>, Fault>
    ensures { command_in result ≡ command_of line.now }
{
    if line.len() > LONGEST_COMMAND {
        return Err(Fault::LongLine);
    }
    let (word, behind) = words::next(line);
    // Not a match: in its last arm a proof has 21 ways to differ from a name, byte by byte, and here a test for each name.
    if word.is_empty() {
        Err(Fault::NoCommand)
    } else if word == b"issue".as_slice() {
        issue(behind)
    } else if word == b"return".as_slice() {
        let text = only_word(behind).ok_or(Fault::ReturnWords)?;
        Ok(Command::Return { text })
    } else if word == b"ask".as_slice() {
        let text = only_word(behind).ok_or(Fault::AskWords)?;
        Ok(Command::Ask { text })
    } else if word == b"sheet".as_slice() {
        sheet(behind)
    } else {
        Err(Fault::UnknownCommand)
    }
}
