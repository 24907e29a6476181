// The answer to a line that is no command.
ghost use Rattle.std.specs.Prelude.{◌≡◌};
ghost use Rattle.commands.specs.Representation.{fault_in};
ghost use Rattle.hall.specs.Faults.{fault_sentence, fault_line};

use answers::line::Line;
use commands::command::Fault;

#[tactic(auto, unfolding(crate::specs::Faults::fault_sentence))]
fn sentence(fault: Fault) -> &'static [u8]
    ensures { result.now ≡ fault_sentence (fault_in fault) }
{
    match fault {
        Fault::LongLine => b"The line is longer than 2,048 bytes.",
        Fault::NoCommand => b"There is no command.",
        Fault::UnknownCommand => b"There is no such command: issue, return, ask and sheet are.",
        Fault::IssueWords => b"An issue takes a code and a borrower.",
        Fault::ReturnWords => b"A return takes a code.",
        Fault::AskWords => b"A question takes a code.",
        Fault::SheetWords => b"The sheet takes no more words.",
        Fault::BadBorrower => b"The borrower is no number from 0 to 4294967295.",
    }
}

pub(crate) fn line(fault: Fault) -> Line
    ensures { result ≡ fault_line (fault_in fault) }
{
    let mut line = Line::new();
    line.push(b"refused: ");
    line.push(sentence(fault));
    line
}
