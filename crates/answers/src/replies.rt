// The lines that answer a command.
ghost use Rattle.std.specs.Prelude.{◌≡◌, ◌++◌, ◌≤◌, length, take};
ghost use Rattle.iscc.specs.Ascii.{ascii};
ghost use Rattle.answers.specs.Answers.{in_decimal, issued_line, returned_line, out_line, refused_line};

use crate::line::Line;
use crate::sentences::sentence;
use iscc::refusal::Refusal;

// A code and its borrower, behind a first word.
fn lent(word: &[u8], text: &[u8], borrower: u32) -> Line
    ensures { result ≡ take 200 (word.now ++ (text.now ++ (ascii " to " ++ in_decimal borrower))) }
{
    let mut line = Line::new();
    line.push(word);
    line.push(text);
    line.push(b" to ");
    line.push_number(u64::from(borrower));
    line
}

pub fn issued(text: &[u8], borrower: u32, number: u32) -> Line
    requires { length text.now ≤ 73 }
    ensures { result ≡ issued_line text.now borrower number }
{
    let mut line = lent(b"issued ", text, borrower);
    line.push(b" as record ");
    line.push_number(u64::from(number));
    line
}

pub fn returned(text: &[u8], number: u32) -> Line
    requires { length text.now ≤ 73 }
    ensures { result ≡ returned_line text.now number }
{
    let mut line = Line::new();
    line.push(b"returned ");
    line.push(text);
    line.push(b" as record ");
    line.push_number(u64::from(number));
    line
}

pub fn out(text: &[u8], borrower: u32) -> Line
    requires { length text.now ≤ 73 }
    ensures { result ≡ out_line text.now borrower }
{
    lent(b"out ", text, borrower)
}

pub fn refused(q: Refusal) -> Line
    ensures { result ≡ refused_line q }
{
    let number = q.number();
    let mut line = Line::new();
    line.push(b"refused ");
    line.push_number(u64::from(number));
    line.push(b": ");
    line.push(sentence(number));
    line
}
