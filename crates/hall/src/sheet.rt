// The sheet's lines: the counts, then a line for each code out.
ghost use Rattle.std.specs.Prelude.{◌≡◌, [], ◌++◌, ◌<◌, length, get_or, take};
ghost use Rattle.loans.specs.Counts as tallies;
ghost use Rattle.loans.specs.Halving.{loan_in};
ghost use Rattle.loans.specs.Contents.{contents_of};
ghost use Rattle.answers.specs.Answers.{in_decimal, out_line, counts_line};
ghost use Rattle.hall.specs.Sheet.{text_of_bytes, loan_line, sheet_lines};

use crate::names;
use crate::names::LONGEST_NAME;
use answers::line::Line;
use answers::replies;
use register::area::Register;

// A number and its name behind a line.
fn push_count(line: &mut Line, number: u32, name: &[u8])
    ensures { line.new ≡ take 200 (line.old ++ (in_decimal number ++ name.now)) }
{
    line.push_number(u64::from(number));
    line.push(name);
}

// The first line: in all and by main type.
fn counts(register: Register) -> Line
    ensures { result ≡ counts_line (tallies.counts (contents_of register.entry.area.now).loans) }
{
    let n = register.counts();
    let mut line = Line::new();
    push_count(&mut line, n.out, b" out: ");
    push_count(&mut line, n.meta, b" META, ");
    push_count(&mut line, n.semantic, b" SEMANTIC, ");
    push_count(&mut line, n.content, b" CONTENT, ");
    push_count(&mut line, n.data, b" DATA, ");
    push_count(&mut line, n.instance, b" INSTANCE, ");
    push_count(&mut line, n.iscc, b" ISCC, ");
    push_count(&mut line, n.id, b" ID");
    line
}

// The line of a code that is out.
fn out(code: &[u8], borrower: u32) -> Line
    ensures { result ≡ out_line (text_of_bytes code.now) borrower }
{
    let mut name = [0; LONGEST_NAME];
    replies::out(names::of_code(code, &mut name), borrower)
}

// The line of the code in a place.
fn loan(register: Register, i: usize) -> Line
    requires { i < length (contents_of register.area.now).loans }
    ensures { result ≡ loan_line (loan_in (contents_of register.entry.area.now).loans i) }
{
    let places = register.places();
    out(places.code(i), places.borrower(i))
}

// How many lines there are; none where the area is no register.
pub fn count(area: &[u8]) -> usize
    ensures { result ≡ length (sheet_lines area.now) }
{
    match Register::from_bytes(area) {
        Some(register) => 1 + register.codes_out(),
        None => 0,
    }
}

// The line that stands i-th, from 0; an empty one behind the last.
pub fn line(area: &[u8], i: usize) -> Line
    ensures { result ≡ get_or (sheet_lines area.now) i [] }
{
    let Some(register) = Register::from_bytes(area) else {
        return Line::new();
    };
    if i == 0 {
        return counts(register);
    }
    if i <= register.codes_out() {
        return loan(register, i - 1);
    }
    Line::new()
}
