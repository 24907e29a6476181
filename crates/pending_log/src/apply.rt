// One record of a log applied to a register: 24, then skipped or 25, then the register's own numbers.
ghost use Rattle.std.specs.Prelude.{◌≡◌, true};
ghost use Rattle.loans.specs.Loan.{one_code};
ghost use Rattle.loans.specs.Calls.{afterwards};
ghost use Rattle.loans.specs.Register.{changed_area};
ghost use Rattle.loans.specs.Records.{code_of};
ghost use Rattle.loans.specs.Contents.{is_register, register};
ghost use Rattle.pending_log.specs.AppliedArea.{applied_area};
ghost use Rattle.pending_log.specs.Representation.{change_in, field_in};
ghost use Rattle.register.specs.Representation.{changed_as};

use crate::field::{Change, Field};
use iscc::refusal::Refusal;
use register::area::Register;
use register::change;

// The change of a record. That the area is a register is a fact and no type here and in `replay`: between the two writes of a change
// it is none, so a type that says so would be taken apart and made again for each.
fn make(made: Change, area: &mut [u8]) -> Result<u32, Refusal>
    requires { (one_code (code_of (change_in made)) ≡ true) × (is_register area.old ≡ true) }
    ensures answer { result ≡ changed_as (changed_area register (change_in made.entry) area.old) }
    ensures area { area.new ≡ afterwards area.old (changed_area register (change_in made.entry) area.old) }
{
    match made {
        Change::Issue(code, borrower) => change::issue(code, borrower, area),
        Change::Return(code) => change::take_back(code, area),
    }
}

// A record in its turn. What is applied already is skipped, and the last number stays.
pub(crate) fn apply(field: Field, area: &mut [u8]) -> Result<u32, Refusal>
    requires { is_register area.old ≡ true }
    ensures answer { result ≡ changed_as (applied_area (field_in field.entry) area.old) }
    ensures area { area.new ≡ afterwards area.old (applied_area (field_in field.entry) area.old) }
{
    let Some(made) = field.change() else {
        return Err(Refusal::NotRecord);
    };
    let record_number = field.number();
    let last = Register::new(area).last_number();
    if record_number <= last {
        return Ok(last);
    }
    if record_number != last + 1 {
        return Err(Refusal::NumberGap);
    }
    make(made, area)
}
