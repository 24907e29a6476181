// An issue, a return and a question by a code's bytes, on an area that is known to be a register.
ghost use Rattle.std.specs.Prelude.{◌≡◌, true, ◌++◌, suc, ◌*◌, ◌≤◌, ◌<◌, length};
ghost use Rattle.std.proofs.Math.Option.{some};
ghost use Rattle.loans.specs.Loan.{loan_of, one_code};
ghost use Rattle.loans.specs.Map.{issue_code, return_code};
ghost use Rattle.loans.specs.Place.{place_bytes};
ghost use Rattle.loans.specs.Register.{changed_area, asked_area};
ghost use Rattle.loans.specs.Calls.{afterwards};
ghost use Rattle.loans.specs.Halving.{searched, looks};
ghost use Rattle.loans.specs.Counts.{code_type};
ghost use Rattle.loans.specs.Numbered.{loans_of};
ghost use Rattle.loans.specs.Contents.{counts_part, places_part, number_part, is_register, contents_of, register};
ghost use Rattle.loans.specs.Moves.{put_in, taken_out, number_at, one_more, one_less};
ghost use Rattle.places.specs.Representation.{found_as};
ghost use Rattle.register.specs.Representation.{asked_as, changed_as};

use crate::area::Register;
use crate::number;
use iscc::refusal::Refusal;
use loans::layout::{COUNTS_LENGTH, LAST_NUMBER_OFFSET, PLACES, REGISTER_LENGTH};
use places::code::main_type;
use places::{counts, moves, place};

// A loan is put in, and counted.
fn put(code: &[u8], borrower: u32, place: usize, used: usize, area: &mut [u8; REGISTER_LENGTH])
    requires { (one_code code.now ≡ true) × (place ≤ used) × (used < 256) }
    ensures { area.new ≡ one_more (code_type code.now) (counts_part area.old) ++ (put_in (48 * place) (48 * used) (place_bytes (some (loan_of code.now borrower))) (places_part area.old) ++ number_part area.old) }
{
    let loan = place::place_of(code, borrower);
    moves::insert(
        &mut area[COUNTS_LENGTH..LAST_NUMBER_OFFSET],
        place,
        used,
        &loan,
    );
    counts::one_more(
        area.first_chunk_mut::<COUNTS_LENGTH>().unwrap(),
        main_type(code),
    );
}

// A loan is taken out, and one less is counted.
fn take(code: &[u8], place: usize, used: usize, area: &mut [u8; REGISTER_LENGTH])
    requires { (one_code code.now ≡ true) × (place < used) × (used ≤ 256) × (0 < number_at 0 (counts_part area.old)) × (0 < number_at (suc (code_type code.now)) (counts_part area.old)) }
    ensures { area.new ≡ one_less (code_type code.now) (counts_part area.old) ++ (taken_out (48 * place) 48 (48 * used) (places_part area.old) ++ number_part area.old) }
{
    moves::remove(&mut area[COUNTS_LENGTH..LAST_NUMBER_OFFSET], place, used);
    counts::one_less(
        area.first_chunk_mut::<COUNTS_LENGTH>().unwrap(),
        main_type(code),
    );
}

// The code goes to the borrower, at its place in the order, and takes the next number: 26, then 20, then 21.
pub fn issue(code: &[u8], borrower: u32, area: &mut [u8]) -> Result<u32, Refusal>
    requires { (is_register area.old ≡ true) × (one_code code.now ≡ true) }
    ensures answer { result ≡ changed_as (changed_area register (issue_code code.now borrower) area.old) }
    ensures area { area.new ≡ afterwards area.old (changed_area register (issue_code code.now borrower) area.old) }
{
    let register = Register::new(area);
    let Some(next) = register.next_number() else {
        return Err(Refusal::NumbersSpent);
    };
    let used = register.codes_out();
    let at = register.find(code);
    let Err(place) = at.place else {
        return Err(Refusal::AlreadyOut);
    };
    if used == PLACES {
        return Err(Refusal::AllOut);
    }
    let area = area.as_mut_array::<REGISTER_LENGTH>().unwrap();
    put(code, borrower, place, used, area);
    number::set(next, area);
    Ok(next)
}

// The code is taken back, its gap closed and the next number taken: 26, then 22.
pub fn take_back(code: &[u8], area: &mut [u8]) -> Result<u32, Refusal>
    requires { is_register area.old ≡ true }
    ensures answer { result ≡ changed_as (changed_area register (return_code code.now) area.old) }
    ensures area { area.new ≡ afterwards area.old (changed_area register (return_code code.now) area.old) }
{
    let register = Register::new(area);
    let Some(taken) = register.next_number() else {
        return Err(Refusal::NumbersSpent);
    };
    let used = register.codes_out();
    let at = register.find(code);
    let Ok(place) = at.place else {
        return Err(Refusal::NotOut);
    };
    let area = area.as_mut_array::<REGISTER_LENGTH>().unwrap();
    take(code, place, used, area);
    number::set(taken, area);
    Ok(taken)
}
