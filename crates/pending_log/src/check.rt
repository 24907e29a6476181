// 24: whether a number and a code make a record.
ghost use Rattle.std.specs.Prelude.{◌≡◌, true, not, ◌&&◌, ◌≤◌, length, eqb};
ghost use Rattle.loans.specs.Loan.{one_code};

use places::code::is_code;

// Records are numbered from 1 on.
pub(crate) fn is_numbered(record_number: u32, code: &[u8]) -> bool
    ensures is { result ≡ (one_code code.now && not (eqb record_number 0)) }
    ensures most { result ≡ true → length code.now ≤ 42 }
{
    if record_number == 0 {
        return false;
    }
    is_code(code)
}
