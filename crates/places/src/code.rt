// A code as it stands in a register and in a log.
ghost use Rattle.std.specs.Prelude.{◌≡◌, true};
ghost use Rattle.iscc.specs.Permitted.{number};
ghost use Rattle.loans.specs.Loan.{one_code};
ghost use Rattle.loans.specs.Counts.{code_type};

use iscc::main_type::MainType;

// Whether the bytes are exactly one permitted unit or composite.
pub fn is_code(bytes: &[u8]) -> bool
    ensures { result ≡ one_code bytes.now }
{
    unit::one::is_one(bytes)
}

// A code's main type: its first four bits.
pub fn main_type(code: &[u8]) -> MainType
    requires { one_code code.now ≡ true }
    ensures { number result ≡ code_type code.now }
{
    MainType::try_from(u32::from(code[0]) / 16).unwrap()
}
