// Whether a replica may be promoted: include/loans.h declares the entry.
ghost use Rattle.std.specs.Prelude.{◌≡◌};
ghost use Rattle.loans.specs.Promotion.{promotion, work_after};
ghost use Rattle.console.specs.Representation.{promotion_with, promotion_answer_as};

use iscc::code;
use iscc::code::Code;
use promotion::answer::Denial;
use promotion::check;

// Number 0 is yes. An offset in the log, and a code filled up with zeros, where the verdict has one; else zeros.
#[repr(C)]
#[derive(Clone, Copy)]
pub struct PromotionAnswer {
    pub number: u32,
    pub offset: usize,
    pub code_length: usize,
    pub code: [u8; 42],
}

// A verdict, by what it tells.
fn told(number: u32, offset: usize, code: Code) -> PromotionAnswer
    ensures { result ≡ promotion_with number offset code }
{
    let bytes = code.bytes;
    PromotionAnswer {
        number: number,
        offset: offset,
        code_length: code.length,
        code: bytes,
    }
}

#[unsafe(no_mangle)]
pub extern "C" fn loans_promote(log: &[u8], replica: &[u8], work: &mut [u8]) -> PromotionAnswer
    ensures answer { result ≡ promotion_answer_as (promotion log.now replica.now work.old) }
    ensures work { work.new ≡ work_after log.now replica.now work.old }
{
    match check::may_promote(log, replica, work) {
        Ok(()) => told(0, 0, code::none()),
        Err(Denial::Refused(q)) => told(q.number(), 0, code::none()),
        Err(Denial::At(q, offset)) => told(q.number(), offset, code::none()),
        Err(Denial::For(q, code)) => told(q.number(), 0, code),
    }
}
