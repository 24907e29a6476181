// The writer that holds a lent log and its position, thin over `append`; whoever has an area and a number calls `append`.
ghost use Rattle.std.specs.Prelude.{◌≡◌};
ghost use Rattle.loans.specs.Map.{issue_code, return_code};
ghost use Rattle.pending_log.specs.Held.{written, done_as, writer_after};

use crate::append;
use iscc::refusal::Refusal;

#[derive(Drop)]
pub struct LogWriter<'a> {
    pub log: &'a mut [u8],
    pub position: usize,
}

impl<'a> LogWriter<'a> {
    // A writer of a log of which so many bytes are written already.
    pub fn new(log: &'a mut [u8], position: usize) -> Self
        ensures { (result.log ≡ log.entry) × (result.position ≡ position) }
    {
        LogWriter {
            log: log,
            position: position,
        }
    }

    // Appends an issue: 24, then 15.
    pub fn issue(&mut self, record_number: u32, code: &[u8], borrower: u32) -> Result<(), Refusal>
        ensures answer { result ≡ done_as (written self.old (record { number = record_number; change = issue_code code.now borrower })) }
        ensures writer { self.new ≡ writer_after self.old (record { number = record_number; change = issue_code code.now borrower }) }
    {
        let position = self.position;
        self.position = append::issue(&mut *self.log, position, record_number, code, borrower)?;
        Ok(())
    }

    // Appends a return: 24, then 15.
    pub fn take_back(&mut self, record_number: u32, code: &[u8]) -> Result<(), Refusal>
        ensures answer { result ≡ done_as (written self.old (record { number = record_number; change = return_code code.now })) }
        ensures writer { self.new ≡ writer_after self.old (record { number = record_number; change = return_code code.now }) }
    {
        let position = self.position;
        self.position = append::take_back(&mut *self.log, position, record_number, code)?;
        Ok(())
    }
}
