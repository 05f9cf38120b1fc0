//! A loan is granted, changed and given back.
use crate::error::ModelError;
use crate::model::{Model, Outcome};
use crate::records::Loan;
use crate::views::Thing;
use iox2_commands::Reply;
use iox2_machine::{AllocationStrategy, LoanError, SendError, TypeVariant};

impl Model {
    // The publisher that may be asked for a loan, if messages are of this variant. It waits for no
    // receiver.
    fn lender_at(&self, of: usize, variant: TypeVariant) -> Option<usize> {
        if self.config.units_per_element != 1 || self.config.variant != variant {
            return None;
        }
        self.unblocked_at(of)
    }

    // A loan with this in each of its cells, or the refusal.
    fn grant_loan(
        &mut self,
        p: usize,
        len: usize,
        cell: Option<u64>,
    ) -> Result<Result<usize, LoanError>, ModelError> {
        let message = self.loans.next();
        let Some(publisher) = self.publishers.get_mut(p) else {
            return Err(ModelError::NoRule);
        };
        let is_static = publisher.segments.allocation == AllocationStrategy::Static;
        if is_static && len > publisher.segments.len {
            return Ok(Err(LoanError::ExceedsMaxLoanSize));
        }
        if publisher.loans.len() >= publisher.max_loaned_samples {
            return Ok(Err(LoanError::ExceedsMaxLoans));
        }
        if let Err(refusal) = self.make_room(p, len)? {
            return Ok(Err(refusal));
        }
        let Some(publisher) = self.publishers.get_mut(p) else {
            return Err(ModelError::NoRule);
        };
        publisher.loans.push(message)?;
        let segment = publisher.segments.made;
        self.segments.push(segment)?;
        // At once, so that a length that no memory holds is refused before any cell is made.
        let mut cells = Vec::with_capacity(self.alloc, len)?;
        for _ in 0..len {
            cells.push(cell)?;
        }
        self.loans.push(Some(Loan {
            publisher: p,
            user_header: 0,
            cells,
            is_written: cell.is_some(),
        }))?;
        self.entries.push(None)?;
        Ok(Ok(message))
    }

    // A loan of a single value with this in its cell is asked for.
    pub(crate) fn loan_value(
        &mut self,
        of: usize,
        cell: Option<u64>,
    ) -> Result<Outcome, ModelError> {
        self.loan_of(self.lender_at(of, TypeVariant::FixedSize), 1, cell)
    }

    // A loan of a slice of that length is asked for.
    pub(crate) fn loan_slice(&mut self, of: usize, len: usize) -> Result<Outcome, ModelError> {
        self.loan_of(self.lender_at(of, TypeVariant::Dynamic), len, None)
    }

    fn loan_of(
        &mut self,
        lender: Option<usize>,
        len: usize,
        cell: Option<u64>,
    ) -> Result<Outcome, ModelError> {
        let Some(p) = lender else {
            return Ok((Reply::Skipped, Thing::Nothing));
        };
        match self.grant_loan(p, len, cell)? {
            Err(refusal) => Ok((Reply::LoanRefused(refusal), Thing::Nothing)),
            Ok(message) => Ok((Reply::Loaned, Thing::Loan(message))),
        }
    }

    // A loan with this value is asked for and sent.
    pub(crate) fn send_copy(&mut self, of: usize, value: u64) -> Result<Outcome, ModelError> {
        let Some(p) = self.lender_at(of, TypeVariant::FixedSize) else {
            return Ok((Reply::Skipped, Thing::Nothing));
        };
        match self.grant_loan(p, 1, Some(value))? {
            Err(refusal) => {
                let reply = Reply::SendRefused(SendError::LoanError(refusal));
                Ok((reply, Thing::Nothing))
            }
            Ok(message) => self.send(message),
        }
    }

    // The loan is out no more.
    pub(crate) fn return_loan(&mut self, p: usize, message: usize) {
        if let Some(publisher) = self.publishers.get_mut(p) {
            publisher.loans.retain(|other| *other != message);
        }
    }

    pub(crate) fn discard(&mut self, of: usize) -> Reply<u64, u64> {
        let Some(message) = self.any_loan_at(of) else {
            return Reply::Skipped;
        };
        if let Some(loan) = self.loans.take(message) {
            self.return_loan(loan.publisher, message);
        }
        Reply::Done
    }

    // ---- a loan is changed

    // The loan that is a written one, or that isn't.
    fn loan_at_mut(&mut self, of: usize, is_written: bool) -> Option<&mut Loan> {
        let Some(message) = self.loan_at(of, is_written) else {
            return None;
        };
        self.loans.get_mut(message)
    }

    // Each cell of a loan is written, and it is a written one from now on.
    pub(crate) fn write_all(&mut self, of: usize, value: u64) -> Reply<u64, u64> {
        let Some(loan) = self.loan_at_mut(of, false) else {
            return Reply::Skipped;
        };
        for at in 0..loan.cells.len() {
            if let Some(cell) = loan.cells.get_mut(at) {
                *cell = Some(value);
            }
        }
        loan.is_written = true;
        Reply::Done
    }

    // One cell of a loan is written, where it has one there. It is a written one or not, and stays so.
    pub(crate) fn write_cell(
        &mut self,
        of: usize,
        at: usize,
        value: u64,
        is_written: bool,
    ) -> Reply<u64, u64> {
        let Some(loan) = self.loan_at_mut(of, is_written) else {
            return Reply::Skipped;
        };
        match loan.cells.get_mut(at) {
            None => Reply::Skipped,
            Some(cell) => {
                *cell = Some(value);
                Reply::Done
            }
        }
    }

    pub(crate) fn write_header(&mut self, of: usize, value: u64) -> Reply<u64, u64> {
        let Some(message) = self.any_loan_at(of) else {
            return Reply::Skipped;
        };
        if let Some(loan) = self.loans.get_mut(message) {
            loan.user_header = value;
        }
        Reply::Done
    }

    // A loan whose cells are all written is a written one from now on.
    pub(crate) fn assume_init(&mut self, of: usize) -> Reply<u64, u64> {
        let Some(loan) = self.loan_at_mut(of, false) else {
            return Reply::Skipped;
        };
        if loan.cells.as_slice().contains(&None) {
            return Reply::Unwritten;
        }
        loan.is_written = true;
        Reply::Done
    }
}
