//! Where a loan lies that is named by its number alone. The slot that its handle names is tested first.
ghost use Rattle.std.specs.Prelude.{IsTrue};
ghost use Rattle.iox2_machine.specs.machine.SingleCalls.{HoldsLoan};
ghost use Rattle.iox2_domain.specs.Kept.{state_of};
ghost use Rattle.iox2_domain.specs.Fields.{kept_of};
ghost use Rattle.iox2_domain.specs.Invariant.{IsDomain};
ghost use Rattle.iox2_domain.specs.LoanSlots.{LiesInSlot};

use iox2_domain::{DomainState, LoanAt, MessageSlot};

/// Whether a live loan lies in the book and the slot that it names. No loan is gone through: no
/// other slot in use has its number.
fn is_loan_at_hint<T: Drop, U: Default + Drop>(state: &DomainState<T, U>, loan: &LoanAt) -> bool
    requires domain { IsDomain state.now }
    requires live { HoldsLoan (state_of (kept_of state.now)) loan.now.publisher loan.now.number }
    ensures { IsTrue result → LiesInSlot state.now loan.now.publisher loan.now.number loan.now.book loan.now.slot }
{
    match state.books.get(loan.book) {
        Some(book) => book.has(loan.slot, loan.number),
        None => false,
    }
}

/// Where a loan lies that is live. Its book and its slot are tested first, by the number alone.
pub fn find_live_loan<T: Drop, U: Default + Drop>(
    state: &DomainState<T, U>,
    loan: &LoanAt,
) -> MessageSlot
    requires domain { IsDomain state.now }
    requires live { HoldsLoan (state_of (kept_of state.now)) loan.now.publisher loan.now.number }
    ensures { LiesInSlot state.now loan.now.publisher loan.now.number result.book result.slot }
{
    if is_loan_at_hint(state, loan) {
        return MessageSlot {
            book: loan.book,
            slot: loan.slot,
        };
    }
    state.search_loan(loan.publisher, loan.number)
}
