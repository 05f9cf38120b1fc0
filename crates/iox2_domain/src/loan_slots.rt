//! The slots that loans are in.
ghost use Rattle.std.specs.Prelude.{IsTrue, ◌≡◌, ◌↔◌, MatchOption};
ghost use Rattle.iox2_domain.specs.Invariant.{is_lent};
ghost use Rattle.iox2_domain.specs.LoanSlots.{IsLoanSlot, IsInNoSlot, HasNoLoan};

use crate::message_slots::MessageSlot;
use crate::state::DomainState;
use iox2_machine::UniquePublisherId;
use iox2_slots::{SlotBook, SlotMark};

/// Names a loan, and says where it is looked for first.
#[derive(Drop)]
pub struct LoanAt {
    /// The publisher that lent it.
    pub publisher: UniquePublisherId,
    /// The number of its message.
    pub number: u128,
    /// The place at which its publisher is looked for first.
    pub place: usize,
    /// The key of the book in which it is looked for first.
    pub book: usize,
    /// The slot in which it is looked for first.
    pub slot: usize,
}

impl<T: Drop, U: Default + Drop> DomainState<T, U> {
    ghost use Rattle.iox2_machine.specs.machine.SingleCalls.{HoldsLoan};
    ghost use Rattle.iox2_domain.specs.Kept.{state_of};
    ghost use Rattle.iox2_domain.specs.Fields.{kept_of};
    ghost use Rattle.iox2_domain.specs.Invariant.{IsDomain};
    ghost use Rattle.iox2_domain.specs.LoanSlots.{LendsAt, LiesInSlot};

    /// Where a publisher's loan is, and `None` if it isn't out.
    pub fn find_loan(&self, publisher: UniquePublisherId, number: u128) -> Option<MessageSlot>
        requires { IsDomain self.now }
        ensures { MatchOption result (HoldsLoan (state_of (kept_of self.now)) publisher number → ⊥)
            (λ at. LiesInSlot self.now publisher number at.book at.slot) }
    {
        let Some(place) = self.find_publisher(publisher, 0) else {
            return self.find_left_loan(publisher, number);
        };
        let lender = self.publishers[place].as_ref()?;
        let book = &self.books[lender.book];
        let slot = find_slot(book, &lender.loans, number)?;
        Some(MessageSlot {
            book: lender.book,
            slot,
        })
    }

    // The same, whether the publisher is still there or gone. Every book is gone through.
    #[inline(never)]
    fn find_left_loan(&self, publisher: UniquePublisherId, number: u128) -> Option<MessageSlot>
        requires { IsDomain self.now }
        ensures { MatchOption result (HoldsLoan (state_of (kept_of self.now)) publisher number → ⊥)
            (λ at. LiesInSlot self.now publisher number at.book at.slot) }
    {
        for key in 0..self.books.capacity() {
            let found = self.find_loan_in(key, publisher, number);
            if found.is_some() {
                return found;
            }
        }
        None
    }

    // Where the publisher's loan is in the book at the key, if that is the publisher's and has it.
    fn find_loan_in(
        &self,
        key: usize,
        publisher: UniquePublisherId,
        number: u128,
    ) -> Option<MessageSlot>
        requires { IsDomain self.now }
        ensures { MatchOption result (LendsAt self.now key publisher number → ⊥) (λ at. LiesInSlot self.now publisher number at.book at.slot) }
    {
        let book = self.books.get(key)?;
        if book.publisher() != publisher {
            return None;
        }
        let slot = find_loan_slot(book, number)?;
        Some(MessageSlot { book: key, slot })
    }

    /// Where a publisher's live loan is. Its publisher's loans are gone through.
    #[inline(never)]
    pub fn search_loan(&self, publisher: UniquePublisherId, number: u128) -> MessageSlot
        requires domain { IsDomain self.now }
        requires live { HoldsLoan (state_of (kept_of self.now)) publisher number }
        ensures { LiesInSlot self.now publisher number result.book result.slot }
    {
        let Some(at) = self.find_loan(publisher, number) else {
            unreachable!()
        };
        at
    }

    /// Whether the publisher's loan of the message with this number is out.
    pub fn has_loan(&self, publisher: UniquePublisherId, number: u128) -> bool
        requires { IsDomain self.now }
        ensures { IsTrue result ↔ HoldsLoan (state_of (kept_of self.now)) publisher number }
    {
        self.find_loan(publisher, number).is_some()
    }
}

// The slot with the loan that has this number, among the slots of loans.
fn find_slot(book: &SlotBook, loans: &[usize], number: u128) -> Option<usize>
    ensures { MatchOption result (IsInNoSlot book.now loans.now number) (λ slot. IsLoanSlot book.now slot number) }
{
    for index in 0..loans.len() {
        let slot = loans[index];
        if is_loan_slot(book, slot, number) {
            return Some(slot);
        }
    }
    None
}

// The slot of the book with the loan that has this number.
fn find_loan_slot(book: &SlotBook, number: u128) -> Option<usize>
    ensures { MatchOption result (HasNoLoan book.now number) (λ slot. IsLoanSlot book.now slot number) }
{
    for slot in 0..book.len() {
        if is_loan_slot(book, slot, number) {
            return Some(slot);
        }
    }
    None
}

/// Whether a loan with this number is in the slot.
pub fn is_loan_slot(book: &SlotBook, slot: usize, number: u128) -> bool
    ensures { IsTrue result ↔ IsLoanSlot book.now slot number }
{
    if slot >= book.len() {
        return false;
    }
    book.holders(slot) > 0 && is_lent(book.mark(slot)) && book.number(slot) == number
}

fn is_lent(mark: SlotMark) -> bool
    ensures { result ≡ is_lent mark }
{
    matches!(mark, SlotMark::Unwritten | SlotMark::Written)
}
