//! A loan and a blocked send as numbers.
ghost use Rattle.std.specs.Prelude.{◌↔◌, ◌≡◌, IfNone, IfSome, IsTrue, false, true};

use crate::blocked_send::BlockedSend;
use crate::domain::Domain;
use crate::parts::LoanParts;
use crate::parts::hints::find_marked;
use crate::sample_mut::SampleMut;
use crate::sample_mut_uninit::SampleMutUninit;
use iox2_domain::LoanAt;
use iox2_machine::{BackpressureFn, DegradationFn, Key, UniquePublisherId};

impl LoanParts {
    // The numbers of a handle's private part.
    pub(crate) fn of(service_id: u128, loan: LoanAt) -> LoanParts
        ensures { result ≡ record {
          service_id = service_id;
          publisher = loan.publisher;
          number = loan.number;
          place =
              loan.place;
          book = loan.book;
          slot = loan.slot;
        } }
    {
        LoanParts {
            service_id,
            publisher: loan.publisher.value(),
            number: loan.number,
            place: loan.place,
            book: loan.book,
            slot: loan.slot,
        }
    }

    // The private part of a handle with these numbers.
    pub(crate) fn loan(&self) -> LoanAt
        ensures { result ≡ record {
          publisher = self.now.publisher;
          number = self.now.number;
          place = self.now.place;
          book = self.now.book;
          slot = self.now.slot;
        } }
    {
        LoanAt {
            publisher: UniquePublisherId::new(self.publisher),
            number: self.number,
            place: self.place,
            book: self.book,
            slot: self.slot,
        }
    }
}

impl SampleMutUninit {
    ghost use Rattle.iox2_pubsub.specs.Parts.{unwritten_parts};

    /// The loan's numbers. Consumes its handle; the loan is still out. This library's own.
    pub fn into_parts(self) -> LoanParts
        ensures { result ≡ unwritten_parts self }
    {
        let SampleMutUninit { service_id, loan } = self;
        LoanParts::of(service_id, loan)
    }
}

impl SampleMut {
    ghost use Rattle.iox2_pubsub.specs.Parts.{written_parts};

    /// The loan's numbers. Consumes its handle; the loan is still out. This library's own.
    pub fn into_parts(self) -> LoanParts
        ensures { result ≡ written_parts self }
    {
        let SampleMut { service_id, loan } = self;
        LoanParts::of(service_id, loan)
    }
}

impl<T: Drop, U: Default + Drop, F: BackpressureFn, G: DegradationFn> Domain<T, U, F, G> {
    ghost use Rattle.iox2_pubsub.specs.Live.{HasMark, IsLoanKey, IsPlaced, IsUnwritten, IsWritten};
    ghost use Rattle.iox2_pubsub.specs.Parts.{loan_named, unwritten_parts, written_parts};

    // The private part of a handle of the loan of this domain with these numbers that is out, and is
    // written as `wants_written` says. Its book and slot are those in which it lies.
    #[inline(always)]
    #[tactic(auto, unfolding(crate::specs::Live::IsLoanKey))]
    fn marked_of(&self, parts: &LoanParts, wants_written: bool) -> Option<LoanAt>
        ensures out { IfSome result (λ loan. IsLoanKey self.now (loan_named parts.now) × HasMark self.now (parts.now).number wants_written) }
        ensures placed { IfSome result (λ loan. IsPlaced self.now (parts.now).number loan.book loan.slot) }
        ensures named { IfSome result (λ loan. loan
            ≡ record {
              publisher = parts.now.publisher;
              number = parts.now.number;
              place = parts.now.place;
              book =
                  loan.book;
              slot = loan.slot;
            }) }
        ensures none { IfNone result (IsLoanKey self.now (loan_named parts.now) → HasMark self.now (parts.now).number wants_written → ⊥) }
    {
        if parts.service_id != self.state.config().service_id {
            return None;
        }
        let Some(at) = find_marked(&self.state, &parts.loan(), wants_written) else {
            return None;
        };
        Some(LoanAt {
            book: at.book,
            slot: at.slot,
            ..parts.loan()
        })
    }

    /// A handle of the written loan with these numbers, and `None` if this domain has none that
    /// is out and written. This library's own.
    ///
    /// The service, the publisher and the message's number decide which loan it is. Where it lies
    /// (`book` and `slot`) is a hint: the domain looks there first, and puts into the handle where it
    /// found the loan. So numbers with another place give the same loan, and the handle's numbers are
    /// theirs but for `book` and `slot`.
    #[inline(always)]
    pub fn written_of(&self, parts: &LoanParts) -> Option<SampleMut>
        ensures out { IfSome result (λ loan. IsWritten self.now loan) }
        ensures named { IfSome result (λ loan. record (written_parts loan) { book = parts.now.book; slot = parts.now.slot } ≡ parts.now) }
        ensures none { IfNone result (IsLoanKey self.now (loan_named parts.now) → HasMark self.now (parts.now).number true → ⊥) }
    {
        let Some(loan) = self.marked_of(parts, true) else {
            return None;
        };
        Some(SampleMut {
            service_id: parts.service_id,
            loan,
        })
    }

    /// A handle of the unwritten loan with these numbers, and `None` if this domain has none that
    /// is out and not written. This library's own.
    ///
    /// The service, the publisher and the message's number decide which loan it is. Where it lies
    /// (`book` and `slot`) is a hint: the domain looks there first, and puts into the handle where it
    /// found the loan. So numbers with another place give the same loan, and the handle's numbers are
    /// theirs but for `book` and `slot`.
    pub fn unwritten_of(&self, parts: &LoanParts) -> Option<SampleMutUninit>
        ensures out { IfSome result (λ loan. IsUnwritten self.now loan) }
        ensures named { IfSome result (λ loan. record (unwritten_parts loan) { book = parts.now.book; slot = parts.now.slot } ≡ parts.now) }
        ensures none { IfNone result (IsLoanKey self.now (loan_named parts.now) → HasMark self.now (parts.now).number false → ⊥) }
    {
        let Some(loan) = self.marked_of(parts, false) else {
            return None;
        };
        Some(SampleMutUninit {
            service_id: parts.service_id,
            loan,
        })
    }
}

impl BlockedSend {
    ghost use Rattle.iox2_pubsub.specs.Parts.{blocked_parts};

    /// The numbers of the blocked send. Consumes its handle; the send is still blocked. This
    /// library's own.
    pub fn into_parts(self) -> LoanParts
        ensures { result ≡ blocked_parts self }
    {
        let BlockedSend { service_id, loan } = self;
        LoanParts::of(service_id, loan)
    }
}

impl<T: Drop, U: Default + Drop, F: BackpressureFn, G: DegradationFn> Domain<T, U, F, G> {
    ghost use Rattle.iox2_pubsub.specs.Live.{IsBlockedKey, IsBlockedSend};
    ghost use Rattle.iox2_pubsub.specs.Parts.{blocked_parts, loan_named};

    /// A handle of the blocked send with these numbers, and `None` if this domain has none that
    /// is blocked. This library's own.
    pub fn blocked_of(&self, parts: &LoanParts) -> Option<BlockedSend>
        ensures live { IfSome result (λ blocked. IsBlockedSend self.now blocked) }
        ensures named { IfSome result (λ blocked. blocked_parts blocked ≡ parts.now) }
        ensures none { IfNone result (IsBlockedKey self.now (loan_named parts.now) → ⊥) }
    {
        let key = Key {
            service_id: parts.service_id,
            port: parts.publisher,
            message: parts.number,
        };
        if !self.holds_blocked(key) {
            return None;
        }
        Some(BlockedSend {
            service_id: parts.service_id,
            loan: parts.loan(),
        })
    }
}
