//! A loan that isn't written.
ghost use Rattle.std.specs.Prelude.{◌≡◌};

mod assume_init;
mod discard;
mod payload_mut;
mod user_header_mut;
mod write_payload;

use crate::domain::Domain;
use crate::keys::loan_key;
use iox2_domain::LoanAt;
use iox2_machine::{BackpressureFn, DegradationFn, Header, Key};
use iox2_messages::{loan_cell, loan_header, loan_user_header};

/// A loan whose payload isn't written. Must be consumed by a write or by `discard`; until
/// its message was sent or discarded the domain keeps the loan.
///
/// Example (`crates/thermometer/src/report.rt`):
///
/// ```rust
/// let message = loan.write_payload(domain, Reading { celsius });
/// message.send(domain)?.delivered();
/// ```
///
/// iceoryx2's `sample_mut_uninit::SampleMutUninit` (`src/sample_mut_uninit.rs`).
pub struct SampleMutUninit {
    pub(crate) service_id: u128,
    pub(crate) loan: LoanAt,
}

impl SampleMutUninit {
    ghost use Rattle.std.specs.Prelude.{Option};
    ghost use Rattle.iox2_machine.specs.machine.State.{State, Messages};
    ghost use Rattle.iox2_pubsub.specs.Live.{IsLoanKey, IsSingleValued, IsUnwritten, LoanHasHeader, LoanHasUserHeader, UnwrittenReads, unwritten_key};
    ghost use Rattle.iox2_domain.specs.LoanCalls.{HasCell, HasLoanHeader, HasLoanUserHeader};
    ghost use Rattle.iox2_domain.specs.Shows.{Shows};
    ghost use Rattle.iox2_pubsub.specs.Handles.{unwritten_lender, unwritten_number};

    /// The payload, in a domain of single values, and `None` if it isn't written.
    ///
    /// iceoryx2's `SampleMutUninit::payload` (`src/sample_mut_uninit.rs`).
    pub fn payload<'a, T: Drop, U: Default + Drop, F: BackpressureFn, G: DegradationFn>(
        &self,
        domain: &'a Domain<T, U, F, G>,
    ) -> &'a Option<T>
        requires live { IsUnwritten domain.now self.now }
        requires single_valued { IsSingleValued domain.now }
        ensures cell { (m : Messages T U) (s : State T U) → Shows domain.now m s → HasCell s (unwritten_number self.now) result.now }
        ensures reads { UnwrittenReads domain.now self.now result.now }
        ensures same { (cell : Option T) → UnwrittenReads domain.now self.now cell → result.now ≡ cell }
    {
        loan_cell(&domain.state, &self.loan)
    }

    /// Where the message comes from, and of how many elements it is.
    ///
    /// iceoryx2's `SampleMutUninit::header` (`src/sample_mut_uninit.rs`).
    pub fn header<'a, T: Drop, U: Default + Drop, F: BackpressureFn, G: DegradationFn>(
        &self,
        domain: &'a Domain<T, U, F, G>,
    ) -> &'a Header
        requires live { IsLoanKey domain.now (unwritten_key self.now) }
        ensures header { (m : Messages T U) (s : State T U) → Shows domain.now m s → HasLoanHeader s (unwritten_number self.now) result.now }
        ensures origin { (result.now).publisher_id ≡ unwritten_lender self.now }
        ensures reads { LoanHasHeader domain.now (unwritten_key self.now) result.now }
        ensures same { (header : Header) → LoanHasHeader domain.now (unwritten_key self.now) header → result.now ≡ header }
    {
        loan_header(&domain.state, &self.loan)
    }

    /// The user header.
    ///
    /// iceoryx2's `SampleMutUninit::user_header` (`src/sample_mut_uninit.rs`).
    pub fn user_header<'a, T: Drop, U: Default + Drop, F: BackpressureFn, G: DegradationFn>(
        &self,
        domain: &'a Domain<T, U, F, G>,
    ) -> &'a U
        requires live { IsLoanKey domain.now (unwritten_key self.now) }
        ensures header { (m : Messages T U) (s : State T U) → Shows domain.now m s → HasLoanUserHeader s (unwritten_number self.now) result.now }
        ensures reads { LoanHasUserHeader domain.now (unwritten_key self.now) result.now }
        ensures same { (header : U) → LoanHasUserHeader domain.now (unwritten_key self.now) header → result.now ≡ header }
    {
        loan_user_header(&domain.state, &self.loan)
    }

    /// Names the loan without being its handle. This library's own.
    pub fn key(&self) -> Key
        ensures { result ≡ unwritten_key self.now }
    {
        loan_key(self.service_id, &self.loan)
    }

    /// Consumes the handle of a loan whose domain is gone. A domain that is still there isn't told,
    /// and keeps the loan. This library's own.
    pub fn disown(self) {
        self.into_parts();
    }
}
