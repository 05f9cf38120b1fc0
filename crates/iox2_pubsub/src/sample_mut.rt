//! A loan that is written.
ghost use Rattle.std.specs.Prelude.{◌≡◌};

mod connection;
mod discard;
mod payload_mut;
pub(crate) mod send;
mod user_header_mut;

use crate::domain::Domain;
use crate::keys::loan_key;
use iox2_domain::LoanAt;
use iox2_machine::{BackpressureFn, DegradationFn, Header, Key};
use iox2_messages::{is_waiting, loan_header, loan_user_header, loan_value};

/// A loan whose payload is written. Must be consumed by `send` or `discard`; until then the
/// domain keeps the loan.
///
/// Example (`crates/thermometer/src/correction.rt`):
///
/// ```rust
/// let mut message = loan.write_payload(domain, Reading { celsius });
/// *SampleMut::payload_mut(domain, &mut message) = Reading { celsius: corrected };
/// message.send(domain)?.delivered();
/// Ok(())
/// ```
///
/// iceoryx2's `sample_mut::SampleMut` (`src/sample_mut.rs`).
pub struct SampleMut {
    pub(crate) service_id: u128,
    pub(crate) loan: LoanAt,
}

impl SampleMut {
    ghost use Rattle.std.specs.Prelude.{Some, false, ◌↔◌};
    ghost use Rattle.iox2_machine.specs.machine.State.{State, Messages};
    ghost use Rattle.iox2_pubsub.specs.Live.{IsLoanKey, IsSingleValued, IsUnblocked, IsWritten, LoanHasHeader, LoanHasUserHeader, LoanReads, written_key};
    ghost use Rattle.iox2_domain.specs.LoanCalls.{HasCell, HasLoanHeader, HasLoanUserHeader};
    ghost use Rattle.iox2_domain.specs.Shows.{Shows};
    ghost use Rattle.iox2_pubsub.specs.Handles.{written_lender, written_number};

    /// The payload, in a domain of single values.
    ///
    /// iceoryx2's `SampleMut::payload` (`src/sample_mut.rs`).
    pub fn payload<'a, T: Drop, U: Default + Drop, F: BackpressureFn, G: DegradationFn>(
        &self,
        domain: &'a Domain<T, U, F, G>,
    ) -> &'a T
        requires live { IsWritten domain.now self.now }
        requires single_valued { IsSingleValued domain.now }
        ensures cell { (m : Messages T U) (s : State T U) → Shows domain.now m s → HasCell s (written_number self.now) (Some result.now) }
        ensures reads { LoanReads domain.now self.now result.now }
        ensures same { (value : T) → LoanReads domain.now self.now value → result.now ≡ value }
    {
        loan_value(&domain.state, &self.loan)
    }

    /// Where the message comes from, and of how many elements it is.
    ///
    /// iceoryx2's `SampleMut::header` (`src/sample_mut.rs`).
    pub fn header<'a, T: Drop, U: Default + Drop, F: BackpressureFn, G: DegradationFn>(
        &self,
        domain: &'a Domain<T, U, F, G>,
    ) -> &'a Header
        requires live { IsLoanKey domain.now (written_key self.now) }
        ensures header { (m : Messages T U) (s : State T U) → Shows domain.now m s → HasLoanHeader s (written_number self.now) result.now }
        ensures origin { (result.now).publisher_id ≡ written_lender self.now }
        ensures reads { LoanHasHeader domain.now (written_key self.now) result.now }
        ensures same { (header : Header) → LoanHasHeader domain.now (written_key self.now) header → result.now ≡ header }
    {
        loan_header(&domain.state, &self.loan)
    }

    /// The user header.
    ///
    /// iceoryx2's `SampleMut::user_header` (`src/sample_mut.rs`).
    pub fn user_header<'a, T: Drop, U: Default + Drop, F: BackpressureFn, G: DegradationFn>(
        &self,
        domain: &'a Domain<T, U, F, G>,
    ) -> &'a U
        requires live { IsLoanKey domain.now (written_key self.now) }
        ensures header { (m : Messages T U) (s : State T U) → Shows domain.now m s → HasLoanUserHeader s (written_number self.now) result.now }
        ensures reads { LoanHasUserHeader domain.now (written_key self.now) result.now }
        ensures same { (header : U) → LoanHasUserHeader domain.now (written_key self.now) header → result.now ≡ header }
    {
        loan_user_header(&domain.state, &self.loan)
    }

    /// Whether a send of its publisher is blocked, as is none of a closed one. Until that has ended,
    /// the loan can't be sent. This library's own.
    pub fn is_blocked<T: Drop, U: Default + Drop, F: BackpressureFn, G: DegradationFn>(
        &self,
        domain: &Domain<T, U, F, G>,
    ) -> bool
        requires live { IsLoanKey domain.now (written_key self.now) }
        ensures { (result ≡ false) ↔ IsUnblocked domain.now (written_key self.now) }
    {
        is_waiting(&domain.state, self.loan.publisher, self.loan.place)
    }

    /// Names the loan without being its handle. This library's own.
    pub fn key(&self) -> Key
        ensures { result ≡ written_key self.now }
    {
        loan_key(self.service_id, &self.loan)
    }

    /// Consumes the handle of a loan whose domain is gone. A domain that is still there isn't told,
    /// and keeps the loan. This library's own.
    pub fn disown(self) {
        self.into_parts();
    }
}
