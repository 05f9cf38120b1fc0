//! The payload of a written loan is changed in place.
ghost use Rattle.std.specs.Prelude.{◌≡◌};

use crate::domain::Domain;
use crate::sample_mut::SampleMut;
use iox2_machine::{BackpressureFn, DegradationFn};
use iox2_messages::{find_live_loan, value_at_mut};

impl SampleMut {
    ghost use Rattle.std.specs.Prelude.{Some};
    ghost use Rattle.std.specs.Borrow.{sem};
    ghost use Rattle.iox2_machine.specs.declared.header.Header.{Header};
    ghost use Rattle.iox2_machine.specs.machine.Records.{Loan};
    ghost use Rattle.iox2_machine.specs.machine.State.{State, Messages, with_loan};
    ghost use Rattle.iox2_domain.specs.Shows.{Shows};
    ghost use Rattle.iox2_domain.specs.LoanCalls.{first_cell_changed};
    ghost use Rattle.iox2_pubsub.specs.ChangedLoans.{with_payload};
    ghost use Rattle.iox2_pubsub.specs.Live.{IsSingleValued, IsWritten, IsWrittenLoan, LoanHasHeader};
    ghost use Rattle.iox2_pubsub.specs.Live.{LoanHasUserHeader, LoanReads, NeverWaits, written_key, written_loan};
    ghost use Rattle.iox2_pubsub.specs.Leaves.{LeavesBut};
    ghost use Rattle.iox2_pubsub.specs.LoanLends.{LendsPayload};
    ghost use Rattle.iox2_pubsub.specs.Handles.{written_number};

    /// The payload, in a domain of single values, to be changed where it lies. What is left behind
    /// the reference is the loan's payload from then on, and nothing else of the domain changes.
    ///
    /// iceoryx2's `SampleMut::payload_mut` (`src/sample_mut.rs`). There the loan knows its memory;
    /// here the domain is handed in, and is what the reference borrows. It comes first, and the loan
    /// second (docs/DECISIONS.md, "`payload_mut` and `user_header_mut` take the domain first").
    pub fn payload_mut<'a, T: Drop, U: Default + Drop, F: BackpressureFn, G: DegradationFn>(
        domain: &'a mut Domain<T, U, F, G>,
        sample: &mut SampleMut,
    ) -> &'a mut T
        requires live { IsWritten domain.old sample.old }
        requires single_valued { IsSingleValued domain.old }
        ensures* writes_back { sem 𝓛 (LendsPayload T.row U.row F.row G.row domain.entry (written_number sample.old) result) }
        ensures same { sample.new ≡ sample.old }
        ensures payload { LoanReads domain.old sample.old result.now }
        ensures changes { (m : Messages T U) (s : State T U) (value : T) → Shows domain.old m s
            → (l : Loan T U) × (s.loans (written_number sample.old) ≡ Some l)
            × Shows (with_payload domain.old (written_number sample.old) value) m
            (with_loan s (written_number sample.old) (Some (first_cell_changed (Some value) l))) }
        ensures out { (value : T) → IsWritten (with_payload domain.old (written_number sample.old) value) sample.old }
        ensures live { NeverWaits domain.old (written_key sample.old) → (value : T)
            → IsWrittenLoan (with_payload domain.old (written_number sample.old) value) sample.old }
        ensures reads { (value : T) → LoanReads (with_payload domain.old (written_number sample.old) value) sample.old value }
        ensures header { (value : T) (header : Header) → LoanHasHeader domain.old (written_key sample.old) header
            → LoanHasHeader (with_payload domain.old (written_number sample.old) value) (written_key sample.new) header }
        ensures user_header { (value : T) (header : U) → LoanHasUserHeader domain.old (written_key sample.old) header
            → LoanHasUserHeader (with_payload domain.old (written_number sample.old) value) (written_key sample.new) header }
        ensures leaves { (value : T) → LeavesBut (written_loan sample.old) domain.old (with_payload domain.old (written_number sample.old) value) }
    {
        let at = find_live_loan(&domain.state, &sample.loan);
        value_at_mut(&mut domain.state, at)
    }
}
