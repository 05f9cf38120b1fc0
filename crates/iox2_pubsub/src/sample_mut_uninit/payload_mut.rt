//! The cell of an unwritten loan is changed in place.
ghost use Rattle.std.specs.Prelude.{◌≡◌};

use crate::domain::Domain;
use crate::sample_mut_uninit::SampleMutUninit;
use iox2_machine::{BackpressureFn, DegradationFn};
use iox2_messages::{cell_at_mut, find_live_loan};

impl SampleMutUninit {
    ghost use Rattle.std.specs.Prelude.{Some, Option};
    ghost use Rattle.std.specs.Borrow.{sem};
    ghost use Rattle.iox2_machine.specs.declared.header.Header.{Header};
    ghost use Rattle.iox2_machine.specs.machine.Records.{Loan};
    ghost use Rattle.iox2_machine.specs.machine.State.{State, Messages, with_loan};
    ghost use Rattle.iox2_domain.specs.LoanCalls.{first_cell_changed};
    ghost use Rattle.iox2_domain.specs.Shows.{Shows};
    ghost use Rattle.iox2_pubsub.specs.ChangedLoans.{with_cell_left};
    ghost use Rattle.iox2_pubsub.specs.Live.{IsSingleValued, IsUnwritten, NeverWaitsUnwritten, LoanHasHeader};
    ghost use Rattle.iox2_pubsub.specs.Live.{LoanHasUserHeader, NeverWaits, UnwrittenReads, unwritten_key};
    ghost use Rattle.iox2_pubsub.specs.Live.{unwritten_loan};
    ghost use Rattle.iox2_pubsub.specs.Leaves.{LeavesBut};
    ghost use Rattle.iox2_pubsub.specs.LoanLends.{LendsCell};
    ghost use Rattle.iox2_pubsub.specs.Handles.{unwritten_number};

    /// The payload's cell, in a domain of single values, to be written, changed or emptied where it
    /// lies. What is left behind the reference is the loan's cell from then on, and nothing else of
    /// the domain changes. The loan stays an unwritten one until `assume_init`.
    ///
    /// iceoryx2's `SampleMutUninit::payload_mut` (`src/sample_mut_uninit.rs`). There the loan knows
    /// its memory; here the domain is handed in, and is what the reference borrows.
    pub fn payload_mut<'a, T: Drop, U: Default + Drop, F: BackpressureFn, G: DegradationFn>(
        domain: &'a mut Domain<T, U, F, G>,
        sample: &mut SampleMutUninit,
    ) -> &'a mut Option<T>
        requires live { IsUnwritten domain.old sample.old }
        requires single_valued { IsSingleValued domain.old }
        ensures* writes_back { sem 𝓛 (LendsCell T.row U.row F.row G.row domain.entry (unwritten_number sample.old) result) }
        ensures same { sample.new ≡ sample.old }
        ensures payload { UnwrittenReads domain.old sample.old result.now }
        ensures changes { (m : Messages T U) (s : State T U) (cell : Option T) → Shows domain.old m s
            → (l : Loan T U) × (s.loans (unwritten_number sample.old) ≡ Some l)
            × Shows (with_cell_left domain.old (unwritten_number sample.old) cell) m
            (with_loan s (unwritten_number sample.old) (Some (first_cell_changed cell l))) }
        ensures out { (cell : Option T) → IsUnwritten (with_cell_left domain.old (unwritten_number sample.old) cell) sample.old }
        ensures live { NeverWaits domain.old (unwritten_key sample.old) → (cell : Option T)
            → NeverWaitsUnwritten (with_cell_left domain.old (unwritten_number sample.old) cell) sample.old }
        ensures reads { (cell : Option T) → UnwrittenReads (with_cell_left domain.old (unwritten_number sample.old) cell) sample.old cell }
        ensures header { (cell : Option T) (header : Header) → LoanHasHeader domain.old (unwritten_key sample.old) header
            → LoanHasHeader (with_cell_left domain.old (unwritten_number sample.old) cell) (unwritten_key sample.new) header }
        ensures user_header { (cell : Option T) (header : U) → LoanHasUserHeader domain.old (unwritten_key sample.old) header
            → LoanHasUserHeader (with_cell_left domain.old (unwritten_number sample.old) cell) (unwritten_key sample.new) header }
        ensures leaves { (cell : Option T) → LeavesBut (unwritten_loan sample.old) domain.old (with_cell_left domain.old (unwritten_number sample.old) cell) }
    {
        let at = find_live_loan(&domain.state, &sample.loan);
        cell_at_mut(&mut domain.state, at)
    }
}
