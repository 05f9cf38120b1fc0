//! The user header of a loan of a slice is changed in place.
ghost use Rattle.std.specs.Prelude.{◌≡◌};

use crate::domain::Domain;
use crate::slice::SampleMut;
use iox2_machine::{BackpressureFn, DegradationFn};

impl SampleMut {
    ghost use Rattle.std.specs.Prelude.{Some, List};
    ghost use Rattle.std.specs.Borrow.{sem};
    ghost use Rattle.iox2_machine.specs.declared.header.Header.{Header};
    ghost use Rattle.iox2_machine.specs.machine.Records.{Loan};
    ghost use Rattle.iox2_machine.specs.machine.State.{State, Messages, with_loan};
    ghost use Rattle.iox2_domain.specs.LoanCalls.{user_header_changed};
    ghost use Rattle.iox2_domain.specs.Shows.{Shows};
    ghost use Rattle.iox2_pubsub.specs.ChangedLoans.{with_user_header_left};
    ghost use Rattle.iox2_pubsub.specs.Live.{IsWritten, IsWrittenLoan, LoanHasHeader, LoanHasUserHeader, NeverWaits, written_key, written_loan};
    ghost use Rattle.iox2_pubsub.specs.Leaves.{LeavesBut};
    ghost use Rattle.iox2_pubsub.specs.LoanLends.{LendsUserHeader};
    ghost use Rattle.iox2_pubsub.specs.Slices.{HasValues};
    ghost use Rattle.iox2_pubsub.specs.Handles.{as_written, written_number};

    /// The user header, to be changed where it lies. What is left behind the reference is the loan's
    /// user header from then on, and nothing else of the domain changes.
    ///
    /// iceoryx2's `SampleMut::user_header_mut` (`src/sample_mut.rs`).
    pub fn user_header_mut<'a, T: Drop, U: Default + Drop, F: BackpressureFn, G: DegradationFn>(
        domain: &'a mut Domain<T, U, F, G>,
        sample: &mut SampleMut,
    ) -> &'a mut U
        requires live { IsWritten domain.old (as_written sample.old) }
        ensures* writes_back { sem 𝓛 (LendsUserHeader T.row U.row F.row G.row domain.entry (written_number (as_written sample.old)) result) }
        ensures same { sample.new ≡ sample.old }
        ensures user_header { LoanHasUserHeader domain.old (written_key (as_written sample.old)) result.now }
        ensures changes { (m : Messages T U) (s : State T U) (user_header : U) → Shows domain.old m s
            → (l : Loan T U) × (s.loans (written_number (as_written sample.old)) ≡ Some l)
            × Shows (with_user_header_left domain.old (written_number (as_written sample.old)) user_header) m
            (with_loan s (written_number (as_written sample.old)) (Some (user_header_changed user_header l))) }
        ensures out { (user_header : U) → IsWritten
            (with_user_header_left domain.old (written_number (as_written sample.old)) user_header)
            (as_written sample.old) }
        ensures live { NeverWaits domain.old (written_key (as_written sample.old)) → (user_header : U)
            → IsWrittenLoan (with_user_header_left domain.old (written_number (as_written sample.old)) user_header)
            (as_written sample.old) }
        ensures is { (user_header : U) → LoanHasUserHeader
            (with_user_header_left domain.old (written_number (as_written sample.old)) user_header)
            (written_key (as_written sample.old)) user_header }
        ensures reads { (user_header : U) (values : List T) → HasValues domain.old (written_number (as_written sample.old)) values
            → HasValues (with_user_header_left domain.old (written_number (as_written sample.old)) user_header)
            (written_number (as_written sample.old)) values }
        ensures header { (user_header : U) (header : Header) → LoanHasHeader domain.old (written_key (as_written sample.old)) header
            → LoanHasHeader (with_user_header_left domain.old (written_number (as_written sample.old)) user_header)
            (written_key (as_written sample.new)) header }
        ensures leaves { (user_header : U) → LeavesBut (written_loan (as_written sample.old)) domain.old
            (with_user_header_left domain.old (written_number (as_written sample.old)) user_header) }
    {
        crate::SampleMut::user_header_mut(domain, &mut sample.sample)
    }
}
