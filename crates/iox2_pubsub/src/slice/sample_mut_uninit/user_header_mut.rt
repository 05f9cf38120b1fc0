//! The user header of a loan of a slice is changed in place.
ghost use Rattle.std.specs.Prelude.{◌≡◌};

use crate::domain::Domain;
use crate::slice::SampleMutUninit;
use iox2_machine::{BackpressureFn, DegradationFn};

impl SampleMutUninit {
    ghost use Rattle.std.specs.Prelude.{Some, Option, List};
    ghost use Rattle.std.specs.Borrow.{sem};
    ghost use Rattle.iox2_machine.specs.declared.header.Header.{Header};
    ghost use Rattle.iox2_machine.specs.machine.Records.{Loan};
    ghost use Rattle.iox2_machine.specs.machine.State.{State, Messages, with_loan};
    ghost use Rattle.iox2_domain.specs.LoanCalls.{user_header_changed};
    ghost use Rattle.iox2_domain.specs.Shows.{Shows};
    ghost use Rattle.iox2_pubsub.specs.ChangedLoans.{with_user_header_left};
    ghost use Rattle.iox2_pubsub.specs.Live.{IsUnwritten, NeverWaitsUnwritten, LoanHasHeader, LoanHasUserHeader, NeverWaits, unwritten_key, unwritten_loan};
    ghost use Rattle.iox2_pubsub.specs.Leaves.{LeavesBut};
    ghost use Rattle.iox2_pubsub.specs.LoanLends.{LendsUserHeader};
    ghost use Rattle.iox2_pubsub.specs.Slices.{HasUnwrittenCells};
    ghost use Rattle.iox2_pubsub.specs.Handles.{as_unwritten, unwritten_number};

    /// The user header, to be changed where it lies. What is left behind the reference is the loan's
    /// user header from then on, and nothing else of the domain changes.
    ///
    /// iceoryx2's `SampleMutUninit::user_header_mut` (`src/sample_mut_uninit.rs`).
    pub fn user_header_mut<'a, T: Drop, U: Default + Drop, F: BackpressureFn, G: DegradationFn>(
        domain: &'a mut Domain<T, U, F, G>,
        sample: &mut SampleMutUninit,
    ) -> &'a mut U
        requires live { IsUnwritten domain.old (as_unwritten sample.old) }
        ensures* writes_back { sem 𝓛 (LendsUserHeader T.row U.row F.row G.row domain.entry (unwritten_number (as_unwritten sample.old)) result) }
        ensures same { sample.new ≡ sample.old }
        ensures user_header { LoanHasUserHeader domain.old (unwritten_key (as_unwritten sample.old)) result.now }
        ensures changes { (m : Messages T U) (s : State T U) (user_header : U) → Shows domain.old m s
            → (l : Loan T U) × (s.loans (unwritten_number (as_unwritten sample.old)) ≡ Some l)
            × Shows (with_user_header_left domain.old (unwritten_number (as_unwritten sample.old)) user_header) m
            (with_loan s (unwritten_number (as_unwritten sample.old)) (Some (user_header_changed user_header l))) }
        ensures out { (user_header : U) → IsUnwritten
            (with_user_header_left domain.old (unwritten_number (as_unwritten sample.old)) user_header)
            (as_unwritten sample.old) }
        ensures live { NeverWaits domain.old (unwritten_key (as_unwritten sample.old)) → (user_header : U)
            → NeverWaitsUnwritten (with_user_header_left domain.old (unwritten_number (as_unwritten sample.old))
            user_header) (as_unwritten sample.old) }
        ensures is { (user_header : U) → LoanHasUserHeader
            (with_user_header_left domain.old (unwritten_number (as_unwritten sample.old)) user_header)
            (unwritten_key (as_unwritten sample.old)) user_header }
        ensures reads { (user_header : U) (cells : List (Option T)) → HasUnwrittenCells domain.old (unwritten_number (as_unwritten sample.old)) cells
            → HasUnwrittenCells (with_user_header_left domain.old (unwritten_number (as_unwritten sample.old))
            user_header) (unwritten_number (as_unwritten sample.old)) cells }
        ensures header { (user_header : U) (header : Header) → LoanHasHeader domain.old (unwritten_key (as_unwritten sample.old)) header
            → LoanHasHeader (with_user_header_left domain.old (unwritten_number (as_unwritten sample.old))
            user_header) (unwritten_key (as_unwritten sample.new)) header }
        ensures leaves { (user_header : U) → LeavesBut (unwritten_loan (as_unwritten sample.old)) domain.old
            (with_user_header_left domain.old (unwritten_number (as_unwritten sample.old)) user_header) }
    {
        crate::SampleMutUninit::user_header_mut(domain, &mut sample.sample)
    }
}
