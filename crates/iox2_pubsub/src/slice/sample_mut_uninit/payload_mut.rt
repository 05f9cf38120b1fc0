//! The payload of a loan of a slice is changed in place.
ghost use Rattle.std.specs.Prelude.{◌≡◌};

use crate::domain::Domain;
use crate::slice::SampleMutUninit;
use iox2_machine::{BackpressureFn, DegradationFn};
use iox2_messages::{cells_at_mut, find_live_loan};

impl SampleMutUninit {
    ghost use Rattle.std.specs.Prelude.{Some, Option, List, length};
    ghost use Rattle.std.specs.Borrow.{sem};
    ghost use Rattle.iox2_machine.specs.declared.header.Header.{Header};
    ghost use Rattle.iox2_machine.specs.machine.Records.{Loan};
    ghost use Rattle.iox2_machine.specs.machine.State.{State, Messages, with_loan};
    ghost use Rattle.iox2_domain.specs.LoanCalls.{cells_changed};
    ghost use Rattle.iox2_domain.specs.Shows.{Shows};
    ghost use Rattle.iox2_pubsub.specs.ChangedLoans.{with_cells_left};
    ghost use Rattle.iox2_pubsub.specs.Live.{IsUnwritten, NeverWaitsUnwritten, LoanHasHeader, LoanHasUserHeader, NeverWaits, unwritten_key, unwritten_loan};
    ghost use Rattle.iox2_pubsub.specs.Leaves.{LeavesBut};
    ghost use Rattle.iox2_pubsub.specs.LoanLends.{LendsCells};
    ghost use Rattle.iox2_pubsub.specs.Slices.{HasUnwrittenCells, IsSliced};
    ghost use Rattle.iox2_pubsub.specs.Handles.{as_unwritten, unwritten_number};

    /// The cells, to be written, changed or emptied where they lie. What is left behind the reference
    /// is in the loan's cells from then on, and nothing else of the domain changes. Cells are handed out
    /// where the settings say so (`ServiceConfig::lists_cells`), as they do by default.
    ///
    /// iceoryx2's `SampleMutUninit::payload_mut` (`src/sample_mut_uninit.rs`).
    pub fn payload_mut<'a, T: Drop, U: Default + Drop, F: BackpressureFn, G: DegradationFn>(
        domain: &'a mut Domain<T, U, F, G>,
        sample: &mut SampleMutUninit,
    ) -> &'a mut [Option<T>]
        requires live { IsUnwritten domain.old (as_unwritten sample.old) }
        requires sliced { IsSliced domain.old }
        ensures* writes_back { sem 𝓛 (LendsCells T.row U.row F.row G.row domain.entry (unwritten_number (as_unwritten sample.old)) result) }
        ensures same { sample.new ≡ sample.old }
        ensures payload { HasUnwrittenCells domain.old (unwritten_number (as_unwritten sample.old)) result.now }
        ensures changes { (m : Messages T U) (s : State T U) (left : List (Option T)) → Shows domain.old m s
            → (l : Loan T U) × (s.loans (unwritten_number (as_unwritten sample.old)) ≡ Some l)
            × Shows (with_cells_left domain.old (unwritten_number (as_unwritten sample.old)) left) m
            (with_loan s (unwritten_number (as_unwritten sample.old)) (Some (cells_changed left l))) }
        ensures out { (left : List (Option T)) → IsUnwritten
            (with_cells_left domain.old (unwritten_number (as_unwritten sample.old)) left) (as_unwritten sample.old) }
        ensures live { NeverWaits domain.old (unwritten_key (as_unwritten sample.old)) → (left : List (Option T))
            → NeverWaitsUnwritten (with_cells_left domain.old (unwritten_number (as_unwritten sample.old)) left)
            (as_unwritten sample.old) }
        ensures reads { (left : List (Option T)) → length left ≡ length result.now
            → HasUnwrittenCells (with_cells_left domain.old (unwritten_number (as_unwritten sample.old)) left)
            (unwritten_number (as_unwritten sample.old)) left }
        ensures header { (left : List (Option T)) (header : Header) → LoanHasHeader domain.old (unwritten_key (as_unwritten sample.old)) header
            → LoanHasHeader (with_cells_left domain.old (unwritten_number (as_unwritten sample.old)) left) (unwritten_key (as_unwritten sample.new)) header }
        ensures user_header { (left : List (Option T)) (header : U) → LoanHasUserHeader domain.old (unwritten_key (as_unwritten sample.old)) header
            → LoanHasUserHeader (with_cells_left domain.old (unwritten_number (as_unwritten sample.old)) left)
            (unwritten_key (as_unwritten sample.new)) header }
        ensures leaves { (left : List (Option T)) → LeavesBut (unwritten_loan (as_unwritten sample.old)) domain.old
            (with_cells_left domain.old (unwritten_number (as_unwritten sample.old)) left) }
    {
        let at = find_live_loan(&domain.state, &sample.sample.loan);
        cells_at_mut(&mut domain.state, at)
    }
}
