//! The payload of a loan of a slice is changed in place.
ghost use Rattle.std.specs.Prelude.{◌≡◌};

use crate::domain::Domain;
use crate::slice::SampleMut;
use iox2_machine::{BackpressureFn, DegradationFn};
use iox2_messages::{find_live_loan, values_at_mut};

impl SampleMut {
    ghost use Rattle.std.specs.Prelude.{Some, List, length, map};
    ghost use Rattle.std.specs.Borrow.{sem};
    ghost use Rattle.iox2_machine.specs.declared.header.Header.{Header};
    ghost use Rattle.iox2_machine.specs.machine.Records.{Loan};
    ghost use Rattle.iox2_machine.specs.machine.State.{State, Messages, with_loan};
    ghost use Rattle.iox2_domain.specs.LoanCalls.{cells_changed};
    ghost use Rattle.iox2_domain.specs.Shows.{Shows};
    ghost use Rattle.iox2_pubsub.specs.ChangedLoans.{with_payloads};
    ghost use Rattle.iox2_pubsub.specs.Live.{IsWritten, IsWrittenLoan, LoanHasHeader, LoanHasUserHeader, NeverWaits, written_key, written_loan};
    ghost use Rattle.iox2_pubsub.specs.Leaves.{LeavesBut};
    ghost use Rattle.iox2_pubsub.specs.LoanLends.{LendsPayloads};
    ghost use Rattle.iox2_pubsub.specs.Slices.{HasValues, HoldsSlices};
    ghost use Rattle.iox2_pubsub.specs.Handles.{as_written, written_number};

    /// The payload, to be changed where it lies. What is left behind the reference is the loan's
    /// payload from then on, as long as it was, and nothing else of the domain changes.
    ///
    /// iceoryx2's `SampleMut::payload_mut` (`src/sample_mut.rs`).
    pub fn payload_mut<'a, T: Drop, U: Default + Drop, F: BackpressureFn, G: DegradationFn>(
        domain: &'a mut Domain<T, U, F, G>,
        sample: &mut SampleMut,
    ) -> &'a mut [T]
        requires live { IsWritten domain.old (as_written sample.old) }
        requires sliced { HoldsSlices domain.old }
        ensures* writes_back { sem 𝓛 (LendsPayloads T.row U.row F.row G.row domain.entry (written_number (as_written sample.old)) result) }
        ensures same { sample.new ≡ sample.old }
        ensures payload { HasValues domain.old (written_number (as_written sample.old)) result.now }
        ensures changes { (m : Messages T U) (s : State T U) (left : List T) → Shows domain.old m s
            → (l : Loan T U) × (s.loans (written_number (as_written sample.old)) ≡ Some l)
            × Shows (with_payloads domain.old (written_number (as_written sample.old)) left) m
            (with_loan s (written_number (as_written sample.old)) (Some (cells_changed (map Some left) l))) }
        ensures out { (left : List T) → IsWritten (with_payloads domain.old (written_number (as_written sample.old)) left) (as_written sample.old) }
        ensures live { NeverWaits domain.old (written_key (as_written sample.old)) → (left : List T)
            → IsWrittenLoan (with_payloads domain.old (written_number (as_written sample.old)) left)
            (as_written sample.old) }
        ensures reads { (left : List T) → length left ≡ length result.now
            → HasValues (with_payloads domain.old (written_number (as_written sample.old)) left)
            (written_number (as_written sample.old)) left }
        ensures header { (left : List T) (header : Header) → LoanHasHeader domain.old (written_key (as_written sample.old)) header
            → LoanHasHeader (with_payloads domain.old (written_number (as_written sample.old)) left) (written_key (as_written sample.new)) header }
        ensures user_header { (left : List T) (header : U) → LoanHasUserHeader domain.old (written_key (as_written sample.old)) header
            → LoanHasUserHeader (with_payloads domain.old (written_number (as_written sample.old)) left) (written_key (as_written sample.new)) header }
        ensures leaves { (left : List T) → LeavesBut (written_loan (as_written sample.old)) domain.old
            (with_payloads domain.old (written_number (as_written sample.old)) left) }
    {
        let at = find_live_loan(&domain.state, &sample.sample.loan);
        values_at_mut(&mut domain.state, at)
    }
}
