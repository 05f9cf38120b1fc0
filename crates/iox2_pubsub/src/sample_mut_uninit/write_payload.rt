//! A loan is written.
ghost use Rattle.std.specs.Prelude.{◌≡◌};

use crate::domain::Domain;
use crate::sample_mut::SampleMut;
use crate::sample_mut_uninit::SampleMutUninit;
use iox2_machine::{BackpressureFn, DegradationFn};
use iox2_messages::write_loan;

impl SampleMutUninit {
    ghost use Rattle.std.specs.Prelude.{Some};
    ghost use Rattle.iox2_machine.specs.machine.Records.{Loan};
    ghost use Rattle.iox2_machine.specs.machine.State.{State, Messages, with_loan};
    ghost use Rattle.iox2_machine.specs.machine.Loans.{written};
    ghost use Rattle.iox2_pubsub.specs.Live.{IsSingleValued, IsUnwritten, LoanReads};
    ghost use Rattle.iox2_pubsub.specs.LoanCalls.{BecomesWritten};
    ghost use Rattle.iox2_domain.specs.Shows.{Shows};
    ghost use Rattle.iox2_pubsub.specs.Handles.{unwritten_number};

    /// Writes the payload, in a domain of single values, and makes the loan one that may be sent.
    ///
    /// iceoryx2's `SampleMutUninit::write_payload` (`src/sample_mut_uninit.rs`).
    pub fn write_payload<T: Drop, U: Default + Drop, F: BackpressureFn, G: DegradationFn>(
        self,
        domain: &mut Domain<T, U, F, G>,
        value: T,
    ) -> SampleMut
        requires live { IsUnwritten domain.old self }
        requires single_valued { IsSingleValued domain.old }
        ensures written { (m : Messages T U) (s : State T U) → Shows domain.old m s → (l : Loan T U)
            × (s.loans (unwritten_number self) ≡ Some l)
            × Shows domain.new m (with_loan s (unwritten_number self) (Some (written l value))) }
        ensures reads { LoanReads domain.new result value }
        ensures becomes { BecomesWritten self result domain.old domain.new }
    {
        let SampleMutUninit { service_id, loan } = self;
        SampleMut {
            service_id,
            loan: write_loan(&mut domain.state, loan, value),
        }
    }
}
