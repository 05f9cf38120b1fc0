//! A publisher lends a message that has a default value.
ghost use Rattle.std.specs.Prelude.{◌+◌, ℕ, IfOk, IsOk, OnErr};

use crate::domain::Domain;
use crate::publisher::Publisher;
use crate::sample_mut::SampleMut;
use iox2_machine::{BackpressureFn, DegradationFn, LoanError};

impl Publisher {
    ghost use Rattle.iox2_pubsub.specs.GrantedLoans.{IsLentWritten};
    ghost use Rattle.iox2_pubsub.specs.Handles.{publisher_id};
    ghost use Rattle.iox2_pubsub.specs.Leaves.{LeavesLending};
    ghost use Rattle.iox2_pubsub.specs.Live.{IsReadyPublisher, IsSingleValued, LoanReads};
    ghost use Rattle.iox2_pubsub.specs.LoansLeft.{HasLoansLeft, HasNumbersLeft, LoansLeftStay};
    ghost use Rattle.iox2_pubsub.specs.MachineSteps.{TakesStep};
    ghost use Rattle.iox2_pubsub.specs.WrittenLoans.{WrittenLoanCall};

    /// Lends a message of one element whose payload and user header have their default values, so
    /// that it may be sent as it is. Refused as `loan_uninit` is; no default value is made then.
    ///
    /// iceoryx2's `Publisher::loan` (`src/port/publisher.rs`).
    pub fn loan<T: Default + Drop, U: Default + Drop, F: BackpressureFn, G: DegradationFn>(
        &self,
        domain: &mut Domain<T, U, F, G>,
    ) -> Result<SampleMut, LoanError>
        requires ready { IsReadyPublisher domain.old self.now }
        requires single_valued { IsSingleValued domain.old }
        ensures lends { TakesStep domain.old domain.new
            (λ before after. WrittenLoanCall T.is_default U.is_default before (publisher_id self.now) result after) }
        ensures granted { (loans numbers : ℕ) → HasLoansLeft domain.old self.now (loans + 1) → HasNumbersLeft domain.old (numbers + 1) → IsOk result }
        ensures loan { IfOk result (λ loan. IsLentWritten self.now loan domain.old domain.new) }
        ensures reads { IfOk result (λ loan. (value : T) × T.is_default value × LoanReads domain.new loan value) }
        ensures refused { OnErr result (LoansLeftStay domain.old domain.new) }
        ensures leaves { LeavesLending self.now domain.old domain.new }
    {
        let loan = self.loan_uninit(domain)?;
        Ok(loan.write_payload(domain, T::default()))
    }
}
