//! An unwritten loan is given back.

use crate::domain::Domain;
use crate::sample_mut_uninit::SampleMutUninit;
use iox2_machine::{BackpressureFn, DegradationFn};
use iox2_messages::discard_loan;

impl SampleMutUninit {
    ghost use Rattle.iox2_pubsub.specs.Live.{IsLoanKey, unwritten_key};
    ghost use Rattle.iox2_pubsub.specs.LoanCalls.{IsDiscarded};

    /// Gives the loan back without a payload. It counts among the publisher's loans no more, its
    /// slot is free again, and no subscriber sees anything of it. Takes no memory.
    ///
    /// iceoryx2's `SampleMutUninit`, when it is dropped (`src/sample_mut_uninit.rs`).
    pub fn discard<T: Drop, U: Default + Drop, F: BackpressureFn, G: DegradationFn>(
        self,
        domain: &mut Domain<T, U, F, G>,
    )
        requires live { IsLoanKey domain.old (unwritten_key self) }
        ensures { IsDiscarded (unwritten_key self) domain.old domain.new }
    {
        let SampleMutUninit {
            service_id: _,
            loan,
        } = self;
        discard_loan(&mut domain.state, loan);
    }
}
