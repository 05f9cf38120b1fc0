//! A written loan is given back unsent.

use crate::domain::Domain;
use crate::sample_mut::SampleMut;
use iox2_machine::{BackpressureFn, DegradationFn};
use iox2_messages::discard_loan;

impl SampleMut {
    ghost use Rattle.iox2_pubsub.specs.Live.{IsLoanKey, written_key};
    ghost use Rattle.iox2_pubsub.specs.LoanCalls.{IsDiscarded};

    /// Gives the loan back unsent. It counts among the publisher's loans no more, its slot is free
    /// again, and no subscriber sees anything of it. Takes no memory.
    ///
    /// iceoryx2's `SampleMut`, when it is dropped (`src/sample_mut.rs`).
    pub fn discard<T: Drop, U: Default + Drop, F: BackpressureFn, G: DegradationFn>(
        self,
        domain: &mut Domain<T, U, F, G>,
    )
        requires live { IsLoanKey domain.old (written_key self) }
        ensures { IsDiscarded (written_key self) domain.old domain.new }
    {
        let SampleMut {
            service_id: _,
            loan,
        } = self;
        discard_loan(&mut domain.state, loan);
    }
}
