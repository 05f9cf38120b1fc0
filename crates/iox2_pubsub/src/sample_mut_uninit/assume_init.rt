//! A loan is taken as written.
ghost use Rattle.std.specs.Prelude.{◌≡◌};

use crate::domain::Domain;
use crate::sample_mut::SampleMut;
use crate::sample_mut_uninit::SampleMutUninit;
use iox2_machine::{BackpressureFn, DegradationFn};
use iox2_messages::assume_loan;

impl SampleMutUninit {
    ghost use Rattle.std.specs.Prelude.{Some, None, Option, List, map, is_some, IfOk, IsOkAnd, IsErr, MatchResult, true, false};
    ghost use Rattle.std.specs.List.{list_all};
    ghost use Rattle.iox2_machine.specs.machine.Loans.{initialized, is_initialized};
    ghost use Rattle.iox2_machine.specs.machine.Records.{Loan};
    ghost use Rattle.iox2_machine.specs.machine.State.{State, Messages};
    ghost use Rattle.iox2_domain.specs.Shows.{Shows};
    ghost use Rattle.iox2_pubsub.specs.Live.{IsUnwritten, LoanReads, UnwrittenReads, unwritten_loan};
    ghost use Rattle.iox2_pubsub.specs.LoanCalls.{BecomesWritten};
    ghost use Rattle.iox2_pubsub.specs.Leaves.{LeavesBut};
    ghost use Rattle.iox2_pubsub.specs.Slices.{HasUnwrittenCells, HasValues};
    ghost use Rattle.iox2_pubsub.specs.Handles.{unwritten_number, written_number};

    /// Makes the loan one that may be sent, if each of its cells is written. Else the loan is
    /// handed back as it was, and nothing changes. No value is copied.
    ///
    /// iceoryx2's `SampleMutUninit::assume_init` (`src/sample_mut_uninit.rs`), which takes the
    /// caller's word for it.
    pub fn assume_init<T: Drop, U: Default + Drop, F: BackpressureFn, G: DegradationFn>(
        self,
        domain: &mut Domain<T, U, F, G>,
    ) -> Result<SampleMut, SampleMutUninit>
        requires live { IsUnwritten domain.old self }
        ensures step { (m : Messages T U) (s : State T U) → Shows domain.old m s → (l : Loan T U) × (s.loans (unwritten_number self) ≡ Some l)
            × MatchResult result
            (λ _. (is_initialized l ≡ true) × Shows domain.new m (initialized s (unwritten_number self) l))
            (λ _. (is_initialized l ≡ false) × Shows domain.new m s) }
        ensures becomes { IfOk result (λ sample. BecomesWritten self sample domain.old domain.new) }
        ensures reads { (value : T) → UnwrittenReads domain.old self (Some value) → IsOkAnd result (λ sample. LoanReads domain.new sample value) }
        ensures refused { UnwrittenReads domain.old self None → IsErr result }
        ensures all_read { (values : List T) → HasUnwrittenCells domain.old (unwritten_number self) (map Some values)
            → IsOkAnd result (λ sample. HasValues domain.new (written_number sample) values) }
        ensures some_unwritten { (cells : List (Option T)) → HasUnwrittenCells domain.old (unwritten_number self)
            cells → list_all is_some cells ≡ false → IsErr result }
        ensures handed_back { MatchResult result (λ _. self ≡ self) (λ loan. (loan ≡ self) × (domain.new ≡ domain.old)) }
        ensures leaves { LeavesBut (unwritten_loan self) domain.old domain.new }
    {
        if !assume_loan(&mut domain.state, &self.loan) {
            return Err(self);
        }
        let SampleMutUninit { service_id, loan } = self;
        Ok(SampleMut { service_id, loan })
    }
}
