//! A publisher lends a slice that is written, and says where its values begin.
ghost use Rattle.std.specs.Prelude.{◌≡◌, ◌≤◌, ◌<◌, ◌+◌, ◌↔◌, ℕ, List, length, IfOk, IsOk, IsSome, OnErr};
ghost use Rattle.std.specs.List.{All};

use crate::domain::Domain;
use crate::slice::{Publisher, SampleMut};
use iox2_domain::LoanAt;
use iox2_machine::{BackpressureFn, DegradationFn, LoanError};
use iox2_messages::{fill_from_fn, fill_unspecified, loan};
use std::ptr::NonNull;

/// A written loan of a slice, and where its values begin. This library's own.
///
/// Example (`crates/iox2_slice_tests/src/tests/located.rt`):
///
/// ```rust
/// let lent = publisher.loan_slice_located(&mut domain, 3);
/// let LocatedLoan { loan, start } = lent.expect(&rt, "a loan");
/// let is_read = loan.payload(&domain) == [0, 0, 0].as_slice();
/// loan.discard(&mut domain);
/// ```
pub struct LocatedLoan<T> {
    /// The loan.
    pub loan: SampleMut,
    /// Where its first value lies, until the loan is sent or given back. `None` if it has no
    /// values. No clause says what lies there, since none speaks of memory that the domain owns.
    pub start: Option<NonNull<T>>,
}

impl Publisher {
    ghost use Rattle.iox2_pubsub.specs.GrantedLoans.{IsLentWritten, IsReadyForSlices};
    ghost use Rattle.iox2_pubsub.specs.Handles.{as_publisher, as_written, max_slice_len_of, publisher_id, written_number};
    ghost use Rattle.iox2_pubsub.specs.Leaves.{LeavesLending};
    ghost use Rattle.iox2_pubsub.specs.LoansLeft.{HasLoansLeft, HasNumbersLeft, LoansLeftStay};
    ghost use Rattle.iox2_pubsub.specs.MachineSteps.{TakesStep};
    ghost use Rattle.iox2_pubsub.specs.Slices.{HasValues};
    ghost use Rattle.iox2_pubsub.specs.WrittenLoans.{DefaultSliceCall};

    // The handle of a loan of this publisher, which was just written.
    fn located<T>(&self, loan: LoanAt, start: Option<NonNull<T>>) -> LocatedLoan<T>
        ensures handle { as_written result.loan ≡ record { service_id = (as_publisher self.now).service_id; loan = loan } }
        ensures start { IsSome result.start ↔ IsSome start }
    {
        let sample = crate::SampleMut {
            service_id: self.publisher.service_id,
            loan,
        };
        LocatedLoan {
            loan: SampleMut { sample },
            start,
        }
    }

    /// Lends as `loan_slice` does, and says where the default values begin. The loan is written where
    /// it was lent, and isn't looked for. This library's own.
    ///
    /// # Errors
    ///
    /// Those of `loan_slice`.
    #[inline(always)]
    pub fn loan_slice_located<
        T: Default + Drop,
        U: Default + Drop,
        F: BackpressureFn,
        G: DegradationFn,
    >(&self, domain: &mut Domain<T, U, F, G>, slice_len: usize) -> Result<LocatedLoan<T>, LoanError>
        requires ready { IsReadyForSlices domain.old (as_publisher self.now) }
        ensures lends { TakesStep domain.old domain.new
            (λ before after. DefaultSliceCall T.is_default U.is_default slice_len before
            (publisher_id (as_publisher self.now)) result after) }
        ensures granted { (loans numbers : ℕ) → HasLoansLeft domain.old (as_publisher self.now) (loans + 1) → HasNumbersLeft domain.old (numbers + 1)
            → slice_len ≤ max_slice_len_of (as_publisher self.now) → IsOk result }
        ensures loan { IfOk result (λ it. IsLentWritten (as_publisher self.now) (as_written it.loan) domain.old domain.new) }
        ensures reads { IfOk result (λ it. (values : List T) × All T.is_default values × (length values ≡ slice_len)
            × HasValues domain.new (written_number (as_written it.loan)) values) }
        ensures start { IfOk result (λ it. IsSome it.start ↔ 0 < slice_len) }
        ensures refused { OnErr result (LoansLeftStay domain.old domain.new) }
        ensures leaves { LeavesLending (as_publisher self.now) domain.old domain.new }
    {
        match loan(&mut domain.state, self.publisher.place, true, slice_len) {
            Ok(loan) => {
                let start = fill_from_fn(&mut domain.state, &loan, |_| T::default());
                Ok(self.located(loan, start))
            }
            Err(error) => Err(error),
        }
    }

    /// Lends as `loan_slice_uninit` does, makes the loan one that may be sent, as
    /// `SampleMutUninit::write_unspecified` does, and says where its values begin. It is written where
    /// it was lent, and isn't looked for. This library's own.
    ///
    /// # Errors
    ///
    /// Those of `loan_slice_uninit`.
    #[inline(always)]
    pub fn loan_unspecified_located<
        T: Copy + Default + Drop,
        U: Default + Drop,
        F: BackpressureFn,
        G: DegradationFn,
    >(&self, domain: &mut Domain<T, U, F, G>, slice_len: usize) -> Result<LocatedLoan<T>, LoanError>
        requires ready { IsReadyForSlices domain.old (as_publisher self.now) }
        ensures lends { TakesStep domain.old domain.new
            (λ before after. DefaultSliceCall (λ value. Unit {0}) U.is_default slice_len before
            (publisher_id (as_publisher self.now)) result after) }
        ensures granted { (loans numbers : ℕ) → HasLoansLeft domain.old (as_publisher self.now) (loans + 1) → HasNumbersLeft domain.old (numbers + 1)
            → slice_len ≤ max_slice_len_of (as_publisher self.now) → IsOk result }
        ensures loan { IfOk result (λ it. IsLentWritten (as_publisher self.now) (as_written it.loan) domain.old domain.new) }
        ensures reads { IfOk result (λ it. (values : List T) × (length values ≡ slice_len)
            × HasValues domain.new (written_number (as_written it.loan)) values) }
        ensures start { IfOk result (λ it. IsSome it.start ↔ 0 < slice_len) }
        ensures refused { OnErr result (LoansLeftStay domain.old domain.new) }
        ensures leaves { LeavesLending (as_publisher self.now) domain.old domain.new }
    {
        match loan(&mut domain.state, self.publisher.place, true, slice_len) {
            Ok(loan) => {
                let start = fill_unspecified(&mut domain.state, &loan);
                Ok(self.located(loan, start))
            }
            Err(error) => Err(error),
        }
    }
}
