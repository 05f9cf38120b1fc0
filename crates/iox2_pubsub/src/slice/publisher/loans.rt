//! A publisher lends slices, and custom bytes.
ghost use Rattle.std.specs.Prelude.{◌*◌, ◌+◌, ◌≡◌, ◌≤◌, IfOk, IsOk, List, OnErr, length, true, ℕ, ⊤};
ghost use Rattle.std.specs.List.{All};

use crate::custom_markers::{CustomHeaderMarker, CustomPayloadMarker};
use crate::domain::Domain;
use crate::slice::{Publisher, SampleMut, SampleMutUninit};
use iox2_machine::{BackpressureFn, DegradationFn, LoanError};

impl Publisher {
    ghost use Rattle.iox2_machine.specs.declared.service_config.TypeVariant.TheVariants.{FixedSize};
    ghost use Rattle.iox2_domain.specs.Lending.{LoanCall};
    ghost use Rattle.iox2_pubsub.specs.GrantedLoans.{IsLentUnwritten, IsLentWritten, IsReadyForSlices, HasOnlyUnwrittenCells};
    ghost use Rattle.iox2_pubsub.specs.Handles.{as_publisher, as_unwritten, as_written, max_slice_len_of, publisher_id, written_number};
    ghost use Rattle.iox2_pubsub.specs.Leaves.{LeavesLending};
    ghost use Rattle.iox2_pubsub.specs.Live.{IsReadyPublisher};
    ghost use Rattle.iox2_pubsub.specs.LoansLeft.{HasLoansLeft, HasNumbersLeft, LoansLeftStay};
    ghost use Rattle.iox2_pubsub.specs.MachineSteps.{TakesStep};
    ghost use Rattle.iox2_pubsub.specs.Slices.{HasValues};
    ghost use Rattle.iox2_pubsub.specs.WrittenLoans.{DefaultSliceCall};

    /// Lends a message of `slice_len` elements, 0 or more. None of them is written, and the user header
    /// has its default value. The loan is out until its message was sent. It takes no memory,
    /// except for further slots of a publisher whose memory grows.
    ///
    /// # Errors
    ///
    /// Of a static publisher, in this order: `ExceedsMaxLoanSize` if the length is above
    /// `initial_max_slice_len`; `ExceedsMaxLoans` if as many loans are out as the publisher may have
    /// at a time; `OutOfMemory` if each of its slots holds a loan, or a message that is kept for
    /// later subscribers, waits or is borrowed; `InternalFailure` if the domain has no message
    /// number left. Of one whose memory grows: `ExceedsMaxLoans`, then `InternalFailure` if there is
    /// no such number; then, if the length is above that of its newest slots or each of them holds
    /// something, `OutOfMemory` if it has made slots 255 times, and `InternalFailure` if memory
    /// for more is refused, or their size doesn't fit `usize`. Nothing changes then.
    ///
    /// A publisher with as many slots as `worst_case_slots` says for its limit of loans never lacks
    /// a slot or memory: while fewer loans than its limit are out and a message number is left, a
    /// loan of up to `initial_max_slice_len` elements is granted, whatever its subscribers hold.
    ///
    /// iceoryx2's `Publisher::loan_slice_uninit` (`src/port/publisher.rs`).
    #[inline(always)]
    pub fn loan_slice_uninit<T: Drop, U: Default + Drop, F: BackpressureFn, G: DegradationFn>(
        &self,
        domain: &mut Domain<T, U, F, G>,
        slice_len: usize,
    ) -> Result<SampleMutUninit, LoanError>
        requires ready { IsReadyForSlices domain.old (as_publisher self.now) }
        ensures lends { TakesStep domain.old domain.new
            (λ before after. LoanCall U.is_default true slice_len before (publisher_id (as_publisher self.now)) result
            after) }
        ensures granted { (loans numbers : ℕ) → HasLoansLeft domain.old (as_publisher self.now) (loans + 1) → HasNumbersLeft domain.old (numbers + 1)
            → slice_len ≤ max_slice_len_of (as_publisher self.now) → IsOk result }
        ensures loan { IfOk result (λ loan. IsLentUnwritten (as_publisher self.now) (as_unwritten loan) domain.old domain.new) }
        ensures unfilled { IfOk result (λ loan. HasOnlyUnwrittenCells (as_publisher self.now) (as_unwritten loan) slice_len slice_len domain.old domain.new) }
        ensures refused { OnErr result (LoansLeftStay domain.old domain.new) }
        ensures leaves { LeavesLending (as_publisher self.now) domain.old domain.new }
    {
        match self.publisher.lend(domain, true, slice_len) {
            Ok(sample) => Ok(SampleMutUninit { sample }),
            Err(error) => Err(error),
        }
    }

    /// Lends a message of `slice_len` elements, 0 or more, each a default value of its own. The user header
    /// has its default value too, so the message may be sent as it is. Refused as
    /// `loan_slice_uninit` is; no default value is made then.
    ///
    /// iceoryx2's `Publisher::loan_slice` (`src/port/publisher.rs`).
    pub fn loan_slice<T: Default + Drop, U: Default + Drop, F: BackpressureFn, G: DegradationFn>(
        &self,
        domain: &mut Domain<T, U, F, G>,
        slice_len: usize,
    ) -> Result<SampleMut, LoanError>
        requires ready { IsReadyForSlices domain.old (as_publisher self.now) }
        ensures lends { TakesStep domain.old domain.new
            (λ before after. DefaultSliceCall T.is_default U.is_default slice_len before
            (publisher_id (as_publisher self.now)) result after) }
        ensures granted { (loans numbers : ℕ) → HasLoansLeft domain.old (as_publisher self.now) (loans + 1) → HasNumbersLeft domain.old (numbers + 1)
            → slice_len ≤ max_slice_len_of (as_publisher self.now) → IsOk result }
        ensures loan { IfOk result (λ loan. IsLentWritten (as_publisher self.now) (as_written loan) domain.old domain.new) }
        ensures reads { IfOk result (λ loan. (values : List T) × All T.is_default values × (length values ≡ slice_len)
            × HasValues domain.new (written_number (as_written loan)) values) }
        ensures refused { OnErr result (LoansLeftStay domain.old domain.new) }
        ensures leaves { LeavesLending (as_publisher self.now) domain.old domain.new }
    {
        match self.loan_slice_uninit(domain, slice_len) {
            Ok(loan) => Ok(loan.write_from_fn(domain, |_| T::default())),
            Err(error) => Err(error),
        }
    }

    /// Lends a message of `slice_len` elements, each of as many bytes as the domain's settings say
    /// (`units_per_element`). None of them is written. In a domain of the variant `FixedSize` the
    /// length is 1. Refused as `loan_slice_uninit` is.
    ///
    /// iceoryx2's `Publisher::loan_custom_payload` (`src/port/publisher.rs`).
    pub fn loan_custom_payload<F: BackpressureFn, G: DegradationFn>(
        &self,
        domain: &mut Domain<CustomPayloadMarker, CustomHeaderMarker, F, G>,
        slice_len: usize,
    ) -> Result<SampleMutUninit, LoanError>
        requires ready { IsReadyPublisher domain.old (as_publisher self.now) }
        requires single { (domain.old.config).variant ≡ FixedSize → slice_len ≡ 1 }
        ensures lends { TakesStep domain.old domain.new
            (λ before after. LoanCall (λ _. ⊤) true slice_len before (publisher_id (as_publisher self.now)) result
            after) }
        ensures granted { (loans numbers : ℕ) → HasLoansLeft domain.old (as_publisher self.now) (loans + 1) → HasNumbersLeft domain.old (numbers + 1)
            → slice_len ≤ max_slice_len_of (as_publisher self.now) → IsOk result }
        ensures loan { IfOk result (λ loan. IsLentUnwritten (as_publisher self.now) (as_unwritten loan) domain.old domain.new) }
        ensures unfilled { IfOk result (λ loan. HasOnlyUnwrittenCells (as_publisher self.now) (as_unwritten loan)
            slice_len (slice_len * (domain.old.config).units_per_element) domain.old domain.new) }
        ensures refused { OnErr result (LoansLeftStay domain.old domain.new) }
        ensures leaves { LeavesLending (as_publisher self.now) domain.old domain.new }
    {
        match self.publisher.lend(domain, true, slice_len) {
            Ok(sample) => Ok(SampleMutUninit { sample }),
            Err(error) => Err(error),
        }
    }
}
