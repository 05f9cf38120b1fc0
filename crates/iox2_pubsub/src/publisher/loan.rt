//! A publisher lends a message.
ghost use Rattle.std.specs.Prelude.{◌≡◌, ◌≤◌, ◌+◌, ◌*◌, ℕ, IfOk, IsOk, OnErr, true, false};

use crate::domain::Domain;
use crate::publisher::Publisher;
use crate::sample_mut_uninit::SampleMutUninit;
use iox2_machine::{BackpressureFn, DegradationFn, LoanError};
use iox2_messages::loan;

impl Publisher {
    ghost use Rattle.iox2_machine.specs.declared.service_config.TypeVariant.TheVariants.{FixedSize};
    ghost use Rattle.iox2_domain.specs.Lending.{LoanCall};
    ghost use Rattle.iox2_pubsub.specs.GrantedLoans.{IsLentUnwritten, HasOnlyUnwrittenCells};
    ghost use Rattle.iox2_pubsub.specs.Handles.{max_slice_len_of, publisher_id};
    ghost use Rattle.iox2_pubsub.specs.Leaves.{LeavesLending};
    ghost use Rattle.iox2_pubsub.specs.Live.{IsConsistent, IsReadyPublisher, IsSingleValued};
    ghost use Rattle.iox2_pubsub.specs.LoansLeft.{HasLoansLeft, HasNumbersLeft, LoansLeftStay};
    ghost use Rattle.iox2_pubsub.specs.MachineSteps.{TakesStep};

    /// Lends a message of one element, whose payload isn't written and whose user header has
    /// its default value. The loan is out until its message was sent. It takes no memory, except
    /// for further slots of a publisher whose memory grows.
    ///
    /// # Errors
    ///
    /// First `ExceedsMaxLoans` if as many loans are out as the publisher may have at a time. Of a
    /// static publisher then `OutOfMemory` if each of its slots holds a loan, or a message that is
    /// kept for later subscribers, waits or is borrowed; and `InternalFailure` if the domain has no
    /// message number left. Of one whose memory grows `InternalFailure` if there is no such number;
    /// then, if each of its newest slots holds something, `OutOfMemory` if it has made slots 255
    /// times, and `InternalFailure` if memory for more is refused, or their size doesn't fit
    /// `usize`. Nothing changes then.
    ///
    /// A publisher with as many slots as `worst_case_slots` says for its limit of loans never lacks
    /// a slot or memory: while fewer loans than its limit are out and a message number is left, the
    /// loan is granted, whatever its subscribers hold.
    ///
    /// iceoryx2's `Publisher::loan_uninit` (`src/port/publisher.rs`).
    #[inline(always)]
    pub fn loan_uninit<T: Drop, U: Default + Drop, F: BackpressureFn, G: DegradationFn>(
        &self,
        domain: &mut Domain<T, U, F, G>,
    ) -> Result<SampleMutUninit, LoanError>
        requires ready { IsReadyPublisher domain.old self.now }
        requires single_valued { IsSingleValued domain.old }
        ensures consistent { IsConsistent domain.old }
        ensures lends { TakesStep domain.old domain.new (λ before after. LoanCall U.is_default false 1 before (publisher_id self.now) result after) }
        ensures granted { (loans numbers : ℕ) → HasLoansLeft domain.old self.now (loans + 1) → HasNumbersLeft domain.old (numbers + 1) → IsOk result }
        ensures loan { IfOk result (λ loan. IsLentUnwritten self.now loan domain.old domain.new) }
        ensures refused { OnErr result (LoansLeftStay domain.old domain.new) }
        ensures leaves { LeavesLending self.now domain.old domain.new }
    {
        self.lend(domain, false, 1)
    }

    // Lends a message of this number of elements. If the length counts, one that is longer than a
    // static publisher lends is refused.
    #[inline(always)]
    pub(crate) fn lend<T: Drop, U: Default + Drop, F: BackpressureFn, G: DegradationFn>(
        &self,
        domain: &mut Domain<T, U, F, G>,
        checks_length: bool,
        len: usize,
    ) -> Result<SampleMutUninit, LoanError>
        requires ready { IsReadyPublisher domain.old self.now }
        requires unchecked { checks_length ≡ false → (domain.old.config).variant ≡ FixedSize }
        requires single { (domain.old.config).variant ≡ FixedSize → len ≡ 1 }
        ensures consistent { IsConsistent domain.old }
        ensures lends { TakesStep domain.old domain.new (λ before after. LoanCall U.is_default checks_length len before (publisher_id self.now) result after) }
        ensures granted { (loans numbers : ℕ) → HasLoansLeft domain.old self.now (loans + 1) → HasNumbersLeft domain.old (numbers + 1)
            → (checks_length ≡ true → len ≤ max_slice_len_of self.now) → IsOk result }
        ensures loan { IfOk result (λ loan. IsLentUnwritten self.now loan domain.old domain.new) }
        ensures unfilled { IfOk result (λ loan. HasOnlyUnwrittenCells self.now loan len (len * (domain.old.config).units_per_element) domain.old domain.new) }
        ensures refused { OnErr result (LoansLeftStay domain.old domain.new) }
        ensures leaves { LeavesLending self.now domain.old domain.new }
    {
        let loan = loan(&mut domain.state, self.place, checks_length, len)?;
        Ok(SampleMutUninit {
            service_id: self.service_id,
            loan,
        })
    }
}
