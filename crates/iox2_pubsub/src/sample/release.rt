//! A message is given back.
ghost use Rattle.std.specs.Prelude.{◌≡◌};

use crate::domain::Domain;
use crate::sample::Sample;
use iox2_machine::{BackpressureFn, DegradationFn};
use iox2_messages::release_sample;

impl<K> Sample<K> {
    ghost use Rattle.std.specs.Prelude.{ℕ, IsTrue};
    ghost use Rattle.iox2_machine.specs.machine.Mailbox.{is_borrowed};
    ghost use Rattle.iox2_machine.specs.machine.Releases.{released};
    ghost use Rattle.iox2_machine.specs.machine.State.{State, Messages};
    ghost use Rattle.iox2_pubsub.specs.BorrowsLeft.{HasOneMoreBorrowLeft, HasOneMoreBorrowLeftOf};
    ghost use Rattle.iox2_pubsub.specs.Live.{IsFromOrigin, IsLiveSample, received_sample};
    ghost use Rattle.iox2_pubsub.specs.Leaves.{LeavesBut};
    ghost use Rattle.iox2_domain.specs.Shows.{Shows};
    ghost use Rattle.iox2_pubsub.specs.Handles.{origin_of, receiver_of, sample_number};

    /// Gives the message back to its publisher, which may use its slot again once nobody else has
    /// it. Takes no memory.
    ///
    /// iceoryx2's `Sample`, when it is dropped (`src/sample.rs`).
    #[inline(always)]
    pub fn release<T: Drop, U: Default + Drop, F: BackpressureFn, G: DegradationFn>(
        self,
        domain: &mut Domain<T, U, F, G>,
    )
        requires live { IsLiveSample domain.old self }
        ensures released { (m : Messages T U) (s : State T U) → Shows domain.old m s
            → (publisher : ℕ) → IsTrue (is_borrowed (sample_number self) (s.mailboxes publisher (receiver_of self)))
            → (s' : State T U) × Shows domain.new m s' × (s' ≡ released s publisher (receiver_of self) (sample_number self)) }
        ensures spent { IsLiveSample domain.new self → ⊥ }
        ensures gives_back { HasOneMoreBorrowLeft (receiver_of self) domain.old domain.new }
        ensures gives_back_of { IsFromOrigin domain.old self → HasOneMoreBorrowLeftOf (origin_of self) (receiver_of self) domain.old domain.new }
        ensures leaves { LeavesBut (received_sample self) domain.old domain.new }
    {
        let Sample {
            service_id: _,
            origin: _,
            sample,
            kind: _,
        } = self;
        release_sample(&mut domain.state, sample);
    }
}
