//! A publisher is made with as many slots as an override says.
ghost use Rattle.std.specs.Prelude.{◌≡◌, ℕ, None, Some, IfOk, OnErr, MatchResult};
ghost use Rattle.std.specs.declared.option.Option.{Option};
ghost use Rattle.iox2_machine.specs.machine.Limits.{worst_case};
ghost use Rattle.iox2_machine.specs.machine.Ports.{CreatePublisher};
ghost use Rattle.iox2_machine.specs.machine.State.{State, Messages};
ghost use Rattle.iox2_domain.specs.Boxes.{answers_of};
ghost use Rattle.iox2_domain.specs.Shows.{Shows};
ghost use Rattle.iox2_pubsub.specs.Factories.{AsksForSlots, AsksForAll, callback_of, with_slots};
ghost use Rattle.iox2_pubsub.specs.Handles.{publisher_id};
ghost use Rattle.iox2_pubsub.specs.Leaves.{LeavesNoFewer};
ghost use Rattle.iox2_pubsub.specs.Live.{WaitingStays};
ghost use Rattle.iox2_pubsub.specs.LoansLeft.{HasLoansLeft, LendsFirst};
ghost use Rattle.iox2_pubsub.specs.MadePublishers.{IsMadePublisher};

use crate::domain::Domain;
use crate::port_factory::handles::PortHandle;
use crate::port_factory::preallocation::PreallocatedSamplesOverride;
use crate::port_factory::publisher::{PortFactoryPublisher, create_plain};
use crate::publisher::Publisher;
use iox2_machine::{BackpressureFn, DegradationFn, PublisherCreateError};

impl<
    F: BackpressureFn,
    G: DegradationFn,
    P: Fn(usize) -> usize + Drop,
    H: PortHandle<Publisher>,
> PortFactoryPublisher<F, G, PreallocatedSamplesOverride<P>, H> {
    /// Makes the publisher, as a factory without an override does, but with as many slots as the
    /// override says, which is asked first: no more than the worst case, and at least one if that
    /// isn't none. If the worst case doesn't fit `usize` the override isn't asked.
    ///
    /// With fewer slots than the worst case a loan fails with `LoanError::OutOfMemory` while each slot
    /// is in use, though fewer loans are out than may be.
    ///
    /// Fails as without an override; the override is asked then too.
    ///
    /// iceoryx2's `PortFactoryPublisher::create` (`src/service/port_factory/publisher.rs`) and
    /// `Publisher::new` (`src/port/publisher.rs`).
    pub fn create<T: Drop, U: Default + Drop>(
        self,
        domain: &mut Domain<T, U, F, G>,
    ) -> Result<H, PublisherCreateError>
        requires can_ask { P.IsAlwaysCallable (callback_of self) }
        ensures creates { (asked : Option ℕ) × AsksForSlots (P.post (callback_of self)) (worst_case (domain.old.config) self.settings.max_loaned_samples) asked
            × ((m : Messages T U) (s : State T U) → Shows domain.old m s → (s' : State T U) × Shows domain.new m s'
            × MatchResult result
            (λ publisher. (publisher_id (H.as_port publisher) ≡ s.next_port)
            × CreatePublisher (answers_of F.allows G.allows (domain.new.boxes).publishers) s
            (with_slots self.settings asked) s' None)
            (λ e. CreatePublisher (answers_of F.allows G.allows (domain.new.boxes).publishers) s (with_slots self.settings asked) s' (Some e))) }
        ensures made { IfOk result (λ publisher. IsMadePublisher self.settings self.box self.degradation_box (H.as_port publisher) domain.old domain.new) }
        ensures left { AsksForAll (P.post (callback_of self))
            (worst_case (domain.old.config) self.settings.max_loaned_samples)
            → LendsFirst (domain.old.config) self.settings
            → IfOk result (λ publisher. HasLoansLeft domain.new (H.as_port publisher)
            self.settings.max_loaned_samples) }
        ensures refused { OnErr result (WaitingStays domain.old domain.new) }
        ensures leaves { LeavesNoFewer domain.old domain.new }
    {
        let options = self.options;
        let segments = self
            .slots
            .ask(domain.state.config(), options.max_loaned_samples);
        let boxed = self.degradation_box;
        match create_plain(domain, &options, self.backpressure_handler, boxed, segments) {
            Ok(publisher) => Ok(H::of_port(publisher)),
            Err(error) => Err(error),
        }
    }
}
