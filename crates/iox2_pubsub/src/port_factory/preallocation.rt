//! How many slots a publisher gets, and how they grow.
ghost use Rattle.std.specs.Prelude.{◌≡◌};

use iox2_machine::{AllocationStrategy, ServiceConfig, worst_case_slots};
use iox2_ports::SegmentOptions;

/// No override: a publisher has the worst case of slots.
///
/// Example (`crates/calling/src/closing.rt`): the factory of `publisher_builder` has it.
///
/// ```rust
/// let publisher = domain
///     .publisher_builder()
///     .backpressure_strategy(BackpressureStrategy::DiscardData)
///     .create(domain)?;
/// ```
///
/// This library's own, where iceoryx2 has an override that is there or not.
#[derive(Debug, Clone, Copy, PartialEq, Eq)]
pub struct NoOverride;

/// What says how many slots a publisher is to have: a closure, which is given the worst case.
///
/// Example (`crates/iox2_tests/src/tests/growing_publishers.rt`):
///
/// ```rust
/// let factory = factory_for(domain)
///     .max_loaned_samples(loans)
///     .allocation_strategy(strategy)
///     .override_sample_preallocation(|_| 1);
/// factory.create(domain).expect(rt, "a publisher")
/// ```
///
/// iceoryx2's `PreallocatedSamplesOverride` (`src/service/port_factory/publisher.rs`).
#[derive(Drop)]
pub struct PreallocatedSamplesOverride<P> {
    pub(crate) callback: P,
}

/// What a factory was told of the slots of its publishers: how they grow, and what says how many
/// there are to be.
#[derive(Drop)]
pub(crate) struct SlotSettings<O> {
    pub(crate) allocation: AllocationStrategy,
    pub(crate) preallocated: O,
}

impl<P: Fn(usize) -> usize + Drop> SlotSettings<PreallocatedSamplesOverride<P>> {
    ghost use Rattle.iox2_machine.specs.machine.Limits.{worst_case};
    ghost use Rattle.iox2_pubsub.specs.Factories.{AsksForSlots};

    /// How the slots of a publisher with this number of loans are allocated. The override is asked how
    /// many there should be, but not if the worst case doesn't fit `usize`.
    pub(crate) fn ask(&self, config: &ServiceConfig, loans: usize) -> SegmentOptions
        requires { P.IsAlwaysCallable self.now.preallocated.callback }
        ensures allocation { result.allocation ≡ self.now.allocation }
        ensures asked { AsksForSlots (P.post self.now.preallocated.callback) (worst_case config.now loans) result.asked_slots }
    {
        let asked_slots = match worst_case_slots(config, loans) {
            Some(worst) => Some((self.preallocated.callback)(worst)),
            None => None,
        };
        SegmentOptions {
            allocation: self.allocation,
            asked_slots,
        }
    }
}
