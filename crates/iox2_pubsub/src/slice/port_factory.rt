//! The factories of ports of slices: those of single values, which make other handles.
ghost use Rattle.std.specs.Prelude.{◌≡◌, None};
ghost use Rattle.iox2_machine.specs.machine.Ports.{default_subscriber_settings};
ghost use Rattle.iox2_domain.specs.NewPublisher.{plain_publisher};

use crate::domain::Domain;
use crate::port_factory::preallocation::NoOverride;
use crate::port_factory::{publisher, subscriber};
use crate::slice::{Publisher, Subscriber};
use iox2_machine::{BackpressureFn, DegradationFn};

/// Makes a publisher of slices. It begins with the loans that the domain's settings allow a
/// publisher, each of one element at most, and with their strategy. Its memory is to grow as they say.
///
/// Example (`crates/thermometer/src/series.rt`):
///
/// ```rust
/// let publisher = domain
///     .slice_publisher_builder()
///     .max_loaned_samples(1)
///     .backpressure_strategy(BackpressureStrategy::DiscardData)
///     .initial_max_slice_len(3)
///     .create(domain)?;
/// let outcome = send_both(domain, &publisher, subscriber);
/// publisher.close(domain);
/// outcome
/// ```
///
/// iceoryx2's `PortFactoryPublisher` of a slice (`src/service/port_factory/publisher.rs`).
pub type PortFactoryPublisher<
    F = Box<dyn BackpressureFn>,
    G = Box<dyn DegradationFn>,
    O = NoOverride,
> = publisher::PortFactoryPublisher<F, G, O, Publisher>;

/// Makes a subscriber of slices. It begins with the largest buffer that the domain allows.
///
/// Example (`crates/thermometer/src/series.rt`):
///
/// ```rust
/// let mut domain = Domain::<u64, ()>::new(alloc, config)?;
/// let subscriber = domain.slice_subscriber_builder().create(&mut domain)?;
/// let outcome = publish(&mut domain, &subscriber);
/// subscriber.close(&mut domain);
/// outcome
/// ```
///
/// iceoryx2's `PortFactorySubscriber` of a slice (`src/service/port_factory/subscriber.rs`).
pub type PortFactorySubscriber<G = Box<dyn DegradationFn>> = subscriber::PortFactorySubscriber<
    G,
    Subscriber,
>;

impl<T: Drop, U: Default + Drop, F: BackpressureFn, G: DegradationFn> Domain<T, U, F, G> {
    /// A factory of publishers of slices, with as many loans as the domain's settings allow a
    /// publisher, each of one element at most, and with their strategy.
    ///
    /// iceoryx2's `publisher_builder` of a service's factory of ports.
    pub fn slice_publisher_builder(&self) -> PortFactoryPublisher<F, G>
        ensures { result ≡ record {
          settings = record
              (plain_publisher (self.now.config).publisher_max_loaned_samples (self.now.config).backpressure_strategy 1)
              { allocation_strategy = (self.now.config).publisher_allocation_strategy };
          box = None;
          degradation_box =
              None;
          preallocated = record {};
        } }
    {
        PortFactoryPublisher::with_settings_of(self.state.config())
    }

    /// A factory of subscribers of slices, with the largest buffer that the domain allows.
    ///
    /// iceoryx2's `subscriber_builder` of a service's factory of ports.
    pub fn slice_subscriber_builder(&self) -> PortFactorySubscriber<G>
        ensures { result ≡ record { settings = default_subscriber_settings self.now.config; box = None } }
    {
        PortFactorySubscriber::with_settings_of(self.state.config())
    }
}
