//! The factory of subscribers, of single values and of slices.
ghost use Rattle.std.specs.Prelude.{◌≡◌, ◌≤◌, ℕ, None, Some, IfOk, MatchResult};
ghost use Rattle.iox2_machine.specs.declared.degradation.DegradationAction.TheVariants.{Warn};
ghost use Rattle.iox2_domain.specs.Boxes.{answers_of};
ghost use Rattle.iox2_machine.specs.machine.Records.{Fixed};
ghost use Rattle.iox2_machine.specs.machine.Ports.{default_subscriber_settings, buffer_for, CreateSubscriber};
ghost use Rattle.iox2_machine.specs.machine.State.{State, Messages};
ghost use Rattle.iox2_machine.specs.machine.Limits.{expired_limit};
ghost use Rattle.iox2_pubsub.specs.BorrowsLeft.{HasBorrowsLeft};
ghost use Rattle.iox2_pubsub.specs.Live.{HasItsBuffer, HasRoomFor, IsLiveSubscriber, IsNewIn, subscriber_box};
ghost use Rattle.iox2_pubsub.specs.Live.{subscriber_port, waiting, IsAwaited, NoneRefused, IsPublisherKey};
ghost use Rattle.iox2_pubsub.specs.Live.{publisher_key};
ghost use Rattle.iox2_pubsub.specs.Leaves.{Leaves};
ghost use Rattle.iox2_pubsub.specs.Factories.{receiver_with_degradation};
ghost use Rattle.iox2_domain.specs.Shows.{Shows};

use crate::domain::Domain;
use crate::port_factory::degradations::{box_in, mark_of};
use crate::port_factory::handles::PortHandle;
use crate::subscriber::Subscriber;
use iox2_domain::{HandlerMark, SubscriberOptions};
use iox2_machine::{
    BackpressureFn, DegradationAction, DegradationFn, DegradationHandler, ServiceConfig,
    SubscriberCreateError,
};
use iox2_ports::create_subscriber;
use std::marker::{Model, PhantomData};

/// Makes a subscriber. It begins with the largest buffer that the domain allows.
///
/// Example (`crates/slow_display/src/main.rt`):
///
/// ```rust
/// let display = domain.subscriber_builder().create(&mut domain)?;
/// let outcome = run(&rt, &mut domain, &display, patience);
/// display.close(&mut domain);
/// outcome
/// ```
///
/// iceoryx2's `PortFactorySubscriber` (`src/service/port_factory/subscriber.rs`).
#[derive(Drop)]
pub struct PortFactorySubscriber<G = Box<dyn DegradationFn>, H = Subscriber> {
    options: SubscriberOptions,
    // What answers where it can't make a connection, where that is a box.
    degradation_box: Option<G>,
    makes: PhantomData<H>,
}

impl<G, H> Model for PortFactorySubscriber<G, H> {
    ghost use Rattle.iox2_domain.specs.SubscriberEntry.{asked_for};
    ghost use Rattle.iox2_pubsub.specs.Factories.{SubscriberFactory};

    ghost Value = { SubscriberFactory G };

    ghost view = { λ factory. record { settings = asked_for factory.options; box = factory.degradation_box } };
}

impl<G, H> PortFactorySubscriber<G, H> {
    // A factory that was told nothing yet, in a domain with these settings.
    pub(crate) fn with_settings_of(config: &ServiceConfig) -> Self
        ensures { result ≡ record { settings = default_subscriber_settings config.now; box = None } }
    {
        PortFactorySubscriber {
            options: SubscriberOptions {
                buffer_size: config.subscriber_max_buffer_size.max(1),
                degradation: HandlerMark::Fixed(DegradationAction::Warn),
            },
            degradation_box: None,
            makes: PhantomData,
        }
    }
}

impl<G: DegradationFn, H: PortHandle<Subscriber>> PortFactorySubscriber<G, H> {
    ghost use Rattle.iox2_pubsub.specs.Handles.{buffer_size_of, publisher_id, subscriber_id};
    ghost use Rattle.iox2_pubsub.specs.declared.publisher.Publisher.{Publisher};

    /// Sets how many messages of one publisher may wait for the subscriber. Here 0 counts as 1.
    ///
    /// iceoryx2's `PortFactorySubscriber::buffer_size` (`src/service/port_factory/subscriber.rs`).
    pub fn buffer_size(mut self, value: usize) -> Self
        ensures { result ≡ record self { settings = record (self.settings) { buffer_size = value } } }
    {
        self.options.buffer_size = value;
        self
    }

    /// Sets what answers if memory for a connection with a publisher is refused: the subscriber
    /// goes on without it, or the domain warns of it too, as by default, or the call fails. A handler
    /// that is a box goes with the subscriber to the domain, which keeps it until the subscriber is
    /// closed.
    ///
    /// iceoryx2's `PortFactorySubscriber::set_degradation_handler`
    /// (`src/service/port_factory/subscriber.rs`).
    pub fn set_degradation_handler(mut self, handler: DegradationHandler<G>) -> Self
        ensures { result ≡ receiver_with_degradation self handler }
    {
        self.options.degradation = mark_of(&handler);
        self.degradation_box = box_in(handler);
        self
    }

    /// A factory with the same settings, which makes subscribers without a handler: if memory for
    /// a connection is refused, the domain warns of it.
    ///
    /// iceoryx2's `PortFactorySubscriber::__internal_partial_clone`
    /// (`src/service/port_factory/subscriber.rs`).
    pub fn internal_partial_clone(&self) -> Self
        ensures { result ≡ record { settings = record (self.now.settings) { degradation_handler = Fixed Warn }; box = None } }
    {
        PortFactorySubscriber {
            options: SubscriberOptions {
                degradation: HandlerMark::Fixed(DegradationAction::Warn),
                ..self.options
            },
            degradation_box: None,
            makes: PhantomData,
        }
    }

    /// Makes the subscriber in the domain, with the next id at the lowest free place, and connects
    /// it with the publishers that are there. Every publisher is then due for an update. If
    /// memory for a connection is refused, the subscriber's handler says whether the domain warns of
    /// it; if the handler fails the call, the subscriber is made, and the domain warns of that. It
    /// also warns if it keeps more departed publishers for the subscriber than its settings say.
    ///
    /// Fails with `UnableToCreatePortTag` if the domain has no port ids left, then with
    /// `BufferSizeExceedsMaxSupportedBufferSizeOfService` if the buffer is larger than the domain
    /// allows, then with `ExceedsMaxSupportedSubscribers` if there are as many subscribers as it
    /// allows, then with `FailedToDeployThreadsafetyPolicy` if memory for the subscriber or its box
    /// is refused. A failure leaves the domain as it was, and uses up no id.
    ///
    /// iceoryx2's `PortFactorySubscriber::create` (`src/service/port_factory/subscriber.rs`) and
    /// `Subscriber::new` (`src/port/subscriber.rs`).
    pub fn create<T: Drop, U: Default + Drop, F: BackpressureFn>(
        self,
        domain: &mut Domain<T, U, F, G>,
    ) -> Result<H, SubscriberCreateError>
        ensures creates { (m : Messages T U) (s : State T U) → Shows domain.old m s → (s' : State T U) × Shows domain.new m s' × MatchResult result
            (λ subscriber. CreateSubscriber (answers_of F.allows G.allows (domain.new.boxes).subscribers) s
            self.settings s' None × (subscriber_id (H.as_port subscriber) ≡ s.next_port)
            × (buffer_size_of (H.as_port subscriber) ≡ buffer_for self.settings))
            (λ error. CreateSubscriber (answers_of F.allows G.allows (domain.new.boxes).subscribers) s self.settings s' (Some error)) }
        ensures live { IfOk result (λ subscriber. IsLiveSubscriber domain.new (H.as_port subscriber)) }
        ensures buffer { IfOk result (λ subscriber. HasItsBuffer domain.new (H.as_port subscriber)) }
        ensures boxed { IfOk result (λ subscriber. subscriber_box domain.new (subscriber_id (H.as_port subscriber)) ≡ self.box) }
        ensures new { IfOk result (λ subscriber. IsNewIn domain.old (subscriber_port (H.as_port subscriber))) }
        ensures none { IfOk result (λ subscriber. waiting domain.new (H.as_port subscriber) ≡ 0) }
        ensures borrows { IfOk result (λ subscriber. HasBorrowsLeft domain.new (H.as_port subscriber) (domain.old.config).subscriber_max_borrowed_samples) }
        ensures awaits { IfOk result (λ subscriber. NoneRefused domain.old domain.new → (publisher : Publisher)
            → IsPublisherKey domain.old (publisher_key publisher)
            → IsAwaited domain.new (publisher_id publisher) (H.as_port subscriber)) }
        ensures room { IfOk result (λ subscriber. (closes : ℕ) → closes ≤ expired_limit domain.old.config
            → HasRoomFor domain.new (H.as_port subscriber) closes) }
        ensures leaves { Leaves domain.old domain.new }
    {
        let service_id = domain.state.config().service_id;
        let options = self.options;
        let port = create_subscriber(
            &mut domain.state,
            &mut domain.subscriber_boxes,
            &options,
            self.degradation_box,
        )?;
        Ok(H::of_port(Subscriber {
            service_id,
            id: port.id,
            place: port.place,
            buffer_size: options.buffer_size.max(1),
        }))
    }
}

impl<T: Drop, U: Default + Drop, F: BackpressureFn, G: DegradationFn> Domain<T, U, F, G> {
    /// A factory of subscribers, with the largest buffer that the domain allows.
    ///
    /// iceoryx2's `subscriber_builder` of a service's factory of ports.
    pub fn subscriber_builder(&self) -> PortFactorySubscriber<G>
        ensures { result ≡ record { settings = default_subscriber_settings self.now.config; box = None } }
    {
        PortFactorySubscriber::with_settings_of(self.state.config())
    }
}
