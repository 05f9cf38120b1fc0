//! The factory of publishers, of single values and of slices.
ghost use Rattle.std.specs.Prelude.{◌≡◌, ◌≤◌, None, Some, IfOk, OnErr, MatchResult};
ghost use Rattle.iox2_machine.specs.declared.degradation.DegradationAction.TheVariants.{Warn};
ghost use Rattle.iox2_domain.specs.Boxes.{answers_of};
ghost use Rattle.iox2_machine.specs.machine.Records.{Fixed};
ghost use Rattle.iox2_machine.specs.machine.Limits.{worst_case};
ghost use Rattle.iox2_machine.specs.machine.Ports.{CreatePublisher, slots_for};
ghost use Rattle.iox2_machine.specs.machine.State.{State, Messages};
ghost use Rattle.iox2_pubsub.specs.Leaves.{LeavesNoFewer};
ghost use Rattle.iox2_pubsub.specs.Live.{WaitingStays};
ghost use Rattle.iox2_pubsub.specs.LoansLeft.{HasLoansLeft, LendsFirst};
ghost use Rattle.iox2_pubsub.specs.MadePublishers.{IsMadePublisher};
ghost use Rattle.iox2_domain.specs.NewPublisher.{plain_publisher};
ghost use Rattle.iox2_connections.specs.Handlers.{marks_of};
ghost use Rattle.iox2_ports.specs.Handlers.{custom_box};
ghost use Rattle.iox2_ports.specs.Settings.{settings_with};
ghost use Rattle.iox2_pubsub.specs.Factories.{with_callback, with_degradation, with_handler};
ghost use Rattle.iox2_domain.specs.Shows.{Shows};
ghost use Rattle.iox2_pubsub.specs.Handles.{publisher_id};

mod overridden;

use crate::domain::Domain;
use crate::port_factory::degradations::{box_in, mark_of};
use crate::port_factory::handles::PortHandle;
use crate::port_factory::preallocation::{NoOverride, PreallocatedSamplesOverride, SlotSettings};
use crate::publisher::Publisher;
use crate::slice;
use iox2_domain::{HandlerMark, PublisherOptions};
use iox2_machine::{
    AllocationStrategy, BackpressureFn, BackpressureHandler, BackpressureStrategy,
    DegradationAction, DegradationFn, DegradationHandler, PublisherCreateError, ServiceConfig,
};
use iox2_ports::{SegmentOptions, create_publisher};
use std::marker::{Model, PhantomData};

/// Makes a publisher. It begins with the loans that the domain's settings allow a publisher, and with
/// their strategy. Its memory is to grow as they say.
///
/// Example (`crates/thermometer/src/main.rt`):
///
/// ```rust
/// let indoors = domain
///     .publisher_builder()
///     .max_loaned_samples(2)
///     .backpressure_strategy(BackpressureStrategy::DiscardData)
///     .create(domain)?;
/// let outcome = report_both(rt, domain, &indoors, subscriber);
/// indoors.close(domain);
/// outcome
/// ```
///
/// iceoryx2's `PortFactoryPublisher` (`src/service/port_factory/publisher.rs`).
#[derive(Drop)]
pub struct PortFactoryPublisher<
    F = Box<dyn BackpressureFn>,
    G = Box<dyn DegradationFn>,
    O = NoOverride,
    H = Publisher,
> {
    slots: SlotSettings<O>,
    options: PublisherOptions,
    backpressure_handler: Option<BackpressureHandler<F>>,
    // What answers where it can't make a connection, where that is a box.
    degradation_box: Option<G>,
    makes: PhantomData<H>,
}

impl<F, G, O, H> Model for PortFactoryPublisher<F, G, O, H> {
    ghost use Rattle.iox2_domain.specs.NewPublisher.{static_publisher};
    ghost use Rattle.iox2_connections.specs.Handlers.{marks_of};
    ghost use Rattle.iox2_ports.specs.Handlers.{custom_box};
    ghost use Rattle.iox2_pubsub.specs.Factories.{PublisherFactory};

    ghost Value = { PublisherFactory F G O };

    ghost view = { λ factory. record {
      settings = record (static_publisher factory.options (marks_of factory.backpressure_handler)) { allocation_strategy = factory.slots.allocation };
      box = custom_box factory.backpressure_handler;
      degradation_box = factory.degradation_box;
      preallocated = factory.slots.preallocated;
    } };
}

impl<T: Drop, U: Default + Drop, F: BackpressureFn, G: DegradationFn> Domain<T, U, F, G> {
    /// A factory of publishers, with as many loans as the domain's settings allow a publisher, and
    /// with their strategy.
    ///
    /// iceoryx2's `publisher_builder` of a service's factory of ports.
    pub fn publisher_builder(&self) -> PortFactoryPublisher<F, G>
        ensures { result ≡ record {
          settings = record
              (plain_publisher (self.now.config).publisher_max_loaned_samples (self.now.config).backpressure_strategy 1)
              { allocation_strategy = (self.now.config).publisher_allocation_strategy };
          box = None;
          degradation_box =
              None;
          preallocated = record {};
        } }
    {
        PortFactoryPublisher::with_settings_of(self.state.config())
    }
}

impl<F, G, H> PortFactoryPublisher<F, G, NoOverride, H> {
    // A factory that was told nothing yet, in a domain with these settings.
    pub(crate) fn with_settings_of(config: &ServiceConfig) -> Self
        ensures { result ≡ record {
          settings = record
              (plain_publisher (config.now).publisher_max_loaned_samples (config.now).backpressure_strategy 1)
              { allocation_strategy = (config.now).publisher_allocation_strategy };
          box = None;
          degradation_box = None;
          preallocated = record {};
        } }
    {
        PortFactoryPublisher {
            slots: SlotSettings {
                allocation: config.publisher_allocation_strategy,
                preallocated: NoOverride,
            },
            options: PublisherOptions {
                max_loaned_samples: config.publisher_max_loaned_samples,
                strategy: config.backpressure_strategy,
                degradation: HandlerMark::Fixed(DegradationAction::Warn),
                initial_max_slice_len: 1,
            },
            backpressure_handler: None,
            degradation_box: None,
            makes: PhantomData,
        }
    }
}

impl<F: BackpressureFn, G: DegradationFn, O: Drop, H> PortFactoryPublisher<F, G, O, H> {
    /// Sets how many loans of the publisher may be out at a time, 0 or more.
    ///
    /// iceoryx2's `PortFactoryPublisher::max_loaned_samples`
    /// (`src/service/port_factory/publisher.rs`).
    pub fn max_loaned_samples(mut self, value: usize) -> Self
        ensures { result ≡ record self { settings = record (self.settings) { max_loaned_samples = value } } }
    {
        self.options.max_loaned_samples = value;
        self
    }

    /// Sets what the publisher does if the buffer of a subscriber is full and the service doesn't
    /// overflow: the send is blocked, or the subscriber doesn't get the message.
    ///
    /// iceoryx2's `PortFactoryPublisher::backpressure_strategy`
    /// (`src/service/port_factory/publisher.rs`).
    pub fn backpressure_strategy(mut self, value: BackpressureStrategy) -> Self
        ensures { result ≡ record self { settings = record (self.settings) { backpressure_strategy = value } } }
    {
        self.options.strategy = value;
        self
    }

    /// Sets what answers if the buffer of a subscriber is full and the service doesn't overflow,
    /// in place of the strategy: the send is blocked, or the subscriber doesn't get the message, and
    /// then the send may fail. A handler that is a box goes with the publisher to the domain, which
    /// keeps it until the publisher is closed.
    ///
    /// iceoryx2's `PortFactoryPublisher::set_backpressure_handler`
    /// (`src/service/port_factory/publisher.rs`).
    pub fn set_backpressure_handler(mut self, handler: BackpressureHandler<F>) -> Self
        ensures { result ≡ with_handler self handler }
    {
        self.backpressure_handler = Some(handler);
        self
    }

    /// Sets what answers if memory for a connection with a subscriber is refused: the publisher
    /// goes on without it, or the domain warns of it too, as by default, or the call fails. A handler
    /// that is a box goes with the publisher to the domain, which keeps it until the publisher is closed.
    ///
    /// iceoryx2's `PortFactoryPublisher::set_degradation_handler`
    /// (`src/service/port_factory/publisher.rs`).
    pub fn set_degradation_handler(mut self, handler: DegradationHandler<G>) -> Self
        ensures { result ≡ with_degradation self handler }
    {
        self.options.degradation = mark_of(&handler);
        self.degradation_box = box_in(handler);
        self
    }

    /// Sets how the memory of the publisher grows. A static one refuses a loan that is too long, or
    /// if each of its slots is in use; any other makes further slots for it, up to 254 times.
    ///
    /// iceoryx2's `PortFactoryPublisher::allocation_strategy`
    /// (`src/service/port_factory/publisher.rs`), which is of slices alone.
    pub fn allocation_strategy(mut self, value: AllocationStrategy) -> Self
        ensures { result ≡ record self { settings = record (self.settings) { allocation_strategy = value } } }
    {
        self.slots.allocation = value;
        self
    }

    /// Sets the closure that says how many slots the publisher gets. It is given the worst case, with
    /// which no loan ever lacks a slot. The publisher gets the number that it answers, but no more
    /// than the worst case, and at least one if that isn't none.
    ///
    /// iceoryx2's `PortFactoryPublisher::override_sample_preallocation`
    /// (`src/service/port_factory/publisher.rs`).
    pub fn override_sample_preallocation<P: Fn(usize) -> usize + Drop>(
        self,
        callback: P,
    ) -> PortFactoryPublisher<F, G, PreallocatedSamplesOverride<P>, H>
        ensures { result ≡ with_callback self callback }
    {
        PortFactoryPublisher {
            slots: SlotSettings {
                allocation: self.slots.allocation,
                preallocated: PreallocatedSamplesOverride { callback },
            },
            options: self.options,
            backpressure_handler: self.backpressure_handler,
            degradation_box: self.degradation_box,
            makes: self.makes,
        }
    }

    /// A factory with the same settings, which makes publishers without handlers, and with the worst
    /// case of slots: if memory for a connection is refused, the domain warns of it.
    ///
    /// iceoryx2's `PortFactoryPublisher::__internal_partial_clone`
    /// (`src/service/port_factory/publisher.rs`).
    pub fn internal_partial_clone(&self) -> PortFactoryPublisher<F, G, NoOverride, H>
        ensures { result ≡ record {
          settings = record (self.now.settings)
              { degradation_handler = Fixed Warn; backpressure_handler = None };
          box = None;
          degradation_box = None;
          preallocated = record {};
        } }
    {
        PortFactoryPublisher {
            slots: SlotSettings {
                allocation: self.slots.allocation,
                preallocated: NoOverride,
            },
            options: PublisherOptions {
                degradation: HandlerMark::Fixed(DegradationAction::Warn),
                ..self.options
            },
            backpressure_handler: None,
            degradation_box: None,
            makes: PhantomData,
        }
    }
}

impl<F: BackpressureFn, G: DegradationFn, O: Drop> PortFactoryPublisher<F, G, O, slice::Publisher> {
    /// Sets for how many elements each of the publisher's first slots has room, 0 or more. A loan of a
    /// static publisher has no more.
    ///
    /// iceoryx2's `PortFactoryPublisher::initial_max_slice_len`
    /// (`src/service/port_factory/publisher.rs`).
    pub fn initial_max_slice_len(mut self, value: usize) -> Self
        ensures { result ≡ record self { settings = record (self.settings) { initial_max_slice_len = value } } }
    {
        self.options.initial_max_slice_len = value;
        self
    }
}

impl<F: BackpressureFn, G: DegradationFn, H: PortHandle<Publisher>> PortFactoryPublisher<
    F,
    G,
    NoOverride,
    H,
> {
    /// Makes the publisher, with the next id at the lowest free place, and connects it with the
    /// subscribers that there are. Each of its first slots has room for the longest loan that the
    /// factory was told of. Every subscriber is then due for an update. If memory for a
    /// connection is refused, the publisher's handler says whether the domain warns of it; if the
    /// handler fails the call, the publisher is made, and the domain warns of that.
    ///
    /// Fails, in this order, with `UnableToCreatePortTag` if the domain has no ids left, with
    /// `ExceedsMaxSupportedPublishers` if as many publishers are open as may be, with
    /// `UnableToCreateDataSegment` if the number of slots or their size doesn't fit `usize`.
    /// After these, if memory is refused: with `UnableToCreateDataSegment` if it was for the
    /// slots, with `FailedToDeployThreadsafetyPolicy` if it was for the publisher's state or its boxes.
    /// No id is then used, and the domain stays as it is.
    ///
    /// iceoryx2's `PortFactoryPublisher::create` (`src/service/port_factory/publisher.rs`) and
    /// `Publisher::new` (`src/port/publisher.rs`).
    pub fn create<T: Drop, U: Default + Drop>(
        self,
        domain: &mut Domain<T, U, F, G>,
    ) -> Result<H, PublisherCreateError>
        ensures creates { (m : Messages T U) (s : State T U) → Shows domain.old m s → (s' : State T U) × Shows domain.new m s'
            × MatchResult result
            (λ publisher. (publisher_id (H.as_port publisher) ≡ s.next_port)
            × CreatePublisher (answers_of F.allows G.allows (domain.new.boxes).publishers) s self.settings s'
            None)
            (λ e. CreatePublisher (answers_of F.allows G.allows (domain.new.boxes).publishers) s self.settings s' (Some e)) }
        ensures made { IfOk result (λ publisher. IsMadePublisher self.settings self.box self.degradation_box (H.as_port publisher) domain.old domain.new) }
        ensures left { LendsFirst (domain.old.config) self.settings
            → IfOk result (λ publisher. HasLoansLeft domain.new (H.as_port publisher)
            self.settings.max_loaned_samples) }
        ensures refused { OnErr result (WaitingStays domain.old domain.new) }
        ensures leaves { LeavesNoFewer domain.old domain.new }
    {
        let segments = SegmentOptions {
            allocation: self.slots.allocation,
            asked_slots: None,
        };
        let options = self.options;
        let boxed = self.degradation_box;
        match create_plain(domain, &options, self.backpressure_handler, boxed, segments) {
            Ok(publisher) => Ok(H::of_port(publisher)),
            Err(error) => Err(error),
        }
    }
}

// Makes a publisher with these options and segments, which answers full buffers so, and refused
// connections by this box, where there is one.
pub(crate) fn create_plain<T: Drop, U: Default + Drop, F: BackpressureFn, G: DegradationFn>(
    domain: &mut Domain<T, U, F, G>,
    given: &PublisherOptions,
    handler: Option<BackpressureHandler<F>>,
    degradation: Option<G>,
    segments: SegmentOptions,
) -> Result<Publisher, PublisherCreateError>
    ensures creates { (m : Messages T U) (s : State T U) → Shows domain.old m s → (s' : State T U) × Shows domain.new m s'
        × MatchResult result
        (λ publisher. (publisher_id publisher ≡ s.next_port)
        × CreatePublisher (answers_of F.allows G.allows (domain.new.boxes).publishers) s
        (settings_with given.now (marks_of handler) segments) s' None)
        (λ e. CreatePublisher (answers_of F.allows G.allows (domain.new.boxes).publishers) s
        (settings_with given.now (marks_of handler) segments) s' (Some e)) }
    ensures made { IfOk result (λ publisher. IsMadePublisher (settings_with given.now (marks_of handler) segments)
        (custom_box handler) degradation publisher domain.old domain.new) }
    ensures left { worst_case (domain.old.config) given.now.max_loaned_samples ≤ slots_for (domain.old.config)
        (settings_with given.now (marks_of handler) segments)
        → LendsFirst (domain.old.config) (settings_with given.now (marks_of handler) segments)
        → IfOk result (λ publisher. HasLoansLeft domain.new publisher given.now.max_loaned_samples) }
    ensures refused { OnErr result (WaitingStays domain.old domain.new) }
    ensures leaves { LeavesNoFewer domain.old domain.new }
{
    let service_id = domain.state.config().service_id;
    let port = create_publisher(
        &mut domain.state,
        &mut domain.boxes,
        given,
        handler,
        degradation,
        segments,
    )?;
    Ok(Publisher {
        service_id,
        id: port.id,
        place: port.place,
        strategy: given.strategy,
        initial_max_slice_len: given.initial_max_slice_len,
    })
}
