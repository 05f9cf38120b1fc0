//! A domain: all ports of a service, and what lies between them.
ghost use Rattle.std.specs.Prelude.{◌≡◌, IfOk};
ghost use Rattle.std.specs.List.{count_by};
ghost use Rattle.std.specs.Option.{is_some};
ghost use Rattle.circular_buffer.specs.Buffer.{buffer};
ghost use Rattle.iox2_machine.specs.machine.Limits.{warning_limit};
ghost use Rattle.iox2_machine.specs.machine.State.{Messages};
ghost use Rattle.iox2_domain.specs.Kept.{state_of};
ghost use Rattle.iox2_domain.specs.Shows.{Shows};
ghost use Rattle.iox2_pubsub.specs.Live.{IsConsistent};
ghost use Rattle.iox2_pubsub.specs.NewDomains.{CarriesAs, IsNewDomain};

mod holds;

use circular_buffer::HeapCircularBuffer;
use iox2_domain::{Boxes, DomainState};
use iox2_machine::{
    BackpressureFn, DegradationFn, DomainCreateError, ServiceConfig, TypeVariant, Warning,
};
use std::alloc::Global;
use std::marker::Model;

/// A service and all of its ports, whose messages have payloads of `T` and user headers of `U`. Its
/// ports may have handlers of `F` for full buffers and of `G` for refused connections, by default
/// boxes.
///
/// Example (`crates/thermometer/src/main.rt`):
///
/// ```rust
/// let mut domain = Domain::<Reading, ()>::new(rt.alloc(), ServiceConfig::new(1))?;
/// let subscriber = domain.subscriber_builder().create(&mut domain)?;
/// let outcome = run(rt, &mut domain, &subscriber);
/// subscriber.close(&mut domain);
/// outcome
/// ```
///
/// This library's own, where iceoryx2 has a `Service` and shared memory.
#[derive(Drop)]
pub struct Domain<T, U, F = Box<dyn BackpressureFn>, G = Box<dyn DegradationFn>> {
    pub(crate) state: DomainState<T, U>,
    // Those of publishers.
    pub(crate) boxes: Boxes<F, G>,
    // Those of subscribers, which have some for refused connections alone.
    pub(crate) subscriber_boxes: Boxes<F, G>,
}

impl<T, U, F, G> Model for Domain<T, U, F, G> {
    ghost use Rattle.iox2_domain.specs.Kept.{Kept};
    ghost use Rattle.iox2_domain.specs.Fields.{keeping};
    ghost use Rattle.iox2_domain.specs.Invariant.{IsDomain};

    ghost Value = { Kept T U F G };

    ghost view = { λ domain. keeping (record { publishers = (domain.boxes).boxes; subscribers = (domain.subscriber_boxes).boxes }) domain.state };

    ghost invariant = { λ domain. IsDomain domain.state };
}

impl<T: Drop, U: Default + Drop> Domain<T, U> {
    /// A domain with these settings and no port, as in `Domain::new(alloc, ServiceConfig::new(7))`.
    /// Each message has one element in a domain of the variant `FixedSize`, and any number of them in
    /// one of `Dynamic`, whose ports are those of module `slice`.
    ///
    /// Fails with `DomainCreateError::OutOfMemory` if memory is refused.
    pub fn new(alloc: Global, config: ServiceConfig) -> Result<Self, DomainCreateError>
        ensures { IfOk result (IsNewDomain config) }
    {
        Self::with_handlers(alloc, config)
    }
}

impl<T: Drop, U: Default + Drop, F: BackpressureFn, G: DegradationFn> Domain<T, U, F, G> {
    /// As `new`, for a domain whose ports may have handlers of these types.
    ///
    /// Fails with `DomainCreateError::OutOfMemory` if memory is refused.
    pub fn with_handlers(alloc: Global, config: ServiceConfig) -> Result<Self, DomainCreateError>
        ensures { IfOk result (IsNewDomain config) }
    {
        let Ok(state) = DomainState::new(alloc, config) else {
            return Err(DomainCreateError::OutOfMemory);
        };
        Ok(Domain {
            state,
            boxes: Boxes::new(alloc),
            subscriber_boxes: Boxes::new(alloc),
        })
    }

    /// The domain's settings. A domain always shows some state, with some messages.
    pub fn config(&self) -> &ServiceConfig
        ensures value { result.now ≡ self.now.config }
        ensures carries { CarriesAs result.now self.now }
        ensures shown { (messages : Messages T U) × Shows self.now messages (state_of self.now) }
        ensures consistent { IsConsistent self.now }
    {
        self.state.config()
    }

    /// The last warnings, oldest first: 32 at most, since each one past that makes the domain forget
    /// the oldest. Reading them forgets none.
    ///
    /// This library's own, where iceoryx2 writes them to its log.
    pub fn warnings(&self) -> &HeapCircularBuffer<Warning>
        ensures { result.now ≡ buffer (self.now.warnings).latest warning_limit }
    {
        self.state.warnings.latest()
    }

    /// How often the allocation of a connection failed since the domain was made;
    /// `u64::MAX` says at least that often. The call in which that happened failed or went on without
    /// the connection, as the port's handler answered; no message goes through it until a later update
    /// makes it.
    ///
    /// This library's own, where iceoryx2 asks the degradation handler alone.
    pub fn refused_connections(&self) -> u64
        ensures { result ≡ (self.now.warnings).refused_connections }
    {
        self.state.refused_connections()
    }

    /// What the payload of each message is: a single value, or a slice.
    pub fn variant(&self) -> TypeVariant
        ensures { result ≡ (self.now.config).variant }
    {
        self.state.config().variant
    }

    /// How many connections the domain keeps. One whose ports are both closed goes with the last
    /// message that is borrowed there, and at once if none is.
    pub fn connection_count(&self) -> usize
        ensures { result ≡ count_by is_some self.now.connections }
    {
        self.state.connections.len()
    }

    /// How many books of slots the domain keeps: that of each publisher, and that of a closed one
    /// until nobody holds a slot of it.
    pub fn book_count(&self) -> usize
        ensures { result ≡ count_by is_some self.now.books }
    {
        self.state.books.len()
    }
}
