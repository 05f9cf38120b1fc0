//! A publisher.
ghost use Rattle.std.specs.Prelude.{◌≡◌};
ghost use Rattle.iox2_pubsub.specs.Live.{publisher_key};

mod channels;
mod close;
mod loan;
mod loan_default;
mod never_waits;
mod send_copy;
mod update_connections;

use crate::domain::Domain;
use crate::keys::port_key;
use iox2_machine::{BackpressureFn, BackpressureStrategy, DegradationFn, Key, UniquePublisherId};
use iox2_messages::is_waiting;

/// Sends messages to every subscriber of its domain. Must be consumed by `close`; until
/// then the domain keeps the publisher.
///
/// Example (`crates/thermometer/src/report.rt`):
///
/// ```rust
/// let first = publisher.loan_uninit(domain).unwrap();
/// let second = publisher.loan_uninit(domain).unwrap();
/// send_pair(domain, first, second, celsius, later)?;
/// ```
///
/// iceoryx2's `port::publisher::Publisher` (`src/port/publisher.rs`).
pub struct Publisher {
    pub(crate) service_id: u128,
    pub(crate) id: UniquePublisherId,
    // Where the domain looks for it first.
    pub(crate) place: usize,
    // What it does if a receiver is full.
    pub(crate) strategy: BackpressureStrategy,
    // How many elements a loan has at most: one in a domain of single values.
    pub(crate) initial_max_slice_len: usize,
}

impl Publisher {
    ghost use Rattle.iox2_pubsub.specs.Handles.{publisher_id, strategy_of};
    /// Names the publisher among all ports of its domain.
    ///
    /// iceoryx2's `Publisher::id` (`src/port/publisher.rs`).
    pub fn id(&self) -> UniquePublisherId
        ensures { result ≡ publisher_id self.now }
    {
        self.id
    }

    /// What the publisher does if the buffer of a subscriber is full and the service doesn't
    /// overflow.
    ///
    /// iceoryx2's `Publisher::backpressure_strategy` (`src/port/publisher.rs`).
    pub fn backpressure_strategy(&self) -> BackpressureStrategy
        ensures { result ≡ strategy_of self.now }
    {
        self.strategy
    }

    /// Names the publisher without being its handle. This library's own.
    pub fn key(&self) -> Key
        ensures { result ≡ publisher_key self.now }
    {
        port_key(self.service_id, self.id.value())
    }

    /// Consumes the handle of a publisher whose domain is gone. A domain that is still there isn't
    /// told, and keeps the publisher. This library's own.
    pub fn disown(self) {
        self.into_parts();
    }
}

impl Publisher {
    ghost use Rattle.std.specs.Prelude.{◌↔◌, false, IsTrue};
    ghost use Rattle.iox2_pubsub.specs.Live.{IsPlacedPublisher, IsPublisherKey, IsUnblocked};

    /// Whether the publisher is one of this domain's that wasn't closed. This library's own.
    pub fn is_in<T: Drop, U: Default + Drop, F: BackpressureFn, G: DegradationFn>(
        &self,
        domain: &Domain<T, U, F, G>,
    ) -> bool
        ensures { IsTrue result ↔ (IsPublisherKey domain.now (publisher_key self.now) × IsPlacedPublisher domain.now self.now) }
    {
        if self.service_id != domain.state.config().service_id {
            return false;
        }
        match domain.state.find_publisher(self.id, self.place) {
            Some(place) => place == self.place,
            None => false,
        }
    }

    /// Whether a send of the publisher is blocked. Until that has ended, the publisher lends, sends
    /// and updates nothing and can't be closed. This library's own.
    pub fn is_blocked<T: Drop, U: Default + Drop, F: BackpressureFn, G: DegradationFn>(
        &self,
        domain: &Domain<T, U, F, G>,
    ) -> bool
        requires live { IsPublisherKey domain.now (publisher_key self.now) }
        ensures { (result ≡ false) ↔ IsUnblocked domain.now (publisher_key self.now) }
    {
        is_waiting(&domain.state, self.id, self.place)
    }
}
