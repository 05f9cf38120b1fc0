//! A subscriber.
ghost use Rattle.std.specs.Prelude.{◌≡◌};
ghost use Rattle.iox2_pubsub.specs.Live.{subscriber_key};

mod channels;
mod close;
mod has_samples;
mod receive;
mod update_connections;

use crate::domain::Domain;
use crate::keys::port_key;
use crate::parts::hints::find_open_subscriber;
use iox2_machine::{BackpressureFn, DegradationFn, Key, UniqueSubscriberId};

/// Receives the messages of every publisher of its domain. Must be consumed by `close`; until
/// then the domain keeps the subscriber.
///
/// Example (`crates/slow_display/src/display.rt`):
///
/// ```rust
/// while let Some(sample) = display.receive(domain)? {
///     let celsius = *sample.payload(domain);
///     sample.release(domain);
///     println!(rt; "{celsius} °C")?;
/// }
/// Ok(())
/// ```
///
/// iceoryx2's `port::subscriber::Subscriber` (`src/port/subscriber.rs`).
pub struct Subscriber {
    pub(crate) service_id: u128,
    pub(crate) id: UniqueSubscriberId,
    // Where the domain looks for it first.
    pub(crate) place: usize,
    pub(crate) buffer_size: usize,
}

impl Subscriber {
    ghost use Rattle.iox2_pubsub.specs.Handles.{buffer_size_of, subscriber_id};
    /// Names the subscriber among all ports of its domain.
    ///
    /// iceoryx2's `Subscriber::id` (`src/port/subscriber.rs`).
    pub fn id(&self) -> UniqueSubscriberId
        ensures { result ≡ subscriber_id self.now }
    {
        self.id
    }

    /// How many messages of one publisher may wait for the subscriber: 1 or more.
    ///
    /// iceoryx2's `Subscriber::buffer_size` (`src/port/subscriber.rs`).
    pub fn buffer_size(&self) -> usize
        ensures { result ≡ buffer_size_of self.now }
    {
        self.buffer_size
    }

    /// Names the subscriber without being its handle. This library's own.
    pub fn key(&self) -> Key
        ensures { result ≡ subscriber_key self.now }
    {
        port_key(self.service_id, self.id.value())
    }

    /// Consumes the handle of a subscriber whose domain is gone. A domain that is still there isn't
    /// told, and keeps the subscriber. This library's own.
    pub fn disown(self) {
        self.into_parts();
    }
}

impl Subscriber {
    ghost use Rattle.std.specs.Prelude.{IsTrue, ◌↔◌};
    ghost use Rattle.iox2_pubsub.specs.Live.{IsLiveSubscriber};

    /// Whether the subscriber is one of this domain's that wasn't closed. This library's own.
    pub fn is_in<T: Drop, U: Default + Drop, F: BackpressureFn, G: DegradationFn>(
        &self,
        domain: &Domain<T, U, F, G>,
    ) -> bool
        ensures { IsTrue result ↔ IsLiveSubscriber domain.now self.now }
    {
        if self.service_id != domain.state.config().service_id {
            return false;
        }
        match find_open_subscriber(&domain.state, self.id, self.place) {
            Some(place) => place == self.place,
            None => false,
        }
    }
}
