//! A publisher and a subscriber as numbers.
ghost use Rattle.std.specs.Prelude.{◌≡◌, IfNone, IfSome};

use crate::domain::Domain;
use crate::parts::hints::find_open_subscriber;
use crate::parts::{PublisherParts, SubscriberParts};
use crate::publisher::Publisher;
use crate::subscriber::Subscriber;
use iox2_machine::{BackpressureFn, DegradationFn, UniquePublisherId, UniqueSubscriberId};

impl Publisher {
    ghost use Rattle.iox2_pubsub.specs.Parts.{publisher_parts};

    /// The publisher's numbers. Consumes its handle; the domain keeps the publisher. This
    /// library's own.
    pub fn into_parts(self) -> PublisherParts
        ensures { result ≡ publisher_parts self }
    {
        let Publisher {
            service_id,
            id,
            place,
            strategy,
            initial_max_slice_len,
        } = self;
        PublisherParts {
            service_id,
            id: id.value(),
            place,
            strategy,
            initial_max_slice_len,
        }
    }
}

impl<T: Drop, U: Default + Drop, F: BackpressureFn, G: DegradationFn> Domain<T, U, F, G> {
    ghost use Rattle.iox2_pubsub.specs.Live.{IsPlacedPublisher, IsPublisherKey, publisher_key};
    ghost use Rattle.iox2_pubsub.specs.Parts.{publisher_named, publisher_parts};

    /// A handle of the publisher with these numbers, and `None` if this domain has none that
    /// wasn't closed. If the publisher stands at another place than they say, the handle says where.
    /// This library's own.
    pub fn publisher_of(&self, parts: &PublisherParts) -> Option<Publisher>
        ensures live { IfSome result (λ publisher. IsPublisherKey self.now (publisher_key publisher)) }
        ensures placed { IfSome result (λ publisher. IsPlacedPublisher self.now publisher) }
        ensures named { IfSome result (λ publisher. record (publisher_parts publisher) { place = parts.now.place } ≡ parts.now) }
        ensures none { IfNone result (IsPublisherKey self.now (publisher_named parts.now) → ⊥) }
    {
        if parts.service_id != self.state.config().service_id {
            return None;
        }
        let id = UniquePublisherId::new(parts.id);
        let Some(place) = self.state.find_publisher(id, parts.place) else {
            return None;
        };
        Some(Publisher {
            service_id: parts.service_id,
            id,
            place,
            strategy: parts.strategy,
            initial_max_slice_len: parts.initial_max_slice_len,
        })
    }
}

impl Subscriber {
    ghost use Rattle.iox2_pubsub.specs.Parts.{subscriber_parts};

    /// The subscriber's numbers. Consumes its handle; the domain keeps the subscriber. This
    /// library's own.
    pub fn into_parts(self) -> SubscriberParts
        ensures { result ≡ subscriber_parts self }
    {
        let Subscriber {
            service_id,
            id,
            place,
            buffer_size,
        } = self;
        SubscriberParts {
            service_id,
            id: id.value(),
            place,
            buffer_size,
        }
    }
}

impl<T: Drop, U: Default + Drop, F: BackpressureFn, G: DegradationFn> Domain<T, U, F, G> {
    ghost use Rattle.iox2_pubsub.specs.Live.{IsLiveSubscriber, IsSubscriberKey};
    ghost use Rattle.iox2_pubsub.specs.Parts.{subscriber_named, subscriber_parts};

    /// A handle of the subscriber with these numbers, and `None` if this domain has none that
    /// wasn't closed. If the subscriber stands at another place than they say, the handle says
    /// where. This library's own.
    pub fn subscriber_of(&self, parts: &SubscriberParts) -> Option<Subscriber>
        ensures live { IfSome result (λ subscriber. IsLiveSubscriber self.now subscriber) }
        ensures named { IfSome result (λ subscriber. record (subscriber_parts subscriber) { place = parts.now.place } ≡ parts.now) }
        ensures none { IfNone result (IsSubscriberKey self.now (subscriber_named parts.now) → ⊥) }
    {
        if parts.service_id != self.state.config().service_id {
            return None;
        }
        let id = UniqueSubscriberId::new(parts.id);
        let Some(place) = find_open_subscriber(&self.state, id, parts.place) else {
            return None;
        };
        Some(Subscriber {
            service_id: parts.service_id,
            id,
            place,
            buffer_size: parts.buffer_size,
        })
    }
}
