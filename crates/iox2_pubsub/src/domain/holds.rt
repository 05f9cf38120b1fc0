//! Which keys are those of what a domain has.
ghost use Rattle.std.specs.Prelude.{◌↔◌, IsTrue};
ghost use Rattle.iox2_domain.specs.Shows.{KeepsEntries};
ghost use Rattle.iox2_pubsub.specs.Live.{IsBlockedKey, IsLoanKey, IsPublisherKey, IsSampleKey, IsSubscriberKey};

use super::Domain;
use iox2_machine::{BackpressureFn, DegradationFn, Key, UniquePublisherId, UniqueSubscriberId};
use iox2_messages::has_blocked_send;

impl<T: Drop, U: Default + Drop, F: BackpressureFn, G: DegradationFn> Domain<T, U, F, G> {
    /// Whether the key is that of a publisher of this domain that wasn't closed. This library's
    /// own.
    #[tactic(auto, unfolding(crate::specs::Live::IsPublisherKey))]
    pub fn holds_publisher(&self, key: Key) -> bool
        ensures { IsTrue result ↔ IsPublisherKey self.now key }
    {
        if key.service_id != self.state.config().service_id || key.message != 0 {
            return false;
        }
        self.state.has_publisher(UniquePublisherId::new(key.port))
    }

    /// Whether the key is that of a subscriber of this domain that wasn't closed. This library's
    /// own.
    #[tactic(auto, unfolding(crate::specs::Live::IsSubscriberKey))]
    pub fn holds_subscriber(&self, key: Key) -> bool
        ensures { IsTrue result ↔ IsSubscriberKey self.now key }
    {
        if key.service_id != self.state.config().service_id || key.message != 0 {
            return false;
        }
        self.state
            .has_open_subscriber(UniqueSubscriberId::new(key.port))
    }

    /// Whether the key is that of a loan of this domain that is out: its message wasn't sent, nor
    /// was it given back. This library's own.
    #[tactic(auto, unfolding(crate::specs::Live::IsLoanKey))]
    pub fn holds_loan(&self, key: Key) -> bool
        ensures { IsTrue result ↔ IsLoanKey self.now key }
    {
        if key.service_id != self.state.config().service_id {
            return false;
        }
        self.state
            .has_loan(UniquePublisherId::new(key.port), key.message)
    }

    /// Whether the key is that of a send of this domain that is blocked, so that it may be tried again
    /// or given up. This library's own.
    #[tactic(auto, unfolding(crate::specs::Live::IsBlockedKey))]
    pub fn holds_blocked(&self, key: Key) -> bool
        ensures { IsTrue result ↔ IsBlockedKey self.now key }
    {
        if key.service_id != self.state.config().service_id {
            return false;
        }
        has_blocked_send(&self.state, UniquePublisherId::new(key.port), key.message)
    }

    /// Whether the key is that of a sample of this domain that wasn't released. Calls of the sample
    /// ask too that its handle says where the message lies, as a handle that `sample_of` makes does.
    /// From which publisher the message is borrowed, its header says. This library's own.
    #[tactic(auto, unfolding(crate::specs::Live::IsSampleKey))]
    pub fn holds_sample(&self, key: Key) -> bool
        ensures live { IsTrue result ↔ IsSampleKey self.now key }
        ensures entries { KeepsEntries self.now }
    {
        if key.service_id != self.state.config().service_id {
            return false;
        }
        self.state
            .has_sample(UniqueSubscriberId::new(key.port), key.message)
    }
}
