//! A struct owns a domain and its ports.
use crate::failure::Failure;
use crate::passing::pass;
use iox2_pubsub::{Domain, Publisher, Subscriber};
use std::marker::Model;

/// A domain with a publisher and a subscriber, which are live.
pub struct Station {
    domain: Domain<u32, ()>,
    publisher: Publisher,
    subscriber: Subscriber,
}

impl Model for Station {
    ghost use Rattle.iox2_pubsub.specs.Live.{IsLivePublisher, IsLiveSubscriber, IsSingleValued};

    ghost Value = { Unit {0} };

    ghost view = { λ station. tt };

    ghost invariant = { λ station. IsSingleValued station.domain × IsLivePublisher station.domain station.publisher
        × IsLiveSubscriber station.domain station.subscriber };
}

impl Station {
    /// Sends a reading, and receives the next that waits.
    pub fn pass(&mut self, celsius: u32) -> Result<Option<u32>, Failure> {
        pass(&mut self.domain, &self.publisher, &self.subscriber, celsius)
    }

    /// Closes both ports.
    pub fn close(self) {
        let Station {
            domain,
            publisher,
            subscriber,
        } = self;
        let mut domain = domain;
        publisher.close(&mut domain);
        subscriber.close(&mut domain);
    }
}
