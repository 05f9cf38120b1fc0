//! What is in a domain while messages pass through it.
ghost use Rattle.std.specs.Prelude.{◌≡◌, IfSome};

use iox2_pubsub::{ServiceConfig, TypeVariant};

/// What is in a domain while messages pass through it.
#[repr(C)]
pub struct Load {
    /// How many publishers there are beside the one that sends.
    pub idle_publishers: usize,
    /// How many subscribers receive each message.
    pub subscribers: usize,
    /// How many loans of the publisher are out.
    pub loans: usize,
    /// How many messages each subscriber has borrowed.
    pub samples: usize,
    /// How many messages of a publisher may wait for a subscriber.
    pub buffer_size: usize,
    /// How many of its last messages the publisher keeps for late subscribers.
    pub history_size: usize,
    /// How many subscribers never receive. Each message that is sent displaces their oldest one.
    pub idle_subscribers: usize,
}

impl Load {
    /// The settings of a domain that takes this load and one message more. `None` where a number is
    /// the greatest that there is.
    pub fn config(&self) -> Option<ServiceConfig>
        ensures variant { IfSome result (λ config. config.variant ≡ TypeVariant.FixedSize) }
        ensures units { IfSome result (λ config. config.units_per_element ≡ 1) }
    {
        Some(ServiceConfig {
            max_publishers: self.idle_publishers.checked_add(1)?,
            max_subscribers: self.subscribers.checked_add(self.idle_subscribers)?,
            subscriber_max_buffer_size: self.buffer_size,
            subscriber_max_borrowed_samples: self.samples.checked_add(1)?,
            publisher_max_loaned_samples: self.loans.checked_add(1)?,
            history_size: self.history_size,
            enable_safe_overflow: self.idle_subscribers != 0,
            ..ServiceConfig::new(1)
        })
    }
}
