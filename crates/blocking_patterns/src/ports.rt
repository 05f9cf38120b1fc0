//! What each pattern starts from: a service in which a publisher waits at a full buffer.
ghost use Rattle.std.specs.Prelude.{◌≡◌, IfOk, OnOk};
ghost use Rattle.iox2_pubsub.specs.Domains.{FixedSize};
ghost use Rattle.iox2_pubsub.specs.BorrowsLeft.{BorrowsLeftStay, HasBorrowsLeftOf};
ghost use Rattle.iox2_pubsub.specs.Handles.{publisher_id};
ghost use Rattle.iox2_pubsub.specs.Live.{IsConnected, IsReadyPublisher, IsSubscriberKey, RoomStays, Stays};
ghost use Rattle.iox2_pubsub.specs.Live.{subscriber_key};
ghost use Rattle.iox2_pubsub.specs.declared.subscriber.Subscriber.{Subscriber as Port};

use crate::failure::Failure;
use iox2_pubsub::{Publisher, ServiceConfig};
use message_patterns::Numbers;

/// The settings of a service with so many subscribers, for which two messages of each publisher may wait, and which
/// hold one at a time.
pub fn settings(service_id: u128, subscribers: usize) -> ServiceConfig
    ensures variant { result.variant ≡ FixedSize }
    ensures units { result.units_per_element ≡ 1 }
    ensures borrows { result.subscriber_max_borrowed_samples ≡ 1 }
    ensures subscribers { result.max_subscribers ≡ subscribers }
{
    ServiceConfig {
        max_publishers: 2,
        max_subscribers: subscribers,
        subscriber_max_buffer_size: 2,
        subscriber_max_borrowed_samples: 1,
        enable_safe_overflow: false,
        ..ServiceConfig::new(service_id)
    }
}

/// Makes a publisher that is connected with all subscribers, and waits where one is full.
pub fn connected_publisher(domain: &mut Numbers) -> Result<Publisher, Failure>
    ensures ready { IfOk result (λ it. IsReadyPublisher domain.new it) }
    ensures connected { IfOk result (λ it. (subscriber : Port) → IsSubscriberKey domain.old (subscriber_key subscriber)
        → IsConnected domain.new (publisher_id it) subscriber) }
    ensures borrows { OnOk result (BorrowsLeftStay domain.old domain.new) }
    ensures unborrowed { IfOk result (λ it. (subscriber : Port) → HasBorrowsLeftOf domain.new (publisher_id it) subscriber
        (domain.old.config).subscriber_max_borrowed_samples) }
    ensures room { OnOk result (RoomStays domain.old domain.new) }
    ensures stays { Stays domain.old domain.new }
{
    let refused = domain.refused_connections();
    let publisher = domain.publisher_builder().create(domain)?;
    if refused < u64::MAX && domain.refused_connections() == refused {
        return Ok(publisher);
    }
    publisher.close(domain);
    Err(Failure::Unconnected)
}
