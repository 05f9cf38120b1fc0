//! What each pattern starts from: a publisher and the subscriber that gets what it sends.
ghost use Rattle.std.specs.Prelude.{◌≡◌, IfOk, OnOk};
ghost use Rattle.iox2_pubsub.specs.Domains.{FixedSize};
ghost use Rattle.iox2_pubsub.specs.Live.{ConnectionsStay, IsLivePublisher, IsLiveSubscriber, IsNewIn, RoomStays, Stays, publisher_port};
ghost use Rattle.iox2_pubsub.specs.BorrowsLeft.{BorrowsLeftStay};
ghost use Rattle.iox2_pubsub.specs.LoansLeft.{LoansLeftStay};
ghost use Rattle.three_patterns.specs.Ports.{CanPassOn, CanRead, IsSetUp};

use crate::failure::Failure;
use iox2_pubsub::{BackpressureStrategy, Publisher, ServiceConfig, Subscriber};
use message_patterns::Numbers;

/// A publisher, and a subscriber that gets what it sends.
pub struct Pair {
    pub publisher: Publisher,
    pub subscriber: Subscriber,
}

impl Pair {
    /// Closes both ports.
    pub fn close(self, domain: &mut Numbers)
        requires publisher { IsLivePublisher domain.old self.publisher }
        requires subscriber { IsLiveSubscriber domain.old self.subscriber }
    {
        let Pair {
            publisher,
            subscriber,
        } = self;
        publisher.close(domain);
        subscriber.close(domain);
    }
}

/// The settings of a service with one subscriber, for which three messages of each publisher may wait, and which
/// holds one at a time.
pub fn settings(service_id: u128) -> ServiceConfig
    ensures variant { result.variant ≡ FixedSize }
    ensures units { result.units_per_element ≡ 1 }
    ensures borrows { result.subscriber_max_borrowed_samples ≡ 1 }
{
    ServiceConfig {
        max_publishers: 3,
        max_subscribers: 1,
        subscriber_max_buffer_size: 3,
        subscriber_max_borrowed_samples: 1,
        enable_safe_overflow: false,
        ..ServiceConfig::new(service_id)
    }
}

/// Makes a subscriber, and a publisher that is connected with it.
pub fn join(domain: &mut Numbers) -> Result<Pair, Failure>
    requires { IsSetUp domain.old }
    ensures { IfOk result (λ it. CanPassOn domain.new it.publisher it.subscriber) }
{
    let subscriber = domain.subscriber_builder().create(domain)?;
    match connected_publisher(domain, &subscriber) {
        Ok(publisher) => Ok(Pair {
            publisher,
            subscriber,
        }),
        Err(error) => {
            subscriber.close(domain);
            Err(error)
        }
    }
}

/// Makes a publisher that is connected with the subscriber, and goes past it where it is full.
pub fn connected_publisher(
    domain: &mut Numbers,
    subscriber: &Subscriber,
) -> Result<Publisher, Failure>
    requires { CanRead domain.old subscriber.now }
    ensures joined { IfOk result (λ it. CanPassOn domain.new it subscriber.now) }
    ensures is_new { IfOk result (λ it. IsNewIn domain.old (publisher_port it)) }
    ensures connections { OnOk result (ConnectionsStay domain.old domain.new) }
    ensures room { OnOk result (RoomStays domain.old domain.new) }
    ensures loans { OnOk result (LoansLeftStay domain.old domain.new) }
    ensures borrows { OnOk result (BorrowsLeftStay domain.old domain.new) }
    ensures stays { Stays domain.old domain.new }
{
    let refused = domain.refused_connections();
    let publisher = domain
        .publisher_builder()
        .backpressure_strategy(BackpressureStrategy::DiscardData)
        .max_loaned_samples(1)
        .create(domain)?;
    if refused < u64::MAX && domain.refused_connections() == refused {
        return Ok(publisher);
    }
    publisher.close(domain);
    Err(Failure::Unconnected)
}
