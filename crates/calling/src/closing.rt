//! A port is closed on every way out, and what it has sent is received afterwards.
ghost use Rattle.iox2_pubsub.specs.Live.{HasRoomFor, IsLivePublisher, IsLiveSubscriber, IsSingleValued, Stays, StaysBut, publisher_port};

use crate::failure::Failure;
use crate::passing::{pass, receive_next, send};
use iox2_pubsub::{BackpressureStrategy, Domain, Publisher, Subscriber};

/// Makes a publisher, passes a reading, and closes the publisher, whatever happened to the reading.
pub fn pass_once(
    domain: &mut Domain<u32, ()>,
    subscriber: &Subscriber,
    celsius: u32,
) -> Result<Option<u32>, Failure>
    requires single_valued { IsSingleValued domain.old }
    requires subscriber { IsLiveSubscriber domain.old subscriber.now }
    ensures stays { Stays domain.old domain.new }
{
    let publisher = domain
        .publisher_builder()
        .backpressure_strategy(BackpressureStrategy::DiscardData)
        .create(domain)?;
    let outcome = pass(domain, &publisher, subscriber, celsius);
    publisher.close(domain);
    outcome
}

/// Sends a last reading, closes the publisher, and receives the next reading that waits.
pub fn send_last(
    domain: &mut Domain<u32, ()>,
    publisher: Publisher,
    subscriber: &Subscriber,
    celsius: u32,
) -> Result<Option<u32>, Failure>
    requires single_valued { IsSingleValued domain.old }
    requires publisher { IsLivePublisher domain.old publisher }
    requires subscriber { IsLiveSubscriber domain.old subscriber.now }
    requires room { HasRoomFor domain.old subscriber.now 1 }
    ensures room { HasRoomFor domain.new subscriber.now 0 }
    ensures stays { StaysBut (publisher_port publisher) domain.old domain.new }
{
    let sent = send(domain, &publisher, celsius);
    publisher.close(domain);
    sent?;
    receive_next(domain, subscriber)
}
