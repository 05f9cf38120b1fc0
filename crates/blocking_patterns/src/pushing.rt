//! A push into a full buffer takes the first number out.
ghost use Rattle.std.specs.Prelude.{◌≡◌};
ghost use Rattle.iox2_pubsub.specs.BorrowsLeft.{HasBorrowsLeft};
ghost use Rattle.iox2_pubsub.specs.Handles.{publisher_id};
ghost use Rattle.iox2_pubsub.specs.Live.{HasItsBuffer, IsConnected, IsLiveSubscriber, IsReadyPublisher, IsSingleValued};
ghost use Rattle.blocking_patterns.specs.Ports.{IsMadeFor};

use crate::failure::Failure;
use crate::ports::{connected_publisher, settings};
use iox2_pubsub::{Publisher, Subscriber};
use message_patterns::{Numbers, is_idle, push_or_wait, push_over};
use std::alloc::Global;

/// Pushes three numbers into a buffer for two. Returns the one that made room.
pub fn push_three(alloc: Global) -> Result<Option<u32>, Failure> {
    let mut domain = Numbers::with_handlers(alloc, settings(1, 1))?;
    with_ports(&mut domain)
}

// Makes the ports, and closes them.
fn with_ports(domain: &mut Numbers) -> Result<Option<u32>, Failure>
    requires { IsMadeFor domain.old 1 }
{
    let subscriber = domain.subscriber_builder().create(domain)?;
    let publisher = match connected_publisher(domain) {
        Ok(publisher) => publisher,
        Err(error) => {
            subscriber.close(domain);
            return Err(error);
        }
    };
    let pushed = push_into(domain, &publisher, &subscriber);
    publisher.disown();
    subscriber.disown();
    pushed
}

// Pushes the three.
fn push_into(
    domain: &mut Numbers,
    publisher: &Publisher,
    subscriber: &Subscriber,
) -> Result<Option<u32>, Failure>
    requires single_valued { IsSingleValued domain.old }
    requires one { (domain.old.config).max_subscribers ≡ 1 }
    requires publisher { IsReadyPublisher domain.old publisher.now }
    requires subscriber { IsLiveSubscriber domain.old subscriber.now }
    requires connected { IsConnected domain.old (publisher_id publisher.now) subscriber.now }
    requires buffer { HasItsBuffer domain.old subscriber.now }
    requires borrows { HasBorrowsLeft domain.old subscriber.now 1 }
{
    if subscriber.buffer_size() != 2 || !is_idle(domain, subscriber)? {
        return Err(Failure::Busy);
    }
    if let Some(waiting) = push_or_wait(domain, publisher, 1)? {
        waiting.disown();
        return Err(Failure::Busy);
    }
    if let Some(waiting) = push_or_wait(domain, publisher, 2)? {
        waiting.disown();
        return Err(Failure::Busy);
    }
    Ok(push_over(domain, publisher, subscriber, 3)?)
}
