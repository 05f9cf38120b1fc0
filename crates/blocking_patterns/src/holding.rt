//! A subscriber holds a reading of one publisher, as many as it may, and reads one of another.
ghost use Rattle.std.specs.Prelude.{◌<◌, ◌≡◌, length, OnOk};
ghost use Rattle.iox2_pubsub.specs.BorrowsLeft.{BorrowsLeftStay, HasBorrowsLeftOf};
ghost use Rattle.iox2_pubsub.specs.Handles.{publisher_id};
ghost use Rattle.iox2_pubsub.specs.Live.{A_blocked_send, HasRoomFor, IsConnected, IsLiveSample, IsLiveSubscriber};
ghost use Rattle.iox2_pubsub.specs.Live.{IsReadyPublisher, IsSingleValued, StaysBut, UpToDateStay, payloads_from};
ghost use Rattle.iox2_pubsub.specs.declared.subscriber.Subscriber.{Subscriber as Port};
ghost use Rattle.blocking_patterns.specs.Ports.{IsMadeFor};

use crate::failure::Failure;
use crate::ports::{connected_publisher, settings};
use iox2_pubsub::{Publisher, Sample, SendOutcome, Subscriber};
use message_patterns::{Numbers, read_beside};
use std::alloc::Global;

/// Has a publisher send a reading, which is held, and another one a second, which is read meanwhile. Returns both.
pub fn hold_and_read(alloc: Global) -> Result<(u32, Option<u32>), Failure> {
    let mut domain = Numbers::with_handlers(alloc, settings(4, 1))?;
    with_ports(&mut domain)
}

// Makes the subscriber and the first publisher.
fn with_ports(domain: &mut Numbers) -> Result<(u32, Option<u32>), Failure>
    requires { IsMadeFor domain.old 1 }
{
    let subscriber = domain.subscriber_builder().create(domain)?;
    let first = match connected_publisher(domain) {
        Ok(first) => first,
        Err(error) => {
            subscriber.close(domain);
            return Err(error);
        }
    };
    let read = hold(domain, &first, &subscriber);
    first.disown();
    subscriber.disown();
    read
}

// Sends a reading, and holds it while one of another publisher is read.
fn hold(
    domain: &mut Numbers,
    first: &Publisher,
    subscriber: &Subscriber,
) -> Result<(u32, Option<u32>), Failure>
    requires single_valued { IsSingleValued domain.old }
    requires borrows { (domain.old.config).subscriber_max_borrowed_samples ≡ 1 }
    requires first { IsReadyPublisher domain.old first.now }
    requires subscriber { IsLiveSubscriber domain.old subscriber.now }
    requires room { HasRoomFor domain.old subscriber.now 0 }
{
    send(domain, first, 7)?;
    let held = match subscriber.receive(domain) {
        Ok(Some(held)) => held,
        Ok(None) => return Err(Failure::Busy),
        Err(error) => return Err(message_patterns::Failure::Receive(error).into()),
    };
    let read = read_meanwhile(domain, subscriber, &held);
    let reading = *held.payload(domain);
    held.release(domain);
    Ok((reading, read?))
}

// Reads a number of a publisher that is new.
fn read_meanwhile(
    domain: &mut Numbers,
    subscriber: &Subscriber,
    held: &Sample,
) -> Result<Option<u32>, Failure>
    requires single_valued { IsSingleValued domain.old }
    requires borrows { (domain.old.config).subscriber_max_borrowed_samples ≡ 1 }
    requires subscriber { IsLiveSubscriber domain.old subscriber.now }
    requires room { HasRoomFor domain.old subscriber.now 0 }
    requires held { IsLiveSample domain.old held.now }
    ensures single_valued { IsSingleValued domain.new }
    ensures held { IsLiveSample domain.new held.now }
{
    let second = connected_publisher(domain)?;
    let read = send_and_read(domain, &second, subscriber);
    second.disown();
    read
}

// Sends a reading, and reads what waits of the publisher.
fn send_and_read(
    domain: &mut Numbers,
    publisher: &Publisher,
    subscriber: &Subscriber,
) -> Result<Option<u32>, Failure>
    requires single_valued { IsSingleValued domain.old }
    requires publisher { IsReadyPublisher domain.old publisher.now }
    requires subscriber { IsLiveSubscriber domain.old subscriber.now }
    requires connected { IsConnected domain.old (publisher_id publisher.now) subscriber.now }
    requires borrows { HasBorrowsLeftOf domain.old (publisher_id publisher.now) subscriber.now 1 }
    requires room { HasRoomFor domain.old subscriber.now 0 }
    ensures stays { StaysBut (A_blocked_send (publisher_id publisher.now)) domain.old domain.new }
{
    send(domain, publisher, 8)?;
    subscriber.has_samples(domain)?;
    Ok(read_beside(domain, publisher, subscriber)?)
}

// Sends a number, if it isn't blocked.
fn send(domain: &mut Numbers, publisher: &Publisher, number: u32) -> Result<(), Failure>
    requires single_valued { IsSingleValued domain.old }
    requires publisher { IsReadyPublisher domain.old publisher.now }
    ensures waits { (subscriber : Port) → IsConnected domain.old (publisher_id publisher.now) subscriber
        → OnOk result (0 < length (payloads_from domain.new (publisher_id publisher.now) subscriber)) }
    ensures borrows { BorrowsLeftStay domain.old domain.new }
    ensures up_to_date { UpToDateStay domain.old domain.new }
    ensures stays { StaysBut (A_blocked_send (publisher_id publisher.now)) domain.old domain.new }
{
    match publisher.send_copy(domain, number) {
        Ok(SendOutcome::Delivered(_)) => Ok(()),
        Ok(SendOutcome::Blocked(waiting)) => {
            waiting.disown();
            Err(Failure::Busy)
        }
        Err(error) => Err(message_patterns::Failure::Send(error).into()),
    }
}
