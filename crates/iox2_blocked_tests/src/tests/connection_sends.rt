//! Sends to one connection that wait for its subscriber.
ghost use Rattle.std.specs.Prelude.{◌<◌};

use crate::tests::waiting_publishers::{
    blocked, blocked_again, deliver, delivered, delivered_at_last, given_up, has_blocked_send,
    message_of, next_reading, subscriber_of, waiting_domain, waiting_publisher,
};
use iox2_fixtures::{Weather, close_publisher, close_subscriber, settings};
use iox2_machine::ServiceConfig;
use iox2_pubsub::{Domain, Publisher, SendError, SendOutcome};
use std::process::Abort;

// The settings of a domain whose connections have two channels.
fn two_channels() -> ServiceConfig {
    ServiceConfig {
        number_of_channels: 2,
        ..settings()
    }
}

// Lends and writes a message, and sends it into a channel of a connection.
fn send_to(
    rt: &impl Abort,
    domain: &mut Weather,
    publisher: &Publisher,
    celsius: u64,
    channel: usize,
    connection: usize,
) -> Result<SendOutcome, SendError> {
    let message = message_of(rt, domain, publisher, celsius);
    assert!(rt; !message.is_blocked(domain));
    assert!(rt; channel < domain.config().number_of_channels.max(1));
    message.deliver_offset_to_connection(domain, channel, connection)
}

// The second of three subscribers is full. Neither the first nor the third hears of the message that
// waits for it.
#[test]
fn a_send_to_one_connection_waits_for_its_subscriber_alone(rt: HostRuntime) {
    let mut domain = waiting_domain(&rt, rt.alloc());
    let first = subscriber_of(&rt, &mut domain, 2);
    let second = subscriber_of(&rt, &mut domain, 1);
    let third = subscriber_of(&rt, &mut domain, 2);
    let publisher = waiting_publisher(&rt, &mut domain);
    let all = deliver(&rt, &mut domain, &publisher, 20);
    let waiting = blocked(&rt, send_to(&rt, &mut domain, &publisher, 21, 0, 1));
    let meanwhile = has_blocked_send(&rt, &domain, &publisher);
    let waiting = blocked_again(&rt, &mut domain, waiting);
    let read = next_reading(&rt, &mut domain, &second);
    let one = delivered_at_last(&rt, &mut domain, waiting);
    let after = has_blocked_send(&rt, &domain, &publisher);
    let seen = [
        next_reading(&rt, &mut domain, &first),
        next_reading(&rt, &mut domain, &first),
        next_reading(&rt, &mut domain, &second),
        next_reading(&rt, &mut domain, &third),
        next_reading(&rt, &mut domain, &third),
    ];
    assert!(rt; close_publisher(&mut domain, publisher));
    assert!(rt; close_subscriber(&mut domain, first));
    assert!(rt; close_subscriber(&mut domain, second));
    assert!(rt; close_subscriber(&mut domain, third));
    drop(domain);
    assert!(rt; [all, one] == [3, 1]);
    assert!(rt; [meanwhile, after] == [true, false]);
    assert!(rt; read == Some(20));
    assert!(rt; seen == [Some(20), None, Some(21), Some(20), None]);
}

// A message waits for room in channel 1, while channel 0 of the same connection has some.
#[test]
fn a_send_waits_for_room_in_its_channel(rt: HostRuntime) {
    let mut domain: Weather = Domain::new(rt.alloc(), two_channels()).expect(&rt, "a domain");
    let subscriber = subscriber_of(&rt, &mut domain, 1);
    let publisher = waiting_publisher(&rt, &mut domain);
    let first = delivered(&rt, send_to(&rt, &mut domain, &publisher, 20, 1, 0));
    let waiting = blocked(&rt, send_to(&rt, &mut domain, &publisher, 21, 1, 0));
    let nothing = next_reading(&rt, &mut domain, &subscriber);
    let waiting = blocked_again(&rt, &mut domain, waiting);
    let none = given_up(&rt, &mut domain, waiting);
    let other = delivered(&rt, send_to(&rt, &mut domain, &publisher, 22, 0, 0));
    let read = next_reading(&rt, &mut domain, &subscriber);
    assert!(rt; close_publisher(&mut domain, publisher));
    assert!(rt; close_subscriber(&mut domain, subscriber));
    drop(domain);
    assert!(rt; [first, none, other] == [1, 0, 1]);
    assert!(rt; nothing.is_none() && read == Some(22));
}
