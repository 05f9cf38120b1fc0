//! The channels of connections that carry slices.
ghost use Rattle.std.specs.Prelude.{◌<◌};
ghost use Rattle.iox2_machine.specs.machine.Limits.{channel_count};

use crate::tests::fixtures::{
    lend_slice, receive_slice, send_slice, slice_publisher, slice_subscriber,
};
use iox2_fixtures::{Numbers, is_slice_publisher_ready, receiver_count, smallest};
use iox2_machine::{ServiceConfig, TypeVariant};
use iox2_pubsub::slice::{Publisher, Subscriber};
use iox2_pubsub::{Domain, UpdateConnections};
use std::process::Abort;

// The settings of a domain of slices whose connections have two channels.
fn two_channels() -> ServiceConfig {
    ServiceConfig {
        variant: TypeVariant::Dynamic,
        number_of_channels: 2,
        publisher_max_loaned_samples: 2,
        ..smallest()
    }
}

// Asserts that the connections of the domain have the channel.
fn assert_has_channel(rt: &impl Abort, domain: &Numbers, channel: usize)
    ensures { channel < channel_count domain.now.config }
{
    assert!(rt; channel < domain.config().number_of_channels.max(1));
}

// Sends a slice with this value. Returns how many subscribers took it.
fn sent(rt: &impl Abort, domain: &mut Numbers, publisher: &Publisher, value: u64) -> usize {
    let loan = lend_slice(rt, domain, publisher, 1);
    let message = loan.write_from_fn(domain, |_| value);
    send_slice(rt, domain, message)
}

// Sends a slice with this value into a channel of a connection. Returns how many subscribers took it.
fn sent_to(
    rt: &impl Abort,
    domain: &mut Numbers,
    publisher: &Publisher,
    value: u64,
    channel: usize,
    connection: usize,
) -> usize {
    let loan = lend_slice(rt, domain, publisher, 1);
    let message = loan.write_from_fn(domain, |_| value);
    assert!(rt; !message.is_blocked(domain));
    assert_has_channel(rt, domain, channel);
    let outcome = message
        .deliver_offset_to_connection(domain, channel, connection)
        .expect(rt, "an outcome");
    receiver_count(outcome).expect(rt, "a send that isn't blocked")
}

// Whether the next slice has this value.
fn gets(rt: &impl Abort, domain: &mut Numbers, subscriber: &Subscriber, value: u64) -> bool {
    let sample = receive_slice(rt, domain, subscriber);
    let is_it = sample.payload(domain) == [value].as_slice();
    sample.release(domain);
    is_it
}

// The number of a channel, and a state.
type At = (usize, u64);

// Whether the channel was closed at each of the subscriber's connections. Where it was, it has the
// state afterwards.
fn set(rt: &impl Abort, domain: &mut Numbers, subscriber: &Subscriber, at: At) -> bool {
    assert!(rt; subscriber.is_in(domain));
    assert_has_channel(rt, domain, at.0);
    subscriber.set_channel_state(domain, at.0, at.1)
}

// Closes the subscriber's channels that are in the state.
fn close(rt: &impl Abort, domain: &mut Numbers, subscriber: &Subscriber, at: At) {
    assert!(rt; subscriber.is_in(domain));
    assert_has_channel(rt, domain, at.0);
    subscriber.close_channel(domain, at.0, at.1);
}

// Hints a disconnect in the subscriber's channels that are in the state.
fn hint(rt: &impl Abort, domain: &mut Numbers, subscriber: &Subscriber, at: At) {
    assert!(rt; subscriber.is_in(domain));
    assert_has_channel(rt, domain, at.0);
    subscriber.set_disconnect_hint(domain, at.0, at.1);
}

// Whether a channel of the subscriber is in the state.
fn is_any(rt: &impl Abort, domain: &Numbers, subscriber: &Subscriber, at: At) -> bool {
    assert!(rt; subscriber.is_in(domain));
    assert_has_channel(rt, domain, at.0);
    subscriber.at_least_one_channel_has_state(domain, at.0, at.1)
}

// Whether the channel of the publisher's first connection is in the state, and whether it has a hint
// too.
fn is_first(rt: &impl Abort, domain: &Numbers, publisher: &Publisher, at: At) -> [bool; 2] {
    assert!(rt; is_slice_publisher_ready(domain, publisher));
    assert_has_channel(rt, domain, at.0);
    [
        publisher.has_channel_state(domain, at.0, 0, at.1),
        publisher.has_disconnect_hint(domain, at.0, 0, at.1),
    ]
}

// Closes the channel of the publisher's first connection, where it is in the state.
fn close_first(rt: &impl Abort, domain: &mut Numbers, publisher: &Publisher, at: At) {
    assert!(rt; is_slice_publisher_ready(domain, publisher));
    assert_has_channel(rt, domain, at.0);
    publisher.close_channel(domain, at.0, 0, at.1);
}

// A send goes to channel 0 alone, and no call on one channel changes another.
#[test]
fn a_further_channel_of_slices_has_a_state_of_its_own(rt: HostRuntime) {
    let mut domain: Numbers = Domain::new(rt.alloc(), two_channels()).expect(&rt, "a domain");
    let subscriber = slice_subscriber(&rt, &mut domain);
    let publisher = slice_publisher(&rt, &mut domain, 1);
    assert!(rt; subscriber.is_in(&domain));
    let updated = subscriber.update_connections(&mut domain).is_ok();
    hint(&rt, &mut domain, &subscriber, (1, 0));
    let hinted = [
        is_first(&rt, &domain, &publisher, (0, 0)),
        is_first(&rt, &domain, &publisher, (1, 0)),
    ];
    close(&rt, &mut domain, &subscriber, (1, 0));
    let closed = is_first(&rt, &domain, &publisher, (1, u64::MAX));
    let taken = sent(&rt, &mut domain, &publisher, 1);
    let was_closed = set(&rt, &mut domain, &subscriber, (1, 4));
    close_first(&rt, &mut domain, &publisher, (1, 4));
    let open = is_any(&rt, &domain, &subscriber, (0, 0));
    publisher.disown();
    subscriber.disown();
    drop(domain);
    assert!(rt; updated && open && was_closed);
    assert!(rt; hinted == [[true, false], [true, true]]);
    assert!(rt; closed == [true, false]);
    assert!(rt; taken == 1);
}

// A slice reaches the one connection, in a further channel too until that is full, and nobody where
// there is no connection. A question looks at channel 0 alone.
#[test]
fn a_slice_goes_into_one_channel_of_one_connection(rt: HostRuntime) {
    let config = ServiceConfig {
        max_subscribers: 2,
        ..two_channels()
    };
    let mut domain: Numbers = Domain::new(rt.alloc(), config).expect(&rt, "a domain");
    let first = slice_subscriber(&rt, &mut domain);
    let second = slice_subscriber(&rt, &mut domain);
    let publisher = slice_publisher(&rt, &mut domain, 1);
    let place = publisher.get_connection_id_of(&domain, second.id().value());
    let taken = [
        sent_to(&rt, &mut domain, &publisher, 1, 1, 0),
        sent_to(&rt, &mut domain, &publisher, 2, 1, 0),
        sent_to(&rt, &mut domain, &publisher, 3, 0, 5),
        sent_to(&rt, &mut domain, &publisher, 4, 0, 1),
    ];
    assert!(rt; first.is_in(&domain));
    let waits = first.has_samples(&mut domain);
    let is_fourth = gets(&rt, &mut domain, &second, 4);
    publisher.disown();
    first.disown();
    second.disown();
    drop(domain);
    assert!(rt; place == Some(1));
    assert!(rt; taken == [1, 0, 0, 1]);
    assert!(rt; waits == Ok(false) && is_fourth);
}
