//! What ports are told of the channels of their connections, and how they change them.

ghost use Rattle.std.specs.Prelude.{◌<◌};
ghost use Rattle.iox2_machine.specs.machine.Limits.{channel_count};

use crate::tests::connection_sends::sent_to;
use crate::tests::fixtures::{
    celsius_of, copied, next_reading, publisher_of, received, subscriber_of, waits,
};
use iox2_fixtures::{Weather, close_publisher, is_ready, settings, smallest};
use iox2_machine::ServiceConfig;
use iox2_pubsub::{Domain, Publisher, Subscriber, UpdateConnections};
use std::process::Abort;

// The settings of a domain whose connections have two channels.
fn two_channels() -> ServiceConfig {
    ServiceConfig {
        number_of_channels: 2,
        publisher_max_loaned_samples: 2,
        ..smallest()
    }
}

fn three_channels() -> ServiceConfig {
    ServiceConfig {
        number_of_channels: 3,
        ..settings()
    }
}

// Whether the channel was closed at each of the subscriber's connections. Where it was, it has the
// state afterwards.
fn set(rt: &impl Abort, domain: &mut Weather, subscriber: &Subscriber, state: u64) -> bool {
    assert!(rt; subscriber.is_in(domain));
    subscriber.set_channel_state(domain, 0, state)
}

// Closes the subscriber's channels that are in the state.
fn close(rt: &impl Abort, domain: &mut Weather, subscriber: &Subscriber, expected: u64) {
    assert!(rt; subscriber.is_in(domain));
    subscriber.close_channel(domain, 0, expected);
}

// Hints a disconnect in the subscriber's channels that are in the state.
fn hint(rt: &impl Abort, domain: &mut Weather, subscriber: &Subscriber, expected: u64) {
    assert!(rt; subscriber.is_in(domain));
    subscriber.set_disconnect_hint(domain, 0, expected);
}

// Whether one of the subscriber's channels is in the state.
fn is_any(rt: &impl Abort, domain: &Weather, subscriber: &Subscriber, state: u64) -> bool {
    assert!(rt; subscriber.is_in(domain));
    subscriber.at_least_one_channel_has_state(domain, 0, state)
}

// Whether the publisher's first channel is in the state, and whether it has a hint too.
fn is_first(rt: &impl Abort, domain: &Weather, publisher: &Publisher, state: u64) -> [bool; 2] {
    assert!(rt; is_ready(domain, publisher));
    [
        publisher.has_channel_state(domain, 0, 0, state),
        publisher.has_disconnect_hint(domain, 0, 0, state),
    ]
}

// Whether the channel behind the subscriber's first one is in the state.
fn is_next_in(rt: &impl Abort, domain: &Weather, subscriber: &Subscriber, state: u64) -> bool {
    assert!(rt; subscriber.is_in(domain));
    assert_has_channel(rt, domain, 1);
    subscriber.at_least_one_channel_has_state(domain, 1, state)
}

// The places of the publisher's connections to the ports with the ids 1 and 7.
fn places_of_1_and_7(
    rt: &impl Abort,
    domain: &Weather,
    publisher: &Publisher,
) -> [Option<usize>; 2] {
    assert!(rt; is_ready(domain, publisher));
    [
        publisher.get_connection_id_of(domain, 1),
        publisher.get_connection_id_of(domain, 7),
    ]
}

// How many subscribers take each of three messages: two in channel 1 of the first connection, and one in a
// connection that isn't there.
fn taken_by_next(rt: &impl Abort, domain: &mut Weather, publisher: &Publisher) -> [usize; 3] {
    [
        sent_to(rt, domain, publisher, 3, 1, 0),
        sent_to(rt, domain, publisher, 4, 1, 0),
        sent_to(rt, domain, publisher, 5, 1, 5),
    ]
}

// Reads what the subscriber receives next, which stays borrowed.
fn borrowed_reading(rt: &impl Abort, domain: &mut Weather, subscriber: &Subscriber) -> Option<u64> {
    let sample = received(rt, domain, subscriber)?;
    let celsius = celsius_of(rt, domain, &sample);
    sample.disown();
    Some(celsius)
}

#[test]
fn a_closed_channel_takes_no_message(rt: HostRuntime) {
    let mut domain: Weather = Domain::new(rt.alloc(), two_channels()).expect(&rt, "a domain");
    let subscriber = subscriber_of(&rt, &mut domain);
    let publisher = publisher_of(&rt, &mut domain);
    let unconnected = [
        set(&rt, &mut domain, &subscriber, 9),
        is_any(&rt, &domain, &subscriber, 0),
    ];
    assert!(rt; subscriber.is_in(&domain));
    let updated = subscriber.update_connections(&mut domain).is_ok();
    let places = places_of_1_and_7(&rt, &domain, &publisher);
    let is_next_open = is_next_in(&rt, &domain, &subscriber, 0);
    close(&rt, &mut domain, &subscriber, 5);
    let is_open = is_any(&rt, &domain, &subscriber, 0);
    close(&rt, &mut domain, &subscriber, 0);
    let closed = is_first(&rt, &domain, &publisher, u64::MAX);
    let passed = copied(&rt, &mut domain, &publisher, 1);
    let nothing = next_reading(&rt, &mut domain, &subscriber);
    let was_closed = set(&rt, &mut domain, &subscriber, 7);
    let taken = copied(&rt, &mut domain, &publisher, 2);
    hint(&rt, &mut domain, &subscriber, 0);
    let unhinted = is_first(&rt, &domain, &publisher, 7);
    hint(&rt, &mut domain, &subscriber, 7);
    let hinted = is_first(&rt, &domain, &publisher, 7);
    let was_open = set(&rt, &mut domain, &subscriber, 3);
    let still = is_first(&rt, &domain, &publisher, 7);
    assert!(rt; is_ready(&domain, &publisher));
    publisher.close_channel(&mut domain, 0, 0, 7);
    let closed_again = is_first(&rt, &domain, &publisher, u64::MAX);
    let second = borrowed_reading(&rt, &mut domain, &subscriber);
    let taken_there = taken_by_next(&rt, &mut domain, &publisher);
    let more = waits(&rt, &mut domain, &subscriber);
    publisher.disown();
    subscriber.disown();
    drop(domain);
    assert!(rt; unconnected == [true, false]);
    assert!(rt; updated && is_open && is_next_open);
    assert!(rt; places == [Some(0), None]);
    assert!(rt; closed == [true, false]);
    assert!(rt; [passed, taken] == [0, 1]);
    assert!(rt; [was_closed, was_open] == [true, false]);
    assert!(rt; unhinted == [true, false]);
    assert!(rt; [hinted, still] == [[true, true], [true, true]]);
    assert!(rt; closed_again == [true, false]);
    assert!(rt; [nothing, second] == [None, Some(2)]);
    assert!(rt; taken_there == [1, 0, 0] && !more);
}

// Asserts that the connections of the domain have the channel.
fn assert_has_channel(rt: &impl Abort, domain: &Weather, channel: usize)
    ensures { channel < channel_count domain.now.config }
{
    assert!(rt; channel < domain.config().number_of_channels.max(1));
}

// The number of each of three channels that is in the state at the publisher's first connection.
fn all_first(rt: &impl Abort, domain: &Weather, publisher: &Publisher, state: u64) -> [bool; 3] {
    assert!(rt; is_ready(domain, publisher));
    assert_has_channel(rt, domain, 2);
    [
        publisher.has_channel_state(domain, 0, 0, state),
        publisher.has_channel_state(domain, 1, 0, state),
        publisher.has_channel_state(domain, 2, 0, state),
    ]
}

// A closed channel behind channel 0 lets messages pass, and no call on one changes another.
#[test]
fn a_further_channel_has_a_state_of_its_own(rt: HostRuntime) {
    let mut domain: Weather = Domain::new(rt.alloc(), three_channels()).expect(&rt, "a domain");
    let subscriber = subscriber_of(&rt, &mut domain);
    let publisher = publisher_of(&rt, &mut domain);
    assert!(rt; subscriber.is_in(&domain));
    let updated = subscriber.update_connections(&mut domain).is_ok();
    assert!(rt; subscriber.is_in(&domain));
    assert_has_channel(&rt, &domain, 2);
    subscriber.close_channel(&mut domain, 2, 0);
    let closed = all_first(&rt, &domain, &publisher, u64::MAX);
    let taken = copied(&rt, &mut domain, &publisher, 1);
    assert!(rt; subscriber.is_in(&domain));
    assert_has_channel(&rt, &domain, 2);
    let were_closed = [
        subscriber.set_channel_state(&mut domain, 2, 7),
        set(&rt, &mut domain, &subscriber, 8),
    ];
    assert!(rt; subscriber.is_in(&domain));
    assert_has_channel(&rt, &domain, 2);
    subscriber.set_disconnect_hint(&mut domain, 2, 7);
    assert!(rt; is_ready(&domain, &publisher));
    assert_has_channel(&rt, &domain, 2);
    let hinted = [
        publisher.has_disconnect_hint(&domain, 0, 0, 0),
        publisher.has_disconnect_hint(&domain, 2, 0, 7),
    ];
    publisher.close_channel(&mut domain, 2, 0, 7);
    let closed_again = all_first(&rt, &domain, &publisher, u64::MAX);
    publisher.disown();
    subscriber.disown();
    drop(domain);
    assert!(rt; updated);
    assert!(rt; closed == [false, false, true]);
    assert!(rt; taken == 1);
    assert!(rt; were_closed == [true, false]);
    assert!(rt; hinted == [false, true]);
    assert!(rt; closed_again == [false, false, true]);
}

// What waits in a closed channel can be received, and other subscribers get what it doesn't take.
#[test]
fn a_channel_that_opens_again_takes_messages(rt: HostRuntime) {
    let config = ServiceConfig {
        max_subscribers: 2,
        ..settings()
    };
    let mut domain: Weather = Domain::new(rt.alloc(), config).expect(&rt, "a domain");
    let first = subscriber_of(&rt, &mut domain);
    let second = subscriber_of(&rt, &mut domain);
    let publisher = publisher_of(&rt, &mut domain);
    let before = copied(&rt, &mut domain, &publisher, 1);
    assert!(rt; is_ready(&domain, &publisher));
    publisher.close_channel(&mut domain, 0, 2, 0);
    publisher.close_channel(&mut domain, 0, 0, 0);
    let closed = copied(&rt, &mut domain, &publisher, 2);
    let read = [
        next_reading(&rt, &mut domain, &first),
        next_reading(&rt, &mut domain, &first),
        next_reading(&rt, &mut domain, &second),
        next_reading(&rt, &mut domain, &second),
    ];
    let was_closed = set(&rt, &mut domain, &first, 0);
    let open = copied(&rt, &mut domain, &publisher, 3);
    let third = next_reading(&rt, &mut domain, &first);
    first.disown();
    second.disown();
    publisher.disown();
    drop(domain);
    assert!(rt; [before, closed, open] == [2, 1, 2]);
    assert!(rt; read == [Some(1), None, Some(1), Some(2)]);
    assert!(rt; was_closed);
    assert!(rt; third == Some(3));
}

// A close reaches the channel of a closed publisher's connection too, after another publisher has
// taken its place.
#[test]
fn the_channel_of_an_expired_connection_closes(rt: HostRuntime) {
    let mut domain: Weather = Domain::new(rt.alloc(), settings()).expect(&rt, "a domain");
    let subscriber = subscriber_of(&rt, &mut domain);
    let first = publisher_of(&rt, &mut domain);
    let taken = copied(&rt, &mut domain, &first, 1);
    assert!(rt; subscriber.is_in(&domain));
    let connected = subscriber.update_connections(&mut domain).is_ok();
    assert!(rt; close_publisher(&mut domain, first));
    let second = publisher_of(&rt, &mut domain);
    assert!(rt; subscriber.is_in(&domain));
    let expired = subscriber.update_connections(&mut domain).is_ok();
    close(&rt, &mut domain, &subscriber, 0);
    let open = is_any(&rt, &domain, &subscriber, 0);
    let waited = next_reading(&rt, &mut domain, &subscriber);
    second.disown();
    subscriber.disown();
    drop(domain);
    assert!(rt; taken == 1 && connected && expired);
    assert!(rt; !open && waited == Some(1));
}
