//! Messages that are sent into one channel of one connection.
ghost use Rattle.std.specs.Prelude.{◌<◌};
ghost use Rattle.iox2_pubsub.specs.Live.{IsWritten};

use crate::tests::fixtures::{copied, next_reading, publisher_of, subscriber_of, update, waits};
use iox2_fixtures::{
    Reading, Weather, close_publisher, close_subscriber, is_ready, is_single_valued,
    receiver_count, settings,
};
use iox2_machine::ServiceConfig;
use iox2_pubsub::{
    BackpressureAction, BackpressureHandler, Domain, Publisher, SampleMut, SendError, SendOutcome,
    Subscriber, UpdateConnections,
};
use std::alloc::Global;
use std::process::Abort;

// Settings of connections with that many channels, each with room for that many messages.
fn channels(number: usize, buffer: usize) -> ServiceConfig {
    ServiceConfig {
        subscriber_max_buffer_size: buffer,
        subscriber_max_borrowed_samples: 1,
        history_size: 0,
        number_of_channels: number,
        publisher_max_loaned_samples: 2,
        ..settings()
    }
}

// A domain with these settings.
fn domain_of(rt: &impl Abort, alloc: Global, config: ServiceConfig) -> Weather {
    Domain::new(alloc, config).expect(rt, "a domain")
}

// Lends and writes a message.
fn message_of(
    rt: &impl Abort,
    domain: &mut Weather,
    publisher: &Publisher,
    celsius: u64,
) -> SampleMut
    ensures { IsWritten domain.new result }
{
    assert!(rt; is_single_valued(domain));
    assert!(rt; is_ready(domain, publisher));
    let loan = publisher.loan_uninit(domain).expect(rt, "a loan");
    loan.write_payload(domain, Reading { celsius })
}

// Sends a loan into a channel of a connection.
fn send_there(
    rt: &impl Abort,
    domain: &mut Weather,
    message: SampleMut,
    channel: usize,
    connection: usize,
) -> Result<SendOutcome, SendError>
    requires { IsWritten domain.old message }
{
    assert!(rt; !message.is_blocked(domain));
    assert!(rt; channel < domain.config().number_of_channels.max(1));
    message.deliver_offset_to_connection(domain, channel, connection)
}

// Lends, writes and sends a message into a channel of a connection. Returns how many took it.
pub(super) fn sent_to(
    rt: &impl Abort,
    domain: &mut Weather,
    publisher: &Publisher,
    celsius: u64,
    channel: usize,
    connection: usize,
) -> usize {
    let message = message_of(rt, domain, publisher, celsius);
    let outcome = send_there(rt, domain, message, channel, connection).expect(rt, "an outcome");
    receiver_count(outcome).expect(rt, "a send that isn't blocked")
}

// Closes the channel of each of the subscriber's connections in which it is open.
fn close_channel(rt: &impl Abort, domain: &mut Weather, subscriber: &Subscriber, channel: usize) {
    assert!(rt; subscriber.is_in(domain));
    assert!(rt; channel < domain.config().number_of_channels.max(1));
    subscriber.close_channel(domain, channel, 0);
}

// Of two connections with two channels each, for one message each, a channel takes one message. A
// connection that isn't there takes none.
#[test]
fn a_message_goes_into_one_channel_of_one_connection(rt: HostRuntime) {
    let config = ServiceConfig {
        max_subscribers: 2,
        ..channels(2, 1)
    };
    let mut domain = domain_of(&rt, rt.alloc(), config);
    let first = subscriber_of(&rt, &mut domain);
    let second = subscriber_of(&rt, &mut domain);
    let publisher = publisher_of(&rt, &mut domain);
    let places = [
        publisher.get_connection_id_of(&domain, first.id().value()),
        publisher.get_connection_id_of(&domain, second.id().value()),
        publisher.get_connection_id_of(&domain, publisher.id().value()),
        publisher.get_connection_id_of(&domain, 0),
    ];
    let past = publisher.has_channel_state(&domain, 0, 2, 0);
    let taken = [
        sent_to(&rt, &mut domain, &publisher, 1, 1, 0),
        sent_to(&rt, &mut domain, &publisher, 2, 1, 0),
        sent_to(&rt, &mut domain, &publisher, 3, 1, 5),
        sent_to(&rt, &mut domain, &publisher, 4, 0, 1),
    ];
    let more = [
        waits(&rt, &mut domain, &first),
        waits(&rt, &mut domain, &second),
    ];
    let read = next_reading(&rt, &mut domain, &second);
    publisher.disown();
    first.disown();
    second.disown();
    drop(domain);
    assert!(rt; places == [Some(0), Some(1), None, None] && !past);
    assert!(rt; taken == [1, 0, 0, 1]);
    assert!(rt; more == [false, true]);
    assert!(rt; read == Some(4));
}

// The last of many channels takes a message of its own, as the one before it and the first do.
#[test]
fn each_of_many_channels_takes_a_message(rt: HostRuntime) {
    for (number, last) in [(5, 4), (4, 3), (12, 11)] {
        let mut domain = domain_of(&rt, rt.alloc(), channels(number, 1));
        let subscriber = subscriber_of(&rt, &mut domain);
        let publisher = publisher_of(&rt, &mut domain);
        let taken = [
            sent_to(&rt, &mut domain, &publisher, 1, last, 0),
            sent_to(&rt, &mut domain, &publisher, 2, last, 0),
            sent_to(&rt, &mut domain, &publisher, 3, 2, 0),
        ];
        let is_waiting = waits(&rt, &mut domain, &subscriber);
        let first = copied(&rt, &mut domain, &publisher, 4);
        let read = next_reading(&rt, &mut domain, &subscriber);
        publisher.disown();
        subscriber.disown();
        drop(domain);
        assert!(rt; taken == [1, 0, 1]);
        assert!(rt; !is_waiting && first == 1);
        assert!(rt; read == Some(4));
    }
}

// A subscriber that came after the publisher's update has no connection with it yet, and gets no
// history of what was sent to one connection.
#[test]
fn no_connection_is_made_and_no_history_kept(rt: HostRuntime) {
    let config = ServiceConfig {
        history_size: 1,
        ..channels(1, 1)
    };
    let mut domain = domain_of(&rt, rt.alloc(), config);
    let publisher = publisher_of(&rt, &mut domain);
    let subscriber = subscriber_of(&rt, &mut domain);
    let early = sent_to(&rt, &mut domain, &publisher, 1, 0, 0);
    update(&rt, &mut domain, &publisher);
    let nothing = next_reading(&rt, &mut domain, &subscriber);
    let late = sent_to(&rt, &mut domain, &publisher, 2, 0, 0);
    let read = next_reading(&rt, &mut domain, &subscriber);
    publisher.disown();
    subscriber.disown();
    drop(domain);
    assert!(rt; [early, late] == [0, 1]);
    assert!(rt; nothing.is_none() && read == Some(2));
}

// A channel that its subscriber closed before the publisher came to it takes nothing, and no history, and
// another does take a message until it is closed too.
#[test]
fn a_closed_channel_is_passed_alone(rt: HostRuntime) {
    let config = ServiceConfig {
        history_size: 1,
        ..channels(2, 2)
    };
    let mut domain = domain_of(&rt, rt.alloc(), config);
    let publisher = publisher_of(&rt, &mut domain);
    let before = copied(&rt, &mut domain, &publisher, 1);
    let subscriber = subscriber_of(&rt, &mut domain);
    close_channel(&rt, &mut domain, &subscriber, 0);
    update(&rt, &mut domain, &publisher);
    let taken = [
        sent_to(&rt, &mut domain, &publisher, 2, 0, 0),
        sent_to(&rt, &mut domain, &publisher, 3, 1, 0),
        copied(&rt, &mut domain, &publisher, 4),
    ];
    close_channel(&rt, &mut domain, &subscriber, 1);
    let passed = sent_to(&rt, &mut domain, &publisher, 5, 1, 0);
    let nothing = next_reading(&rt, &mut domain, &subscriber);
    publisher.disown();
    subscriber.disown();
    drop(domain);
    assert!(rt; before == 0 && taken == [0, 1, 0] && passed == 0);
    assert!(rt; nothing.is_none());
}

// Of a departed publisher the message in another channel keeps the connection and its channels, until the
// subscriber closes.
#[test]
fn a_departed_publisher_leaves_what_waits_in_another_channel(rt: HostRuntime) {
    let mut domain = domain_of(&rt, rt.alloc(), channels(2, 1));
    let subscriber = subscriber_of(&rt, &mut domain);
    let publisher = publisher_of(&rt, &mut domain);
    assert!(rt; subscriber.is_in(&domain));
    let updated = subscriber.update_connections(&mut domain).is_ok();
    let taken = sent_to(&rt, &mut domain, &publisher, 1, 1, 0);
    assert!(rt; close_publisher(&mut domain, publisher));
    let kept = domain.connection_count();
    let nothing = next_reading(&rt, &mut domain, &subscriber);
    assert!(rt; subscriber.is_in(&domain));
    let updated_again = subscriber.update_connections(&mut domain).is_ok();
    let still = domain.connection_count();
    close_channel(&rt, &mut domain, &subscriber, 0);
    assert!(rt; subscriber.is_in(&domain));
    let is_closed = subscriber.at_least_one_channel_has_state(&domain, 0, u64::MAX);
    assert!(rt; close_subscriber(&mut domain, subscriber));
    let gone = domain.connection_count();
    drop(domain);
    assert!(rt; updated && taken == 1);
    assert!(rt; nothing.is_none() && updated_again);
    assert!(rt; [kept, still, gone] == [1, 1, 0]);
    assert!(rt; is_closed);
}

// The handler that is asked of the full channel fails the send.
#[test]
fn a_handler_fails_a_send_to_one_connection(rt: HostRuntime) {
    let mut domain = domain_of(&rt, rt.alloc(), channels(2, 1));
    let subscriber = subscriber_of(&rt, &mut domain);
    let handler = BackpressureHandler::Fixed(BackpressureAction::DiscardDataAndFail);
    let factory = domain.publisher_builder().set_backpressure_handler(handler);
    let publisher = factory.create(&mut domain).expect(&rt, "a publisher");
    let taken = sent_to(&rt, &mut domain, &publisher, 1, 1, 0);
    let message = message_of(&rt, &mut domain, &publisher, 2);
    let failed = send_there(&rt, &mut domain, message, 1, 0);
    let is_failed = matches!(failed, Err(SendError::UnableToDeliver));
    if let Ok(outcome) = failed {
        let _count = receiver_count(outcome);
    }
    let other = sent_to(&rt, &mut domain, &publisher, 3, 0, 0);
    publisher.disown();
    subscriber.disown();
    drop(domain);
    assert!(rt; [taken, other] == [1, 1]);
    assert!(rt; is_failed);
}
