//! Runs with calls on channels.
use crate::tests::runs::{CREATE_SUBSCRIBER, create_publisher};
use crate::tests::steps::{Step, check, publisher_made, sample_of, subscriber_made};
use iox2_fixtures::{settings, smallest};
use iox2_machine::{BackpressureStrategy, LoanError, ServiceConfig, worst_case_slots};
use iox2_runs::{Command, NewPublisher, PublisherChannelCall, Reply, SubscriberChannelCall};
use std::time::Duration;

// Sends a loan to one connection.
fn send_there(of: usize, channel: usize, connection: usize) -> Command<u64, u8> {
    Command::SendToConnection {
        of,
        channel,
        connection,
    }
}

// Asks for the place of a publisher's connection.
fn place_of(of: usize, receiver: u128) -> Command<u64, u8> {
    Command::ConnectionPlace { of, receiver }
}

// Asks about a channel at a publisher's first connection, or closes it.
fn at_first(of: usize, channel: usize, call: PublisherChannelCall) -> Command<u64, u8> {
    Command::PublisherChannel {
        of,
        channel,
        connection: 0,
        call,
    }
}

// Asks about a channel of a subscriber's connections, or changes it.
fn at_all(of: usize, channel: usize, call: SubscriberChannelCall) -> Command<u64, u8> {
    Command::SubscriberChannel { of, channel, call }
}

// Of two subscribers, one gets what is sent to its connection, in the channel that is named, and from
// none but the first is anything received.
#[test]
fn one_subscriber_gets_what_is_sent_to_its_connection(rt: HostRuntime) {
    let config = ServiceConfig {
        max_subscribers: 2,
        subscriber_max_buffer_size: 1,
        history_size: 0,
        number_of_channels: 2,
        ..settings()
    };
    let steps = [
        (CREATE_SUBSCRIBER, subscriber_made(1)),
        (CREATE_SUBSCRIBER, subscriber_made(2)),
        (create_publisher(1), publisher_made(3)),
        (place_of(2, 1), Reply::Place(Some(0))),
        (place_of(2, 2), Reply::Place(Some(1))),
        (place_of(2, 3), Reply::Place(None)),
        (place_of(0, 1), Reply::Skipped),
        (Command::Loan { of: 2 }, Reply::Loaned),
        (send_there(7, 1, 0), Reply::Delivered(1)),
        (Command::Loan { of: 2 }, Reply::Loaned),
        (send_there(9, 1, 0), Reply::Delivered(0)),
        (Command::LoanUninit { of: 2 }, Reply::Loaned),
        (send_there(11, 0, 1), Reply::Skipped),
        (Command::WriteAll { of: 11, value: 5 }, Reply::Done),
        (send_there(11, 2, 1), Reply::Skipped),
        (send_there(11, 0, 1), Reply::Delivered(1)),
        (send_there(11, 0, 1), Reply::Skipped),
        (Command::Loan { of: 2 }, Reply::Loaned),
        (send_there(17, 0, 7), Reply::Delivered(0)),
        (Command::HasSamples { of: 0 }, Reply::Has(false)),
        (Command::Receive { of: 1 }, sample_of(3)),
        (Command::Read { of: 20, at: 0 }, Reply::Cell(Some(5))),
        (Command::Receive { of: 1 }, Reply::NoSample),
    ];
    check(&rt, rt.alloc(), config, &steps);
}

// A subscriber closes a channel, opens it in another state and hints; its publisher sees it, and closes
// the channel again. What waits there stays.
#[test]
fn both_sides_change_a_channel(rt: HostRuntime) {
    let asks_state = |state: u64| at_first(1, 0, PublisherChannelCall::HasState { state });
    let asks_hint = |state: u64| at_first(1, 0, PublisherChannelCall::HasDisconnectHint { state });
    let sets = |state: u64| at_all(0, 0, SubscriberChannelCall::SetState { state });
    let hints = |expected: u64| at_all(0, 0, SubscriberChannelCall::SetDisconnectHint { expected });
    let closes = |expected: u64| at_all(0, 0, SubscriberChannelCall::Close { expected });
    let some = |state: u64| at_all(0, 0, SubscriberChannelCall::SomeHasState { state });
    let steps = [
        (CREATE_SUBSCRIBER, subscriber_made(1)),
        (create_publisher(1), publisher_made(2)),
        (some(0), Reply::Has(false)),
        (sets(5), Reply::WereClosed(true)),
        (Command::Update { of: 0 }, Reply::Done),
        (some(0), Reply::Has(true)),
        (sets(5), Reply::WereClosed(false)),
        (closes(1), Reply::Done),
        (asks_state(0), Reply::Has(true)),
        (closes(0), Reply::Done),
        (asks_state(u64::MAX), Reply::Has(true)),
        (Command::SendCopy { of: 1, value: 8 }, Reply::Delivered(0)),
        (sets(7), Reply::WereClosed(true)),
        (asks_state(7), Reply::Has(true)),
        (Command::SendCopy { of: 1, value: 9 }, Reply::Delivered(1)),
        (hints(0), Reply::Done),
        (asks_hint(7), Reply::Has(false)),
        (hints(7), Reply::Done),
        (asks_hint(7), Reply::Has(true)),
        (
            at_first(1, 0, PublisherChannelCall::Close { expected: 7 }),
            Reply::Done,
        ),
        (asks_hint(u64::MAX), Reply::Has(false)),
        (asks_state(u64::MAX), Reply::Has(true)),
        (Command::Receive { of: 0 }, sample_of(2)),
        (Command::Read { of: 22, at: 0 }, Reply::Cell(Some(9))),
        (some(u64::MAX), Reply::Has(true)),
    ];
    check(&rt, rt.alloc(), smallest(), &steps);
}

// A command on a channel is skipped where connections lack it, and where no port of its kind is named.
#[test]
fn calls_on_channels_that_are_lacking_are_skipped(rt: HostRuntime) {
    let asks = PublisherChannelCall::HasState { state: 0 };
    let asks_all = SubscriberChannelCall::SomeHasState { state: 0 };
    let steps: [Step; 9] = [
        (CREATE_SUBSCRIBER, subscriber_made(1)),
        (create_publisher(1), publisher_made(2)),
        (at_first(1, 1, asks), Reply::Skipped),
        (at_all(0, 1, asks_all), Reply::Skipped),
        (at_first(0, 0, asks), Reply::Skipped),
        (at_all(1, 0, asks_all), Reply::Skipped),
        (place_of(9, 1), Reply::Skipped),
        (Command::Close { of: 1 }, Reply::Done),
        (at_first(1, 0, asks), Reply::Skipped),
    ];
    check(&rt, rt.alloc(), smallest(), &steps);
}

// A send to one connection waits there, and its publisher is asked meanwhile.
#[test]
fn a_send_to_one_connection_may_be_blocked(rt: HostRuntime) {
    let waiting = NewPublisher::new(2, BackpressureStrategy::RetryUntilDelivered);
    let elapsed = Duration::ZERO;
    let steps = [
        (CREATE_SUBSCRIBER, subscriber_made(1)),
        (Command::CreatePublisher(waiting), publisher_made(2)),
        (Command::Loan { of: 1 }, Reply::Loaned),
        (Command::Loan { of: 1 }, Reply::Loaned),
        (send_there(2, 0, 0), Reply::Delivered(1)),
        (send_there(3, 0, 0), Reply::Blocked),
        (
            at_first(1, 0, PublisherChannelCall::HasState { state: 0 }),
            Reply::Has(true),
        ),
        (place_of(1, 1), Reply::Place(Some(0))),
        (Command::Retry { of: 5, elapsed }, Reply::Blocked),
        (Command::Receive { of: 0 }, sample_of(2)),
        (Command::Retry { of: 5, elapsed }, Reply::Delivered(1)),
        (Command::Loan { of: 1 }, Reply::Loaned),
        (send_there(11, 0, 0), Reply::Blocked),
        (Command::GiveUp { of: 12 }, Reply::Delivered(0)),
    ];
    check(&rt, rt.alloc(), smallest(), &steps);
}

// In the second of two channels nothing is borrowed. So one slot fewer than the worst case is enough, and
// the worst case is least for one channel alone.
#[test]
fn what_a_further_channel_could_lend_stays_free(rt: HostRuntime) {
    let config = ServiceConfig {
        number_of_channels: 2,
        ..smallest()
    };
    assert_eq!(rt; worst_case_slots(&config, 1), Some(5));
    for (slots, last) in [
        (4, Reply::Loaned),
        (3, Reply::LoanRefused(LoanError::OutOfMemory)),
    ] {
        let publisher = NewPublisher {
            override_slots: Some(slots),
            ..NewPublisher::new(1, BackpressureStrategy::DiscardData)
        };
        let steps: [Step; 8] = [
            (CREATE_SUBSCRIBER, subscriber_made(1)),
            (Command::CreatePublisher(publisher), publisher_made(2)),
            (Command::SendCopy { of: 1, value: 5 }, Reply::Delivered(1)),
            (Command::Receive { of: 0 }, sample_of(2)),
            (Command::SendCopy { of: 1, value: 6 }, Reply::Delivered(1)),
            (Command::Loan { of: 1 }, Reply::Loaned),
            (send_there(5, 1, 0), Reply::Delivered(1)),
            (Command::Loan { of: 1 }, last),
        ];
        check(&rt, rt.alloc(), config, &steps);
    }
}
