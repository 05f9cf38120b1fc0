//! Two runs of commands that differ in what one subscriber does.
ghost use Rattle.std.specs.Prelude.{◌≡◌, true};
ghost use Rattle.iox2_commands.specs.Refusals.{TellNoRefusal};

use iox2_fixtures::smallest;
use iox2_machine::{
    BackpressureAction, BackpressureStrategy, DegradationAction, ReceiveError, SendError,
    ServiceConfig, SubscriberCreateError, TypeVariant, UniquePublisherId, UniqueSubscriberId,
};
use iox2_pubsub::Domain;
use iox2_runs::{Command, NewPublisher, Reply, SubscriberChannelCall, compare_runs};
use std::alloc::{AllocError, Global};
use std::process::Abort;

/// Commands of a run.
pub(crate) type Commands = Vec<Command<u64, u8>>;

/// Their replies.
pub(crate) type Replies = Vec<Reply<u64, u8>>;

type End = (Domain<u64, u8>, Replies);

/// The command that makes a subscriber.
pub(crate) const SUBSCRIBER: Command<u64, u8> = Command::CreateSubscriber {
    buffer: None,
    degradation: DegradationAction::Warn,
};

/// The command that makes a publisher with one loan.
pub(crate) fn publisher() -> Command<u64, u8> {
    publisher_of(1, None)
}

// The same with slices of this length, and with this answer to a full subscriber.
fn publisher_of(length: usize, answer: Option<BackpressureAction>) -> Command<u64, u8> {
    Command::CreatePublisher(NewPublisher {
        initial_max_slice_len: length,
        backpressure: answer,
        ..NewPublisher::new(1, BackpressureStrategy::DiscardData)
    })
}

/// The command, or nothing in its place.
pub(crate) fn if_kept(is_kept: bool, command: Command<u64, u8>) -> Command<u64, u8> {
    if is_kept { command } else { Command::Nothing }
}

// Two messages are sent to two subscribers. In between the first subscriber receives one, or doesn't.
fn two_messages(
    alloc: Global,
    publisher: Command<u64, u8>,
    receives: bool,
) -> Result<Commands, AllocError> {
    let commands = [
        SUBSCRIBER,
        SUBSCRIBER,
        publisher,
        Command::SendCopy { of: 2, value: 1 },
        if_kept(receives, Command::Receive { of: 0 }),
        Command::SendCopy { of: 2, value: 2 },
        Command::Receive { of: 1 },
        Command::Read { of: 6, at: 0 },
        Command::Receive { of: 1 },
    ];
    Ok(Vec::from_array(alloc, commands)?)
}

// The same, where the first subscriber closes its channel in between, or doesn't.
fn two_messages_past_a_channel(alloc: Global, closes: bool) -> Result<Commands, AllocError> {
    let closes_channel = Command::SubscriberChannel {
        of: 1,
        channel: 0,
        call: SubscriberChannelCall::Close { expected: 0 },
    };
    let commands = [
        publisher(),
        SUBSCRIBER,
        SUBSCRIBER,
        Command::SendCopy { of: 0, value: 1 },
        if_kept(closes, closes_channel),
        Command::SendCopy { of: 0, value: 2 },
        Command::Receive { of: 2 },
        Command::Read { of: 6, at: 0 },
        Command::Receive { of: 2 },
    ];
    Ok(Vec::from_array(alloc, commands)?)
}

// The same with two slices of two elements each. The second element is read.
fn two_slices(alloc: Global, receives: bool) -> Result<Commands, AllocError> {
    let commands = [
        SUBSCRIBER,
        SUBSCRIBER,
        publisher_of(2, None),
        Command::LoanSlice { of: 2, len: 2 },
        Command::WriteAll { of: 3, value: 1 },
        Command::Send { of: 3 },
        if_kept(receives, Command::Receive { of: 0 }),
        Command::LoanSlice { of: 2, len: 2 },
        Command::WriteAll { of: 7, value: 2 },
        Command::Send { of: 7 },
        Command::Receive { of: 1 },
        Command::Read { of: 10, at: 1 },
        Command::Receive { of: 1 },
    ];
    Ok(Vec::from_array(alloc, commands)?)
}

// The first subscriber is closed, before which it may receive a message and release it. A new one
// takes its place.
fn close_of_another(alloc: Global, receives: bool, releases: bool) -> Result<Commands, AllocError> {
    let commands = [
        SUBSCRIBER,
        SUBSCRIBER,
        publisher(),
        Command::LoanUninit { of: 2 },
        Command::WriteAll { of: 3, value: 1 },
        Command::Send { of: 3 },
        if_kept(receives, Command::Receive { of: 0 }),
        if_kept(releases, Command::Release { of: 6 }),
        Command::Close { of: 0 },
        SUBSCRIBER,
        Command::LoanUninit { of: 2 },
        Command::WriteAll { of: 10, value: 2 },
        Command::Send { of: 10 },
        Command::Receive { of: 1 },
        Command::Read { of: 13, at: 0 },
        Command::Receive { of: 9 },
        Command::Read { of: 15, at: 0 },
    ];
    Ok(Vec::from_array(alloc, commands)?)
}

// The second subscriber is closed while it has a sample, before which the first one may receive too.
fn close_with_a_sample(alloc: Global, other_receives: bool) -> Result<Commands, AllocError> {
    let commands = [
        SUBSCRIBER,
        SUBSCRIBER,
        publisher(),
        Command::LoanUninit { of: 2 },
        Command::WriteAll { of: 3, value: 1 },
        Command::Send { of: 3 },
        if_kept(other_receives, Command::Receive { of: 0 }),
        Command::Receive { of: 1 },
        Command::Close { of: 1 },
        Command::Read { of: 7, at: 0 },
        SUBSCRIBER,
        Command::Release { of: 7 },
        SUBSCRIBER,
    ];
    Ok(Vec::from_array(alloc, commands)?)
}

// The replies of a run whose domain isn't needed.
fn replies_of((_, replies): End) -> Replies {
    replies
}

/// Two subscribers, each with a buffer of one, which may borrow one message.
pub(crate) fn two_subscribers() -> ServiceConfig {
    ServiceConfig {
        max_subscribers: 2,
        ..smallest()
    }
}

/// The replies of both runs on domains with these settings.
pub(crate) fn compared_on(
    rt: &impl Abort,
    alloc: Global,
    config: &ServiceConfig,
    commands: Commands,
    reduced: Commands,
) -> (Replies, Replies) {
    let ends: Option<(End, End)> = compare_runs(alloc, config, commands, reduced);
    let (first, second) = ends.expect(rt, "two runs");
    (replies_of(first), replies_of(second))
}

// The replies of both runs, with two subscribers at most.
fn compared(
    rt: &impl Abort,
    alloc: Global,
    commands: Commands,
    reduced: Commands,
) -> (Replies, Replies) {
    compared_on(rt, alloc, &two_subscribers(), commands, reduced)
}

// The replies on domains with these settings where the first subscriber receives, and where it doesn't.
fn two_messages_compared(
    rt: &impl Abort,
    alloc: Global,
    config: &ServiceConfig,
    publisher: Command<u64, u8>,
) -> (Replies, Replies) {
    let commands = two_messages(alloc, publisher, true).expect(rt, "commands");
    let reduced = two_messages(alloc, publisher, false).expect(rt, "fewer commands");
    compared_on(rt, alloc, config, commands, reduced)
}

// What is answered where the first subscriber receives.
fn answers_with_a_receive() -> [Reply<u64, u8>; 9] {
    [
        Reply::SubscriberMade(UniqueSubscriberId::new(1)),
        Reply::SubscriberMade(UniqueSubscriberId::new(2)),
        Reply::PublisherMade(UniquePublisherId::new(3)),
        Reply::Delivered(2),
        Reply::Sample(UniquePublisherId::new(3)),
        Reply::Delivered(1),
        Reply::Sample(UniquePublisherId::new(3)),
        Reply::Cell(Some(1)),
        Reply::NoSample,
    ]
}

#[test]
fn a_subscriber_sees_the_same_beside_a_slower_one(rt: HostRuntime) {
    let (replies, others) = two_messages_compared(&rt, rt.alloc(), &two_subscribers(), publisher());
    let mut slower = answers_with_a_receive();
    slower[4] = Reply::Done;
    slower[5] = Reply::Delivered(0);
    assert!(rt; replies.as_slice() == answers_with_a_receive().as_slice());
    assert!(rt; others.as_slice() == slower.as_slice());
}

// Only the publisher is told of that channel.
#[test]
fn a_subscriber_sees_the_same_beside_one_that_closes_its_channel(rt: HostRuntime) {
    let commands = two_messages_past_a_channel(rt.alloc(), true).expect(&rt, "commands");
    let reduced = two_messages_past_a_channel(rt.alloc(), false).expect(&rt, "fewer commands");
    let config = ServiceConfig {
        subscriber_max_buffer_size: 2,
        ..two_subscribers()
    };
    let (replies, others) = compared_on(&rt, rt.alloc(), &config, commands, reduced);
    let mut expected = [
        Reply::PublisherMade(UniquePublisherId::new(1)),
        Reply::SubscriberMade(UniqueSubscriberId::new(2)),
        Reply::SubscriberMade(UniqueSubscriberId::new(3)),
        Reply::Delivered(2),
        Reply::Done,
        Reply::Delivered(1),
        Reply::Sample(UniquePublisherId::new(1)),
        Reply::Cell(Some(1)),
        Reply::ReceiveRefused(ReceiveError::ExceedsMaxBorrows),
    ];
    assert!(rt; replies.as_slice() == expected.as_slice());
    expected[5] = Reply::Delivered(2);
    assert!(rt; others.as_slice() == expected.as_slice());
}

// The second message takes the place of the first.
#[test]
fn runs_are_compared_where_buffers_overflow(rt: HostRuntime) {
    let config = ServiceConfig {
        enable_safe_overflow: true,
        ..two_subscribers()
    };
    let (replies, others) = two_messages_compared(&rt, rt.alloc(), &config, publisher());
    let mut expected = answers_with_a_receive();
    expected[5] = Reply::Delivered(2);
    expected[7] = Reply::Cell(Some(2));
    assert!(rt; replies.as_slice() == expected.as_slice());
    expected[4] = Reply::Done;
    assert!(rt; others.as_slice() == expected.as_slice());
}

// The second subscriber fails the second send.
#[test]
fn runs_are_compared_where_a_handler_fails_sends(rt: HostRuntime) {
    let publisher = publisher_of(1, Some(BackpressureAction::DiscardDataAndFail));
    let (replies, others) = two_messages_compared(&rt, rt.alloc(), &two_subscribers(), publisher);
    let mut expected = answers_with_a_receive();
    expected[5] = Reply::SendRefused(SendError::UnableToDeliver);
    assert!(rt; replies.as_slice() == expected.as_slice());
    expected[4] = Reply::Done;
    assert!(rt; others.as_slice() == expected.as_slice());
}

// Nothing is lent, sent at once or received there, and so nothing is read.
#[test]
fn runs_are_compared_where_an_element_has_many_units(rt: HostRuntime) {
    for (units_per_element, number_of_channels) in [(2, 1), (3, 5)] {
        let config = ServiceConfig {
            units_per_element,
            number_of_channels,
            ..two_subscribers()
        };
        let (replies, others) = two_messages_compared(&rt, rt.alloc(), &config, publisher());
        let mut expected = answers_with_a_receive();
        for index in 3..9 {
            expected[index] = Reply::Skipped;
        }
        assert!(rt; replies.as_slice() == expected.as_slice());
        expected[4] = Reply::Done;
        assert!(rt; others.as_slice() == expected.as_slice());
    }
}

// The commands are on channel 0 of five.
#[test]
fn runs_are_compared_where_connections_have_many_channels(rt: HostRuntime) {
    let config = ServiceConfig {
        number_of_channels: 5,
        ..two_subscribers()
    };
    let (replies, others) = two_messages_compared(&rt, rt.alloc(), &config, publisher());
    let mut expected = answers_with_a_receive();
    assert!(rt; replies.as_slice() == expected.as_slice());
    expected[4] = Reply::Done;
    expected[5] = Reply::Delivered(0);
    assert!(rt; others.as_slice() == expected.as_slice());
}

#[test]
fn runs_are_compared_where_messages_are_slices(rt: HostRuntime) {
    let config = ServiceConfig {
        variant: TypeVariant::Dynamic,
        ..two_subscribers()
    };
    let commands = two_slices(rt.alloc(), true).expect(&rt, "commands");
    let reduced = two_slices(rt.alloc(), false).expect(&rt, "fewer commands");
    let (replies, others) = compared_on(&rt, rt.alloc(), &config, commands, reduced);
    let mut expected = [
        Reply::SubscriberMade(UniqueSubscriberId::new(1)),
        Reply::SubscriberMade(UniqueSubscriberId::new(2)),
        Reply::PublisherMade(UniquePublisherId::new(3)),
        Reply::Loaned,
        Reply::Done,
        Reply::Delivered(2),
        Reply::Sample(UniquePublisherId::new(3)),
        Reply::Loaned,
        Reply::Done,
        Reply::Delivered(1),
        Reply::Sample(UniquePublisherId::new(3)),
        Reply::Cell(Some(1)),
        Reply::NoSample,
    ];
    assert!(rt; replies.as_slice() == expected.as_slice());
    expected[6] = Reply::Done;
    expected[9] = Reply::Delivered(0);
    assert!(rt; others.as_slice() == expected.as_slice());
}

// What is answered where another subscriber receives and releases a message, and is closed.
fn answers_with_a_close() -> [Reply<u64, u8>; 17] {
    [
        Reply::SubscriberMade(UniqueSubscriberId::new(1)),
        Reply::SubscriberMade(UniqueSubscriberId::new(2)),
        Reply::PublisherMade(UniquePublisherId::new(3)),
        Reply::Loaned,
        Reply::Done,
        Reply::Delivered(2),
        Reply::Sample(UniquePublisherId::new(3)),
        Reply::Done,
        Reply::Done,
        Reply::SubscriberMade(UniqueSubscriberId::new(4)),
        Reply::Loaned,
        Reply::Done,
        Reply::Delivered(1),
        Reply::Sample(UniquePublisherId::new(3)),
        Reply::Cell(Some(1)),
        Reply::Sample(UniquePublisherId::new(3)),
        Reply::Cell(Some(2)),
    ]
}

#[test]
fn a_subscriber_sees_the_same_beside_one_that_is_closed(rt: HostRuntime) {
    let commands = close_of_another(rt.alloc(), true, true).expect(&rt, "commands");
    let reduced = close_of_another(rt.alloc(), false, false).expect(&rt, "fewer commands");
    let (replies, others) = compared(&rt, rt.alloc(), commands, reduced);
    let mut without = answers_with_a_close();
    without[6] = Reply::Done;
    assert!(rt; replies.as_slice() == answers_with_a_close().as_slice());
    assert!(rt; others.as_slice() == without.as_slice());
}

// A close is felt where a sample is out in one run alone: the place of its subscriber isn't free.
#[test]
fn a_subscriber_that_keeps_a_sample_keeps_its_place(rt: HostRuntime) {
    let commands = close_of_another(rt.alloc(), true, true).expect(&rt, "commands");
    let reduced = close_of_another(rt.alloc(), true, false).expect(&rt, "fewer commands");
    let (replies, others) = compared(&rt, rt.alloc(), commands, reduced);
    let mut keeping = answers_with_a_close();
    keeping[9] = Reply::SubscriberRefused(SubscriberCreateError::ExceedsMaxSupportedSubscribers);
    keeping[12] = Reply::Delivered(0);
    keeping[15] = Reply::Skipped;
    keeping[16] = Reply::Skipped;
    assert!(rt; replies.as_slice() == answers_with_a_close().as_slice());
    assert!(rt; others.as_slice() == keeping.as_slice());
}

// What is answered where both subscribers receive and the second is closed.
fn answers_with_a_sample() -> [Reply<u64, u8>; 13] {
    [
        Reply::SubscriberMade(UniqueSubscriberId::new(1)),
        Reply::SubscriberMade(UniqueSubscriberId::new(2)),
        Reply::PublisherMade(UniquePublisherId::new(3)),
        Reply::Loaned,
        Reply::Done,
        Reply::Delivered(2),
        Reply::Sample(UniquePublisherId::new(3)),
        Reply::Sample(UniquePublisherId::new(3)),
        Reply::Done,
        Reply::Cell(Some(1)),
        Reply::SubscriberRefused(SubscriberCreateError::ExceedsMaxSupportedSubscribers),
        Reply::Done,
        Reply::SubscriberMade(UniqueSubscriberId::new(4)),
    ]
}

#[test]
fn a_subscriber_sees_the_same_where_it_is_closed_with_a_sample(rt: HostRuntime) {
    let commands = close_with_a_sample(rt.alloc(), true).expect(&rt, "commands");
    let reduced = close_with_a_sample(rt.alloc(), false).expect(&rt, "fewer commands");
    let (replies, others) = compared(&rt, rt.alloc(), commands, reduced);
    let mut without = answers_with_a_sample();
    without[6] = Reply::Done;
    assert!(rt; replies.as_slice() == answers_with_a_sample().as_slice());
    assert!(rt; others.as_slice() == without.as_slice());
}

// Of two subscribers that come after 100 others the first receives a message, or doesn't.
fn after_many_subscribers(alloc: Global, receives: bool) -> Result<Commands, AllocError> {
    let mut commands = Vec::from_array(alloc, [SUBSCRIBER; 102])?;
    let last = [
        publisher(),
        Command::SendCopy { of: 102, value: 1 },
        if_kept(receives, Command::Receive { of: 100 }),
        Command::Receive { of: 101 },
        Command::Read { of: 105, at: 0 },
    ];
    commands.extend_from_slice(&last)?;
    Ok(commands)
}

// Whether the domain of a run was refused no connection, as the law of two runs asks.
fn met_no_refusal(end: &End) -> bool
    ensures { result ≡ true → TellNoRefusal (end.now.0).warnings }
{
    end.0.refused_connections() == 0
}

// Of each subscriber there is a warning, so that more are told than a domain keeps. No connection is refused.
#[test]
fn runs_are_compared_after_more_warnings_than_are_kept(rt: HostRuntime) {
    let config = ServiceConfig {
        max_subscribers: 102,
        subscriber_expired_connection_buffer: 0,
        ..smallest()
    };
    let commands = after_many_subscribers(rt.alloc(), true).expect(&rt, "commands");
    let reduced = after_many_subscribers(rt.alloc(), false).expect(&rt, "fewer commands");
    let ends: Option<(End, End)> = compare_runs(rt.alloc(), &config, commands, reduced);
    let (first, second) = ends.expect(&rt, "two runs");
    assert!(rt; met_no_refusal(&first) && met_no_refusal(&second));
    let replies = replies_of(first);
    let others = replies_of(second);
    assert!(rt; matches!(replies.get(103), Some(Reply::Delivered(102))));
    assert!(rt; matches!(replies.get(104), Some(Reply::Sample(_))));
    assert!(rt; matches!(others.get(104), Some(Reply::Done)));
    assert!(rt; matches!(replies.get(105), Some(Reply::Sample(_))));
    assert!(rt; matches!(others.get(105), Some(Reply::Sample(_))));
    assert!(rt; matches!(replies.get(106), Some(Reply::Cell(Some(1)))));
    assert!(rt; matches!(others.get(106), Some(Reply::Cell(Some(1)))));
}
