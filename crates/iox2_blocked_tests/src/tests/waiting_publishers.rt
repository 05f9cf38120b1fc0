//! What tests of publishers that wait for a full subscriber start from, and the calls that they make.
//!
//! These calls test at run time what they ask of their handles, so that a test of many of them has
//! nothing to carry from one call to the next.
ghost use Rattle.std.specs.Prelude.{◌≡◌, false};
ghost use Rattle.std.specs.declared.result.Result.TheVariants.{Ok};
ghost use Rattle.iox2_pubsub.specs.Live.{IsBlockedSend, IsLiveSubscriber, IsReadyPublisher, IsSingleValued, IsUnwritten, IsWritten, Stays};

use iox2_fixtures::{
    Reading, Weather, close_publisher, close_subscriber, is_ready, is_single_valued, settings,
};
use iox2_machine::ServiceConfig;
use iox2_pubsub::{
    BlockedSend, Domain, Publisher, Sample, SampleMut, SampleMutUninit, SendError, SendOutcome,
    Subscriber, Value,
};
use std::alloc::Global;
use std::process::Abort;
use std::time::Duration;

/// A domain of two publishers, which wait for a full subscriber, and of three subscribers. It keeps
/// no history.
pub(crate) fn waiting_domain(rt: &impl Abort, alloc: Global) -> Weather
    ensures { IsSingleValued result }
{
    let config = ServiceConfig {
        max_publishers: 2,
        max_subscribers: 3,
        ..settings()
    };
    Domain::new(alloc, config).expect(rt, "a domain")
}

/// A publisher that waits for a full subscriber, as the settings of its domain say.
pub(crate) fn waiting_publisher(rt: &impl Abort, domain: &mut Weather) -> Publisher
    ensures ready { IsReadyPublisher domain.new result }
    ensures stays { Stays domain.old domain.new }
{
    let factory = domain.publisher_builder();
    factory.create(domain).expect(rt, "a publisher")
}

/// A subscriber that has room for that many messages of each publisher.
pub(crate) fn subscriber_of(rt: &impl Abort, domain: &mut Weather, buffer_size: usize) -> Subscriber
    ensures live { IsLiveSubscriber domain.new result }
    ensures stays { Stays domain.old domain.new }
{
    let factory = domain.subscriber_builder().buffer_size(buffer_size);
    factory.create(domain).expect(rt, "a subscriber")
}

/// A domain, a publisher of it and a subscriber.
pub(crate) struct Ports {
    /// The domain of both.
    pub(crate) domain: Weather,
    /// The publisher.
    pub(crate) publisher: Publisher,
    /// The subscriber.
    pub(crate) subscriber: Subscriber,
}

impl Ports {
    /// Ends the domain, with both ports as they are.
    pub(crate) fn end(self) {
        let Ports {
            domain,
            publisher,
            subscriber,
        } = self;
        publisher.disown();
        subscriber.disown();
        drop(domain);
    }

    /// Ends the domain once both ports are closed.
    pub(crate) fn close(self, rt: &impl Abort) {
        let Ports {
            mut domain,
            publisher,
            subscriber,
        } = self;
        assert!(rt; close_publisher(&mut domain, publisher));
        assert!(rt; close_subscriber(&mut domain, subscriber));
        drop(domain);
    }
}

/// A publisher that waits for a full subscriber, and a subscriber for which one message may wait, in
/// a domain that has room for more of both.
pub(crate) fn waiting_ports(rt: &impl Abort, alloc: Global) -> Ports {
    let mut domain = waiting_domain(rt, alloc);
    let subscriber = subscriber_of(rt, &mut domain, 1);
    let publisher = waiting_publisher(rt, &mut domain);
    Ports {
        domain,
        publisher,
        subscriber,
    }
}

/// The same, where the message 20 waits for the subscriber, and a send of 21 is blocked.
pub(crate) fn blocked_ports(rt: &impl Abort, alloc: Global) -> (Ports, BlockedSend) {
    let mut ports = waiting_ports(rt, alloc);
    assert!(rt; deliver(rt, &mut ports.domain, &ports.publisher, 20) == 1);
    let waiting = block(rt, &mut ports.domain, &ports.publisher, 21);
    (ports, waiting)
}

/// The send, which is blocked.
pub(crate) fn blocked(rt: &impl Abort, sent: Result<SendOutcome, SendError>) -> BlockedSend
    ensures { sent ≡ Ok (SendOutcome.Blocked result) }
{
    match sent {
        Ok(SendOutcome::Blocked(blocked)) => blocked,
        Ok(SendOutcome::Delivered(_)) => panic!(rt; "the send isn't blocked"),
        Err(_) => panic!(rt; "the send is refused"),
    }
}

/// How many subscribers took the message of a send that isn't blocked.
pub(crate) fn delivered(rt: &impl Abort, sent: Result<SendOutcome, SendError>) -> usize
    ensures { sent ≡ Ok (SendOutcome.Delivered result) }
{
    match sent {
        Ok(SendOutcome::Delivered(count)) => count,
        Ok(SendOutcome::Blocked(blocked)) => {
            blocked.disown();
            panic!(rt; "the send is blocked")
        }
        Err(_) => panic!(rt; "the send is refused"),
    }
}

// ---- what a call asks for is tested

/// Asserts that the send is one of the domain's that is blocked.
pub(crate) fn assert_blocked(rt: &impl Abort, domain: &Weather, waiting: &BlockedSend)
    ensures { IsBlockedSend domain.now waiting.now }
{
    assert!(rt; domain.holds_blocked(waiting.key()));
}

/// Whether a send of the publisher is blocked, which is one of the domain's.
pub(crate) fn has_blocked_send(rt: &impl Abort, domain: &Weather, publisher: &Publisher) -> bool
    ensures { result ≡ false → IsReadyPublisher domain.now publisher.now }
{
    assert!(rt; publisher.is_in(domain));
    publisher.is_blocked(domain)
}

/// Lends a message.
pub(crate) fn lend(rt: &impl Abort, domain: &mut Weather, publisher: &Publisher) -> SampleMutUninit
    ensures loan { IsUnwritten domain.new result }
    ensures single_valued { IsSingleValued domain.new }
{
    assert!(rt; is_single_valued(domain));
    assert!(rt; is_ready(domain, publisher));
    publisher.loan_uninit(domain).expect(rt, "a loan")
}

/// Lends and writes a message.
pub(crate) fn message_of(
    rt: &impl Abort,
    domain: &mut Weather,
    publisher: &Publisher,
    celsius: u64,
) -> SampleMut
    ensures { IsWritten domain.new result }
{
    let loan = lend(rt, domain, publisher);
    loan.write_payload(domain, Reading { celsius })
}

/// Sends a value.
pub(crate) fn send(
    rt: &impl Abort,
    domain: &mut Weather,
    publisher: &Publisher,
    celsius: u64,
) -> Result<SendOutcome, SendError> {
    assert!(rt; is_single_valued(domain));
    assert!(rt; is_ready(domain, publisher));
    publisher.send_copy(domain, Reading { celsius })
}

/// Tries a blocked send again.
pub(crate) fn retry(
    rt: &impl Abort,
    domain: &mut Weather,
    waiting: BlockedSend,
    elapsed: Duration,
) -> Result<SendOutcome, SendError> {
    assert_blocked(rt, domain, &waiting);
    waiting.retry(domain, elapsed)
}

/// Gives up the subscriber that a blocked send waits for.
pub(crate) fn give_up(
    rt: &impl Abort,
    domain: &mut Weather,
    waiting: BlockedSend,
) -> Result<SendOutcome, SendError> {
    assert_blocked(rt, domain, &waiting);
    waiting.give_up(domain)
}

/// Sends a value that isn't blocked. Returns how many subscribers took it.
pub(crate) fn deliver(
    rt: &impl Abort,
    domain: &mut Weather,
    publisher: &Publisher,
    celsius: u64,
) -> usize {
    delivered(rt, send(rt, domain, publisher, celsius))
}

/// Sends a value, which is blocked.
pub(crate) fn block(
    rt: &impl Abort,
    domain: &mut Weather,
    publisher: &Publisher,
    celsius: u64,
) -> BlockedSend {
    blocked(rt, send(rt, domain, publisher, celsius))
}

/// Tries a send again that isn't blocked then. Returns how many subscribers took it.
pub(crate) fn delivered_at_last(
    rt: &impl Abort,
    domain: &mut Weather,
    waiting: BlockedSend,
) -> usize {
    delivered(rt, retry(rt, domain, waiting, Duration::ZERO))
}

/// Tries a send again that stays blocked.
pub(crate) fn blocked_again(
    rt: &impl Abort,
    domain: &mut Weather,
    waiting: BlockedSend,
) -> BlockedSend {
    blocked(rt, retry(rt, domain, waiting, Duration::ZERO))
}

/// Gives up the subscriber that a send waits for, which isn't blocked then. Returns how many
/// subscribers took it.
pub(crate) fn given_up(rt: &impl Abort, domain: &mut Weather, waiting: BlockedSend) -> usize {
    delivered(rt, give_up(rt, domain, waiting))
}

/// Receives a message, which waits.
pub(crate) fn take(rt: &impl Abort, domain: &mut Weather, subscriber: &Subscriber) -> Sample {
    assert!(rt; subscriber.is_in(domain));
    let received = subscriber.receive(domain).expect(rt, "an answer");
    received.expect(rt, "a message")
}

/// Gives a message back.
pub(crate) fn release(rt: &impl Abort, domain: &mut Weather, sample: Sample) {
    let found = domain.sample_of::<Value>(&sample.into_parts());
    found.expect(rt, "a sample").release(domain);
}

/// Reads and releases what the subscriber receives next. `None` where no message waits.
pub(crate) fn next_reading(
    rt: &impl Abort,
    domain: &mut Weather,
    subscriber: &Subscriber,
) -> Option<u64>
    ensures { Stays domain.old domain.new }
{
    assert!(rt; is_single_valued(domain));
    assert!(rt; subscriber.is_in(domain));
    iox2_fixtures::next_reading(domain, subscriber).expect(rt, "an answer")
}
