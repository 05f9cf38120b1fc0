//! Ports are closed while messages wait.
ghost use Rattle.std.specs.Prelude.{◌≡◌, All, IfSome};
ghost use Rattle.iox2_pubsub.specs.Live.{IsLivePublisher, IsLiveSubscriber, IsReadyPublisher, IsSingleValued, Stays};

use crate::passing::send;
use crate::ports::create_receivers;
use crate::receiver::Receiver;
use crate::sender::Sender;
use iox2_pubsub::{
    BackpressureStrategy, Domain, Publisher, ServiceConfig, Subscriber, TypeVariant,
    UpdateConnections,
};
use std::alloc::Global;

/// What is in a domain when its ports are closed.
#[repr(C)]
pub struct Closing {
    /// How many publishers there are.
    pub publishers: usize,
    /// How many subscribers there are.
    pub subscribers: usize,
    /// How many messages of each publisher wait for each subscriber.
    pub messages: usize,
    /// Whether the subscribers are updated before the messages are sent. Else what waits is lost with
    /// its publisher.
    pub is_known: bool,
    /// Whether the publishers are closed first.
    pub publishers_first: bool,
}

impl Closing {
    /// The settings of a domain that takes these ports and messages.
    pub fn config(&self) -> ServiceConfig
        ensures variant { result.variant ≡ TypeVariant.FixedSize }
        ensures units { result.units_per_element ≡ 1 }
    {
        ServiceConfig {
            max_publishers: self.publishers,
            max_subscribers: self.subscribers,
            subscriber_max_buffer_size: self.messages,
            subscriber_max_borrowed_samples: 1,
            subscriber_expired_connection_buffer: self.publishers,
            publisher_max_loaned_samples: 1,
            enable_safe_overflow: false,
            ..ServiceConfig::new(1)
        }
    }
}

/// Makes the ports, sends the messages, and closes all ports. Returns how many were closed. `None`
/// where something is refused.
pub fn close_all(alloc: Global, closing: &Closing) -> Option<usize> {
    let mut domain = Domain::<u64, ()>::new(alloc, closing.config()).ok()?;
    close_all_in(alloc, &mut domain, closing)
}

// The same in a domain that takes these ports and messages.
fn close_all_in(alloc: Global, domain: &mut Domain<u64, ()>, closing: &Closing) -> Option<usize>
    requires { IsSingleValued domain.old }
{
    let receivers = create_receivers(alloc, domain, closing.subscribers)?;
    let senders = create_senders(alloc, domain, closing.publishers)?;
    if closing.is_known {
        update_all(domain, &receivers)?;
    }
    send_all(domain, &senders, closing.messages)?;
    Some(if closing.publishers_first {
        let closed = close_publishers(domain, senders);
        closed.saturating_add(close_subscribers(domain, receivers))
    } else {
        let closed = close_subscribers(domain, receivers);
        closed.saturating_add(close_publishers(domain, senders))
    })
}

// Makes that many publishers. `None` where one is refused.
pub(crate) fn create_senders(
    alloc: Global,
    domain: &mut Domain<u64, ()>,
    count: usize,
) -> Option<Vec<Sender>>
    ensures live { IfSome result (λ senders. All (λ sender. IsLivePublisher domain.new sender.publisher) senders.items) }
    ensures stays { Stays domain.old domain.new }
{
    let mut senders = Vec::new(alloc);
    for _ in 0..count {
        let sender = create_sender(domain)?;
        senders.push(sender).ok()?;
    }
    Some(senders)
}

// Makes a publisher that discards. `None` where it is refused.
fn create_sender(domain: &mut Domain<u64, ()>) -> Option<Sender>
    ensures live { IfSome result (λ sender. IsLivePublisher domain.new sender.publisher) }
    ensures stays { Stays domain.old domain.new }
{
    let publisher = domain
        .publisher_builder()
        .backpressure_strategy(BackpressureStrategy::DiscardData)
        .create(domain)
        .ok()?;
    Some(Sender { publisher })
}

// Each subscriber gets to know the publishers. `None` where an update is refused.
pub(crate) fn update_all(domain: &mut Domain<u64, ()>, receivers: &[Receiver]) -> Option<()>
    requires receivers { All (λ receiver. IsLiveSubscriber domain.old receiver.subscriber) receivers.now }
    ensures { Stays domain.old domain.new }
{
    for receiver in receivers {
        receiver.subscriber.update_connections(domain).ok()?;
    }
    Some(())
}

// Each publisher sends that many messages. `None` where one isn't lent.
pub(crate) fn send_all(
    domain: &mut Domain<u64, ()>,
    senders: &[Sender],
    messages: usize,
) -> Option<()>
    requires single_valued { IsSingleValued domain.old }
    requires senders { All (λ sender. IsLivePublisher domain.old sender.publisher) senders.now }
    ensures { Stays domain.old domain.new }
{
    for sender in senders {
        send_many(domain, &sender.publisher, messages)?;
    }
    Some(())
}

// The publisher sends that many messages. `None` where one isn't lent.
fn send_many(domain: &mut Domain<u64, ()>, publisher: &Publisher, messages: usize) -> Option<()>
    requires single_valued { IsSingleValued domain.old }
    requires publisher { IsLivePublisher domain.old publisher.now }
    ensures { Stays domain.old domain.new }
{
    for _ in 0..messages {
        send(domain, publisher, 0)?;
    }
    Some(())
}

// Closes those that are live and have no blocked send, and returns how many they were.
pub(crate) fn close_publishers(domain: &mut Domain<u64, ()>, senders: Vec<Sender>) -> usize {
    let mut closed = 0usize;
    for sender in senders {
        let publisher = sender.into_publisher();
        if publisher.is_in(domain) && !publisher.is_blocked(domain) {
            close_publisher(domain, publisher);
            closed = closed.saturating_add(1);
        } else {
            publisher.disown();
        }
    }
    closed
}

// Closes those that are live, and returns how many they were.
pub(crate) fn close_subscribers(domain: &mut Domain<u64, ()>, receivers: Vec<Receiver>) -> usize {
    let mut closed = 0usize;
    for receiver in receivers {
        let subscriber = receiver.into_subscriber();
        if subscriber.is_in(domain) {
            close_subscriber(domain, subscriber);
            closed = closed.saturating_add(1);
        } else {
            subscriber.disown();
        }
    }
    closed
}

// It stays a function of its own in the program, so that its instructions can be counted.
#[inline(never)]
fn close_publisher(domain: &mut Domain<u64, ()>, publisher: Publisher)
    requires { IsReadyPublisher domain.old publisher }
{
    publisher.close(domain);
}

// It stays a function of its own, as `close_publisher` does.
#[inline(never)]
fn close_subscriber(domain: &mut Domain<u64, ()>, subscriber: Subscriber)
    requires { IsLiveSubscriber domain.old subscriber }
{
    subscriber.close(domain);
}
