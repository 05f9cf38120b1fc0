//! Two domains in which the same calls were made, so that the same numbers are live in both: each holds
//! its own handles alone, and none that was consumed, also where what that named was used again.

use crate::tests::waiting_publishers::{
    Ports, block, blocked_again, deliver, delivered, given_up, lend, message_of, next_reading,
    release, subscriber_of, take, waiting_publisher,
};
use iox2_fixtures::{Weather, close_publisher, close_subscriber, settings};
use iox2_machine::{Key, ServiceConfig};
use iox2_pubsub::{BlockedSend, Domain, Publisher, Sample, SampleMut, SampleMutUninit, Subscriber};
use std::alloc::Global;
use std::process::Abort;

// What a key names.
#[derive(Clone, Copy, Debug)]
enum Kind {
    Publisher,
    Subscriber,
    Loan,
    Message,
    Sample,
    BlockedSend,
}

const KINDS: [Kind; 6] = [
    Kind::Publisher,
    Kind::Subscriber,
    Kind::Loan,
    Kind::Message,
    Kind::Sample,
    Kind::BlockedSend,
];

// A publisher and a subscriber of this service, in which there may be one more of each. The publisher has
// one slot, so that each of its loans is where the one before it was. If a send is to be blocked it has
// another, with a message that waits.
fn ports_of(rt: &impl Abort, alloc: Global, service_id: u128, kind: Kind) -> Ports {
    let config = ServiceConfig {
        service_id,
        max_publishers: 2,
        max_subscribers: 2,
        ..settings()
    };
    let mut domain = Domain::new(alloc, config).expect(rt, "a domain");
    let subscriber = subscriber_of(rt, &mut domain, 1);
    let is_full = matches!(kind, Kind::BlockedSend);
    let slots = if is_full { 2 } else { 1 };
    let factory = domain
        .publisher_builder()
        .override_sample_preallocation(move |_| slots);
    let publisher = factory.create(&mut domain).expect(rt, "a publisher");
    if is_full {
        assert!(rt; deliver(rt, &mut domain, &publisher, 20) == 1);
    }
    Ports {
        domain,
        publisher,
        subscriber,
    }
}

// A handle of each kind.
enum Handle {
    Publisher(Publisher),
    Subscriber(Subscriber),
    Loan(SampleMutUninit),
    Message(SampleMut),
    Sample(Sample),
    BlockedSend(BlockedSend),
}

impl Handle {
    // Makes one. The last message that was sent is released before, so that its slot is free.
    fn new(rt: &impl Abort, ports: &mut Ports, kind: Kind) -> Handle {
        let Ports {
            domain,
            publisher,
            subscriber,
        } = ports;
        match kind {
            Kind::Publisher => Handle::Publisher(waiting_publisher(rt, domain)),
            Kind::Subscriber => Handle::Subscriber(subscriber_of(rt, domain, 1)),
            Kind::Loan => Handle::Loan(lend(rt, domain, publisher)),
            Kind::Message => {
                next_reading(rt, domain, subscriber);
                Handle::Message(message_of(rt, domain, publisher, 20))
            }
            Kind::Sample => {
                assert!(rt; deliver(rt, domain, publisher, 20) == 1);
                Handle::Sample(take(rt, domain, subscriber))
            }
            Kind::BlockedSend => Handle::BlockedSend(block(rt, domain, publisher, 21)),
        }
    }

    fn key(&self) -> Key {
        match self {
            Handle::Publisher(publisher) => publisher.key(),
            Handle::Subscriber(subscriber) => subscriber.key(),
            Handle::Loan(loan) => loan.key(),
            Handle::Message(message) => message.key(),
            Handle::Sample(sample) => sample.key(),
            Handle::BlockedSend(waiting) => waiting.key(),
        }
    }

    // Ends what the handle names: ports are closed, a loan is discarded, a message sent, a sample released,
    // and a blocked send, which is tried again once, given up.
    fn end(self, rt: &impl Abort, domain: &mut Weather) {
        match self {
            Handle::Publisher(publisher) => assert!(rt; close_publisher(domain, publisher)),
            Handle::Subscriber(subscriber) => assert!(rt; close_subscriber(domain, subscriber)),
            Handle::Loan(loan) => {
                let found = domain.unwritten_of(&loan.into_parts());
                found.expect(rt, "a loan").discard(domain);
            }
            Handle::Message(message) => {
                let found = domain.written_of(&message.into_parts());
                let message = found.expect(rt, "a message");
                assert!(rt; !message.is_blocked(domain));
                assert!(rt; delivered(rt, message.send(domain)) == 1);
            }
            Handle::Sample(sample) => release(rt, domain, sample),
            Handle::BlockedSend(waiting) => {
                let waiting = blocked_again(rt, domain, waiting);
                assert!(rt; domain.holds_blocked(waiting.key()));
                assert!(rt; given_up(rt, domain, waiting) == 0);
            }
        }
    }

    // Leaves what it names as it is.
    fn disown(self) {
        match self {
            Handle::Publisher(publisher) => publisher.disown(),
            Handle::Subscriber(subscriber) => subscriber.disown(),
            Handle::Loan(loan) => loan.disown(),
            Handle::Message(message) => message.disown(),
            Handle::Sample(sample) => sample.disown(),
            Handle::BlockedSend(waiting) => waiting.disown(),
        }
    }
}

fn is_held(kind: Kind, domain: &Weather, key: Key) -> bool {
    match kind {
        Kind::Publisher => domain.holds_publisher(key),
        Kind::Subscriber => domain.holds_subscriber(key),
        Kind::Loan | Kind::Message => domain.holds_loan(key),
        Kind::Sample => domain.holds_sample(key),
        Kind::BlockedSend => domain.holds_blocked(key),
    }
}

// Asserts which of the two keys the domain holds.
fn assert_held(rt: &impl Abort, kind: Kind, domain: &Weather, keys: [Key; 2], held: [bool; 2]) {
    let [first, second] = keys;
    assert!(rt;
        is_held(kind, domain, first) == held[0],
        "the first {kind:?}"
    );
    assert!(rt;
        is_held(kind, domain, second) == held[1],
        "the second {kind:?}"
    );
}

// Makes a handle, which the domain holds until it ends, and then another. The domain never holds the twin.
// Returns the key of the first.
fn end_one(rt: &impl Abort, ports: &mut Ports, kind: Kind, twin: Key) -> Key {
    let handle = Handle::new(rt, ports, kind);
    let key = handle.key();
    assert_held(rt, kind, &ports.domain, [key, twin], [true, false]);
    handle.end(rt, &mut ports.domain);
    assert_held(rt, kind, &ports.domain, [key, twin], [false, false]);
    let next = Handle::new(rt, ports, kind);
    assert_held(rt, kind, &ports.domain, [key, twin], [false, false]);
    assert!(rt;
        is_held(kind, &ports.domain, next.key()),
        "the next {kind:?}"
    );
    next.disown();
    key
}

#[test]
fn a_domain_holds_what_is_its_own_until_it_ends(rt: HostRuntime) {
    for kind in KINDS {
        let mut first = ports_of(&rt, rt.alloc(), 1, kind);
        let mut second = ports_of(&rt, rt.alloc(), 2, kind);
        let handle = Handle::new(&rt, &mut second, kind);
        let twin = handle.key();
        handle.disown();
        let key = end_one(&rt, &mut first, kind, twin);
        assert_held(&rt, kind, &second.domain, [key, twin], [false, true]);
        first.end();
        second.end();
        let is_alike = twin
            == Key {
                service_id: 2,
                ..key
            };
        assert!(rt; key.service_id == 1 && is_alike, "the keys of a {kind:?}");
    }
}
