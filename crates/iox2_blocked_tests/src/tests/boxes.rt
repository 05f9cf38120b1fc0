//! Publishers whose handler is a box.
ghost use Rattle.std.specs.Prelude.{◌≡◌, cond, nat_lt};
ghost use Rattle.iox2_machine.specs.declared.backpressure.BackpressureAction.TheVariants.{DiscardDataAndFail, Retry};

use crate::tests::handlers::failed;
use crate::tests::waiting_publishers::{
    Ports, block, blocked, blocked_again, deliver, delivered, delivered_at_last, give_up, given_up,
    has_blocked_send, next_reading, retry, send, subscriber_of, waiting_domain,
};
use iox2_fixtures::{Weather, close_publisher, close_subscriber, settings, slices};
use iox2_handler_fixtures::Patience;
use iox2_machine::ServiceConfig;
use iox2_pubsub::{
    BackpressureAction, BackpressureFn, BackpressureHandler, BackpressureInfo,
    BackpressureStrategy, BlockedSend, DegradationFn, Domain, Publisher, SendError, SendOutcome,
    UpdateConnections,
};
use std::alloc::Global;
use std::cell::Cell;
use std::process::Abort;
use std::rc::Rc;
use std::time::Duration;

// A publisher that would discard, except that its box tries a delivery again that many times.
fn patient_publisher(
    rt: &impl Abort,
    alloc: Global,
    domain: &mut Weather,
    retries: u64,
) -> Publisher {
    let patience = Patience {
        retries,
        last_answer: BackpressureAction::DiscardDataAndFail,
    };
    let patience: Box<dyn BackpressureFn> = Box::new(alloc, patience).expect(rt, "memory");
    let factory = domain
        .publisher_builder()
        .backpressure_strategy(BackpressureStrategy::DiscardData)
        .set_backpressure_handler(BackpressureHandler::Custom(patience));
    factory.create(domain).expect(rt, "a publisher")
}

// Such a publisher, and a subscriber for which one message waits, so that a send of the next one is
// blocked.
fn patient_ports(rt: &impl Abort, alloc: Global, retries: u64) -> (Ports, BlockedSend) {
    let mut domain = waiting_domain(rt, alloc);
    let subscriber = subscriber_of(rt, &mut domain, 1);
    let publisher = patient_publisher(rt, alloc, &mut domain, retries);
    assert!(rt; deliver(rt, &mut domain, &publisher, 1) == 1);
    let waiting = block(rt, &mut domain, &publisher, 2);
    let ports = Ports {
        domain,
        publisher,
        subscriber,
    };
    (ports, waiting)
}

#[test]
fn a_box_waits_twice_and_fails_the_send_then(rt: HostRuntime) {
    let (mut ports, waiting) = patient_ports(&rt, rt.alloc(), 2);
    let waiting = blocked(
        &rt,
        retry(&rt, &mut ports.domain, waiting, Duration::from_millis(5)),
    );
    let error = failed(
        &rt,
        retry(&rt, &mut ports.domain, waiting, Duration::from_millis(9)),
    );
    let is_blocked = has_blocked_send(&rt, &ports.domain, &ports.publisher);
    let read = next_reading(&rt, &mut ports.domain, &ports.subscriber);
    let nothing = next_reading(&rt, &mut ports.domain, &ports.subscriber);
    ports.end();
    assert!(rt; error == SendError::UnableToDeliver);
    assert!(rt; !is_blocked);
    assert!(rt; [read, nothing] == [Some(1), None]);
}

// It is given up in place of the first retry, which the box would answer.
#[test]
fn a_send_that_a_box_would_try_again_is_given_up(rt: HostRuntime) {
    for retries in [2, 7] {
        let (mut ports, waiting) = patient_ports(&rt, rt.alloc(), retries);
        let taken = given_up(&rt, &mut ports.domain, waiting);
        let is_blocked = has_blocked_send(&rt, &ports.domain, &ports.publisher);
        ports.end();
        assert!(rt; taken == 0);
        assert!(rt; !is_blocked);
    }
}

// The one box waits, the other one fails the send at once. Neither stays for a publisher that comes
// when its own is closed.
#[test]
fn each_publisher_asks_its_own_box(rt: HostRuntime) {
    let mut domain = waiting_domain(&rt, rt.alloc());
    let subscriber = subscriber_of(&rt, &mut domain, 1);
    let patient = patient_publisher(&rt, rt.alloc(), &mut domain, 1);
    let hasty = patient_publisher(&rt, rt.alloc(), &mut domain, 0);
    let first = deliver(&rt, &mut domain, &hasty, 1);
    let of_hasty = failed(&rt, send(&rt, &mut domain, &hasty, 2));
    let second = deliver(&rt, &mut domain, &patient, 3);
    let waiting = block(&rt, &mut domain, &patient, 4);
    let of_patient = failed(&rt, retry(&rt, &mut domain, waiting, Duration::ZERO));
    assert!(rt; close_publisher(&mut domain, hasty));
    let plain = domain
        .publisher_builder()
        .create(&mut domain)
        .expect(&rt, "a publisher");
    let third = deliver(&rt, &mut domain, &plain, 5);
    let waiting = block(&rt, &mut domain, &plain, 6);
    let fourth = given_up(&rt, &mut domain, waiting);
    patient.disown();
    plain.disown();
    subscriber.disown();
    drop(domain);
    assert!(rt; of_hasty == SendError::UnableToDeliver);
    assert!(rt; of_patient == SendError::UnableToDeliver);
    assert!(rt; [first, second, third, fourth] == [1, 1, 1, 0]);
}

// Counts how often it is asked, and tries a delivery again that many times.
#[derive(Drop)]
struct Counting {
    asked: Rc<Cell<u64>>,
    retries: u64,
}

impl BackpressureFn for Counting {
    ghost allows = { λ counting info action. action ≡ cond (nat_lt info.retries counting.retries) Retry DiscardDataAndFail };

    fn call(&self, info: &BackpressureInfo) -> BackpressureAction {
        self.asked.set(self.asked.get().wrapping_add(1));
        if info.retries < self.retries {
            return BackpressureAction::Retry;
        }
        BackpressureAction::DiscardDataAndFail
    }
}

// A publisher whose box counts how often it is asked, and tries a delivery again that many times.
fn counted_publisher(
    rt: &impl Abort,
    alloc: Global,
    domain: &mut Weather,
    asked: &Rc<Cell<u64>>,
    retries: u64,
) -> Publisher {
    let asked = asked.clone().expect(rt, "memory");
    let counting = Counting { asked, retries };
    let counting: Box<dyn BackpressureFn> = Box::new(alloc, counting).expect(rt, "memory");
    let factory = domain
        .publisher_builder()
        .set_backpressure_handler(BackpressureHandler::Custom(counting));
    factory.create(domain).expect(rt, "a publisher")
}

// No contract says how often a box is asked.
#[test]
fn a_box_is_asked_once_at_each_try(rt: HostRuntime) {
    let asked = Rc::new(rt.alloc(), Cell::new(0u64)).expect(&rt, "memory");
    let mut domain = waiting_domain(&rt, rt.alloc());
    let subscriber = subscriber_of(&rt, &mut domain, 1);
    let publisher = counted_publisher(&rt, rt.alloc(), &mut domain, &asked, 100);
    let first = deliver(&rt, &mut domain, &publisher, 1);
    let with_room = asked.get();
    let waiting = block(&rt, &mut domain, &publisher, 2);
    let when_sent = asked.get();
    let waiting = blocked_again(&rt, &mut domain, waiting);
    let when_tried = asked.get();
    let second = given_up(&rt, &mut domain, waiting);
    let in_the_end = asked.get();
    publisher.disown();
    subscriber.disown();
    drop(domain);
    drop(asked);
    assert!(rt; [first, second] == [1, 0]);
    assert!(rt; [with_room, when_sent, when_tried, in_the_end] == [0, 1, 2, 2]);
}

// It is closed before the first retry.
#[test]
fn a_box_is_not_asked_about_a_closed_subscriber(rt: HostRuntime) {
    let asked = Rc::new(rt.alloc(), Cell::new(0u64)).expect(&rt, "memory");
    let mut domain = waiting_domain(&rt, rt.alloc());
    let subscriber = subscriber_of(&rt, &mut domain, 1);
    let publisher = counted_publisher(&rt, rt.alloc(), &mut domain, &asked, 2);
    let first = deliver(&rt, &mut domain, &publisher, 1);
    let waiting = block(&rt, &mut domain, &publisher, 2);
    let before = asked.get();
    assert!(rt; close_subscriber(&mut domain, subscriber));
    let retried = retry(&rt, &mut domain, waiting, Duration::from_millis(5));
    let second = delivered(&rt, retried);
    let after = asked.get();
    publisher.disown();
    drop(domain);
    drop(asked);
    assert!(rt; [first, second] == [1, 0]);
    assert!(rt; [before, after] == [1, 1]);
}

// Three are full. The second one is closed while the send waits for the first one, which is given up then: the box
// is asked about the third.
#[test]
fn a_box_is_asked_about_the_subscriber_behind_a_closed_one(rt: HostRuntime) {
    let asked = Rc::new(rt.alloc(), Cell::new(0u64)).expect(&rt, "memory");
    let mut domain = waiting_domain(&rt, rt.alloc());
    let first = subscriber_of(&rt, &mut domain, 1);
    let second = subscriber_of(&rt, &mut domain, 1);
    let third = subscriber_of(&rt, &mut domain, 1);
    let publisher = counted_publisher(&rt, rt.alloc(), &mut domain, &asked, 100);
    let takers = deliver(&rt, &mut domain, &publisher, 1);
    let waiting = block(&rt, &mut domain, &publisher, 2);
    assert!(rt; close_subscriber(&mut domain, second));
    let waiting = blocked(&rt, give_up(&rt, &mut domain, waiting));
    let read = next_reading(&rt, &mut domain, &third);
    let taken = delivered_at_last(&rt, &mut domain, waiting);
    let in_the_end = asked.get();
    first.disown();
    third.disown();
    publisher.disown();
    drop(domain);
    drop(asked);
    assert!(rt; [takers, taken] == [3, 1]);
    assert!(rt; read == Some(1));
    assert!(rt; in_the_end == 2);
}

// Its subscriber is full. The channel is closed before a send, opened for one that is blocked, and closed
// again before that is retried.
#[test]
fn a_box_is_not_asked_about_a_closed_channel(rt: HostRuntime) {
    let asked = Rc::new(rt.alloc(), Cell::new(0u64)).expect(&rt, "memory");
    let mut domain = waiting_domain(&rt, rt.alloc());
    let subscriber = subscriber_of(&rt, &mut domain, 1);
    let publisher = counted_publisher(&rt, rt.alloc(), &mut domain, &asked, 100);
    let first = deliver(&rt, &mut domain, &publisher, 1);
    assert!(rt; subscriber.is_in(&domain));
    let updated = subscriber.update_connections(&mut domain);
    assert!(rt; subscriber.is_in(&domain));
    subscriber.close_channel(&mut domain, 0, 0);
    let second = deliver(&rt, &mut domain, &publisher, 2);
    let when_closed = asked.get();
    assert!(rt; subscriber.is_in(&domain));
    let was_closed = subscriber.set_channel_state(&mut domain, 0, 7);
    let waiting = block(&rt, &mut domain, &publisher, 3);
    let when_open = asked.get();
    assert!(rt; subscriber.is_in(&domain));
    subscriber.close_channel(&mut domain, 0, 7);
    let third = delivered_at_last(&rt, &mut domain, waiting);
    let when_closed_again = asked.get();
    publisher.disown();
    subscriber.disown();
    drop(domain);
    drop(asked);
    assert!(rt; [first, second, third] == [1, 0, 0]);
    assert!(rt; updated.is_ok() && was_closed);
    assert!(rt; [when_closed, when_open, when_closed_again] == [0, 1, 1]);
}

// How often a send is tried before the publisher's box fails it.
fn tries(rt: &impl Abort, domain: &mut Weather, publisher: &Publisher) -> u64 {
    assert!(rt; deliver(rt, domain, publisher, 1) == 1);
    let mut sent = send(rt, domain, publisher, 2);
    let mut count = 1u64;
    for _ in 0..10 {
        sent = match sent {
            Ok(SendOutcome::Blocked(waiting)) => {
                count = count.wrapping_add(1);
                retry(rt, domain, waiting, Duration::ZERO)
            }
            other => other,
        };
    }
    assert!(rt; failed(rt, sent) == SendError::UnableToDeliver);
    count
}

#[test]
fn each_of_six_publishers_asks_its_own_box(rt: HostRuntime) {
    let config = ServiceConfig {
        max_publishers: 6,
        ..settings()
    };
    let mut domain: Weather = Domain::new(rt.alloc(), config).expect(&rt, "a domain");
    let subscriber = subscriber_of(&rt, &mut domain, 1);
    let first = patient_publisher(&rt, rt.alloc(), &mut domain, 5);
    let second = patient_publisher(&rt, rt.alloc(), &mut domain, 3);
    let third = patient_publisher(&rt, rt.alloc(), &mut domain, 0);
    let fourth = patient_publisher(&rt, rt.alloc(), &mut domain, 1);
    let fifth = patient_publisher(&rt, rt.alloc(), &mut domain, 4);
    let sixth = patient_publisher(&rt, rt.alloc(), &mut domain, 2);
    let counts = [
        tries(&rt, &mut domain, &first),
        tries(&rt, &mut domain, &second),
        tries(&rt, &mut domain, &third),
        tries(&rt, &mut domain, &fourth),
        tries(&rt, &mut domain, &fifth),
        tries(&rt, &mut domain, &sixth),
    ];
    first.disown();
    second.disown();
    third.disown();
    fourth.disown();
    fifth.disown();
    sixth.disown();
    subscriber.disown();
    drop(domain);
    assert!(rt; counts == [6, 4, 1, 2, 5, 3]);
}

// The domain's handlers are of this type, and not boxed.
#[test]
fn a_handler_of_the_domains_own_type_answers_for_slices(rt: HostRuntime) {
    let made = Domain::with_handlers(rt.alloc(), slices());
    let mut domain: Domain<u64, u64, Patience, Box<dyn DegradationFn>> = made.expect(
        &rt, "a domain",
    );
    let factory = domain.slice_subscriber_builder().buffer_size(1);
    let subscriber = factory.create(&mut domain).expect(&rt, "a subscriber");
    let patience = Patience {
        retries: 1,
        last_answer: BackpressureAction::DiscardDataAndFail,
    };
    let factory = domain
        .slice_publisher_builder()
        .set_backpressure_handler(BackpressureHandler::Custom(patience));
    let publisher = factory.create(&mut domain).expect(&rt, "a publisher");
    let message = publisher.loan_slice(&mut domain, 1).expect(&rt, "a loan");
    let first = delivered(&rt, message.send(&mut domain));
    let message = publisher.loan_slice(&mut domain, 1).expect(&rt, "a loan");
    let waiting = blocked(&rt, message.send(&mut domain));
    let error = failed(&rt, waiting.retry(&mut domain, Duration::ZERO));
    publisher.disown();
    subscriber.disown();
    drop(domain);
    assert!(rt; first == 1);
    assert!(rt; error == SendError::UnableToDeliver);
}
