//! Slices wait for a full subscriber.
ghost use Rattle.std.specs.Prelude.{false};

use crate::tests::waiting_publishers::{blocked, delivered};
use iox2_fixtures::{Numbers, is_slice_publisher_ready, is_sliced, slices};
use iox2_machine::{BackpressureAction, SendError};
use iox2_pubsub::slice::{Publisher, SampleMut, Subscriber};
use iox2_pubsub::{BackpressureHandler, BackpressureStrategy, BlockedSend, Domain, SendOutcome};
use std::process::Abort;
use std::time::Duration;

// Whether a send of the publisher is blocked, which is one of the domain's.
fn has_blocked_send(rt: &impl Abort, domain: &Numbers, publisher: &Publisher) -> bool {
    assert!(rt; publisher.is_in(domain));
    publisher.is_blocked(domain)
}

// Whether a send of the written loan's publisher is blocked, where the loan is out.
fn is_held_up(rt: &impl Abort, domain: &Numbers, loan: &SampleMut) -> bool {
    assert!(rt; domain.holds_loan(loan.key()));
    loan.is_blocked(domain)
}

// Sends a slice of these values.
fn send(
    rt: &impl Abort,
    domain: &mut Numbers,
    publisher: &Publisher,
    values: &[u64],
) -> Result<SendOutcome, SendError> {
    assert!(rt; is_sliced(domain));
    assert!(rt; is_slice_publisher_ready(domain, publisher));
    let loan = publisher.loan_slice_uninit(domain, values.len());
    let loan = loan.expect(rt, "a loan");
    if loan.payload(domain).len() != values.len() {
        loan.disown();
        panic!(rt; "the loan has another length");
    }
    loan.write_from_slice(domain, values).send(domain)
}

// Tries a blocked send again.
fn retry(
    rt: &impl Abort,
    domain: &mut Numbers,
    waiting: BlockedSend,
) -> Result<SendOutcome, SendError> {
    assert!(rt; domain.holds_blocked(waiting.key()));
    waiting.retry(domain, Duration::ZERO)
}

// The sum of the slice that the subscriber receives next.
fn next_sum(rt: &impl Abort, domain: &mut Numbers, subscriber: &Subscriber) -> Option<u64> {
    assert!(rt; is_sliced(domain));
    assert!(rt; subscriber.is_in(domain));
    let sample = subscriber.receive(domain).expect(rt, "an answer")?;
    let sum = sample
        .payload(domain)
        .iter()
        .fold(0, |sum: u64, value| sum.wrapping_add(*value));
    sample.release(domain);
    Some(sum)
}

#[test]
fn a_slice_waits_and_arrives_as_it_was_written(rt: HostRuntime) {
    let mut domain: Numbers = Domain::new(rt.alloc(), slices()).expect(&rt, "a domain");
    let factory = domain.slice_subscriber_builder().buffer_size(1);
    let subscriber = factory.create(&mut domain).expect(&rt, "a subscriber");
    let factory = domain.slice_publisher_builder().initial_max_slice_len(3);
    let publisher = factory.create(&mut domain).expect(&rt, "a publisher");
    let strategy = publisher.backpressure_strategy();
    let first = delivered(&rt, send(&rt, &mut domain, &publisher, &[1, 2, 3]));
    let before = has_blocked_send(&rt, &domain, &publisher);
    let waiting = blocked(&rt, send(&rt, &mut domain, &publisher, &[4, 5]));
    let is_blocked = has_blocked_send(&rt, &domain, &publisher);
    let waiting = blocked(&rt, retry(&rt, &mut domain, waiting));
    let read = next_sum(&rt, &mut domain, &subscriber);
    let second = delivered(&rt, retry(&rt, &mut domain, waiting));
    let after = has_blocked_send(&rt, &domain, &publisher);
    let last = next_sum(&rt, &mut domain, &subscriber);
    let nothing = next_sum(&rt, &mut domain, &subscriber);
    assert!(rt; is_slice_publisher_ready(&domain, &publisher));
    publisher.close(&mut domain);
    subscriber.disown();
    drop(domain);
    assert!(rt; strategy == BackpressureStrategy::RetryUntilDelivered);
    assert!(rt; [first, second] == [1, 1]);
    assert!(rt; [before, is_blocked, after] == [false, true, false]);
    assert!(rt; [read, last, nothing] == [Some(1 + 2 + 3), Some(4 + 5), None]);
}

// The other loan is out meanwhile.
#[test]
fn a_handler_blocks_slices_of_a_publisher_that_would_discard(rt: HostRuntime) {
    let mut domain: Numbers = Domain::new(rt.alloc(), slices()).expect(&rt, "a domain");
    let factory = domain.slice_subscriber_builder().buffer_size(1);
    let subscriber = factory.create(&mut domain).expect(&rt, "a subscriber");
    subscriber.disown();
    let factory = domain
        .slice_publisher_builder()
        .backpressure_strategy(BackpressureStrategy::DiscardData)
        .set_backpressure_handler(BackpressureHandler::new_with(BackpressureAction::Retry));
    let publisher = factory.create(&mut domain).expect(&rt, "a publisher");
    let other = publisher.loan_slice(&mut domain, 1).expect(&rt, "a loan");
    let first = delivered(&rt, send(&rt, &mut domain, &publisher, &[1]));
    let before = is_held_up(&rt, &domain, &other);
    let waiting = blocked(&rt, send(&rt, &mut domain, &publisher, &[2]));
    let during = [
        is_held_up(&rt, &domain, &other),
        has_blocked_send(&rt, &domain, &publisher),
    ];
    assert!(rt; domain.holds_blocked(waiting.key()));
    let second = delivered(&rt, waiting.give_up(&mut domain));
    let after = [
        is_held_up(&rt, &domain, &other),
        has_blocked_send(&rt, &domain, &publisher),
    ];
    other.disown();
    publisher.disown();
    drop(domain);
    assert!(rt; [first, second] == [1, 0]);
    assert!(rt; !before);
    assert!(rt; during == [true, true]);
    assert!(rt; after == [false, false]);
}

// Its loans are as long as those of the factory, and its subscriber has the same buffer.
#[test]
fn a_partial_clone_of_a_factory_of_slices_has_its_settings(rt: HostRuntime) {
    let mut domain: Numbers = Domain::new(rt.alloc(), slices()).expect(&rt, "a domain");
    let factory = domain.slice_subscriber_builder().buffer_size(1);
    let copied = factory.internal_partial_clone();
    let subscriber = copied.create(&mut domain).expect(&rt, "a subscriber");
    let action = BackpressureAction::DiscardDataAndFail;
    let factory = domain
        .slice_publisher_builder()
        .initial_max_slice_len(3)
        .set_backpressure_handler(BackpressureHandler::new_with(action));
    let copied = factory.internal_partial_clone();
    let publisher = copied.create(&mut domain).expect(&rt, "a publisher");
    let first = delivered(&rt, send(&rt, &mut domain, &publisher, &[1, 2, 3]));
    let waiting = blocked(&rt, send(&rt, &mut domain, &publisher, &[0]));
    assert!(rt; domain.holds_blocked(waiting.key()));
    let second = delivered(&rt, waiting.give_up(&mut domain));
    let read = next_sum(&rt, &mut domain, &subscriber);
    publisher.disown();
    subscriber.disown();
    drop(domain);
    assert!(rt; [first, second] == [1, 0]);
    assert!(rt; read == Some(1 + 2 + 3));
}
