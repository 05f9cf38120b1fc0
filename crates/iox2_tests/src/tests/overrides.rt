//! How many slots a publisher has, by what an override answers.

use crate::tests::fixtures::{domain, received, subscriber_of};
use iox2_fixtures::{
    Reading, Weather, factory_for, is_ready, is_single_valued, receiver_count, settings,
};
use iox2_machine::{LoanError, PublisherCreateError, SendError, ServiceConfig};
use iox2_pubsub::{Domain, Publisher, Subscriber};
use std::alloc::Global;
use std::cell::Cell;
use std::process::Abort;

// Which of two loans of the publisher, which stay out, find a slot.
pub(super) fn lent_twice(rt: &impl Abort, domain: &mut Weather, publisher: Publisher) -> [bool; 2] {
    let lent = [
        is_lent(rt, domain, &publisher),
        is_lent(rt, domain, &publisher),
    ];
    publisher.disown();
    lent
}

// Whether a loan of the publisher, which stays out, finds a slot.
fn is_lent(rt: &impl Abort, domain: &mut Weather, publisher: &Publisher) -> bool {
    assert!(rt; is_single_valued(domain));
    assert!(rt; is_ready(domain, publisher));
    match publisher.loan_uninit(domain) {
        Ok(loan) => {
            loan.disown();
            true
        }
        Err(error) => {
            assert!(rt; error == LoanError::OutOfMemory);
            false
        }
    }
}

// It is told of six: two loans, two messages that wait and two that are borrowed.
#[test]
fn a_publisher_has_as_many_slots_as_its_last_override_says(rt: HostRuntime) {
    let mut domain = domain(&rt, rt.alloc());
    let factory = factory_for(&domain)
        .override_sample_preallocation(|_| 5)
        .override_sample_preallocation(|worst| if worst == 6 { 1 } else { 2 })
        .max_loaned_samples(2);
    let publisher = factory.create(&mut domain).expect(&rt, "a publisher");
    let lent = lent_twice(&rt, &mut domain, publisher);
    drop(domain);
    assert!(rt; lent == [true, false]);
}

// A domain in which a publisher with two loans needs eight slots.
fn domain_of_eight(rt: &impl Abort, alloc: Global) -> Weather {
    let config = ServiceConfig {
        subscriber_max_buffer_size: 3,
        history_size: 1,
        ..settings()
    };
    Domain::new(alloc, config).expect(rt, "a domain")
}

// Whether a copy finds a slot, which is held then.
fn is_sent(rt: &impl Abort, domain: &mut Weather, publisher: &Publisher) -> bool {
    assert!(rt; is_single_valued(domain));
    assert!(rt; is_ready(domain, publisher));
    match publisher.send_copy(domain, Reading { celsius: 21 }) {
        Ok(outcome) => receiver_count(outcome).is_some(),
        Err(error) => {
            assert!(rt; error == SendError::LoanError(LoanError::OutOfMemory));
            false
        }
    }
}

// How many slots the publisher fills with two messages that are borrowed, three that wait, one of the
// history and two loans.
fn filled(
    rt: &impl Abort,
    domain: &mut Weather,
    publisher: Publisher,
    subscriber: Subscriber,
) -> usize {
    let mut count = 0usize;
    for sent in 0..6 {
        if is_sent(rt, domain, &publisher) {
            count = count.wrapping_add(1);
        }
        if sent < 2 {
            if let Some(sample) = received(rt, domain, &subscriber) {
                sample.disown();
            }
        }
    }
    subscriber.disown();
    for is_lent in lent_twice(rt, domain, publisher) {
        if is_lent {
            count = count.wrapping_add(1);
        }
    }
    count
}

// What an override that gives this answer is told of, and how many slots its publisher fills.
fn told_and_filled(rt: &impl Abort, alloc: Global, answer: usize) -> [usize; 2] {
    let mut domain = domain_of_eight(rt, alloc);
    let subscriber = subscriber_of(rt, &mut domain);
    let told = Cell::new(0usize);
    let factory = factory_for(&domain)
        .max_loaned_samples(2)
        .override_sample_preallocation(|worst| {
            told.set(worst);
            answer
        });
    let publisher = factory.create(&mut domain).expect(rt, "a publisher");
    let count = filled(rt, &mut domain, publisher, subscriber);
    drop(domain);
    [told.get(), count]
}

#[test]
fn an_override_leaves_its_publisher_at_least_one_slot_and_at_most_the_worst_case(rt: HostRuntime) {
    for (answer, slots) in [
        (9, 8),
        (8, 8),
        (5, 5),
        (1, 1),
        (0, 1),
        (7, 7),
        (usize::MAX, 8),
    ] {
        assert!(rt; told_and_filled(&rt, rt.alloc(), answer) == [8, slots]);
    }
}

#[test]
fn a_partial_clone_fills_the_slots_of_the_worst_case(rt: HostRuntime) {
    let mut domain = domain_of_eight(&rt, rt.alloc());
    let subscriber = subscriber_of(&rt, &mut domain);
    let factory = factory_for(&domain)
        .max_loaned_samples(2)
        .override_sample_preallocation(|_| 5);
    let clone = factory.internal_partial_clone();
    drop(factory);
    let publisher = clone.create(&mut domain).expect(&rt, "a publisher");
    let count = filled(&rt, &mut domain, publisher, subscriber);
    drop(domain);
    assert!(rt; count == 8);
}

#[test]
fn a_partial_clone_of_a_factory_has_no_override(rt: HostRuntime) {
    let mut domain = domain(&rt, rt.alloc());
    let factory = factory_for(&domain)
        .max_loaned_samples(2)
        .override_sample_preallocation(|_| 1);
    let clone = factory.internal_partial_clone();
    drop(factory);
    let publisher = clone.create(&mut domain).expect(&rt, "a publisher");
    let lent = lent_twice(&rt, &mut domain, publisher);
    drop(domain);
    assert!(rt; lent == [true, true]);
}

// How often an override is asked for a publisher with that many loans, and why it isn't made.
fn asked_for(rt: &impl Abort, alloc: Global, loans: usize) -> (u64, Option<PublisherCreateError>) {
    let mut domain = domain(rt, alloc);
    let asked = Cell::new(0u64);
    let factory = factory_for(&domain)
        .max_loaned_samples(loans)
        .override_sample_preallocation(|_| {
            asked.set(asked.get().wrapping_add(1));
            1
        });
    let refusal = match factory.create(&mut domain) {
        Ok(publisher) => {
            publisher.disown();
            None
        }
        Err(error) => Some(error),
    };
    (asked.get(), refusal)
}

#[test]
fn an_override_is_asked_once_where_the_worst_case_fits(rt: HostRuntime) {
    let fits = asked_for(&rt, rt.alloc(), 2);
    let does_not_fit = asked_for(&rt, rt.alloc(), usize::MAX);
    assert!(rt; fits == (1, None));
    assert!(rt; does_not_fit == (0, Some(PublisherCreateError::UnableToCreateDataSegment)));
}
