//! Handles that are made of their numbers again.
ghost use Rattle.std.specs.Prelude.{◌≡◌};

use crate::tests::fixtures::{
    celsius_of, copied, domain, publisher_of, received, release, subscriber_of, waits,
};
use iox2_fixtures::{Reading, Weather, factory_for, is_single_valued};
use iox2_pubsub::{LoanParts, PublisherParts, SampleParts, SubscriberParts, Value};
use std::process::Abort;

// Whether a publisher with the numbers is in the domain.
fn has_publisher(domain: &Weather, parts: &PublisherParts) -> bool {
    domain.publisher_of(parts).map(|it| it.disown()).is_some()
}

// Closes the publisher with the numbers.
fn close_publisher(rt: &impl Abort, domain: &mut Weather, parts: &PublisherParts) {
    let publisher = domain.publisher_of(parts).expect(rt, "a publisher");
    assert!(rt; !publisher.is_blocked(domain));
    publisher.close(domain);
}

// The numbers say whether it lends at once, too.
#[test]
fn a_publisher_is_had_again_until_it_is_closed(rt: HostRuntime) {
    let mut domain = domain(&rt, rt.alloc());
    let parts = publisher_of(&rt, &mut domain).into_parts();
    let astray = PublisherParts {
        place: usize::MAX,
        ..parts
    };
    let unknown = PublisherParts { id: 9, ..parts };
    let before = [
        has_publisher(&domain, &parts),
        has_publisher(&domain, &astray),
        has_publisher(&domain, &unknown),
    ];
    let lends = [
        domain.lends_at_once(&parts, 1),
        domain.lends_at_once(&parts, 2),
        domain.lends_at_once(&astray, 1),
        domain.lends_at_once(&unknown, 1),
    ];
    close_publisher(&rt, &mut domain, &astray);
    let after = has_publisher(&domain, &parts);
    drop(domain);
    assert!(rt; before == [true, true, false]);
    assert!(rt; lends == [true, false, false, false]);
    assert!(rt; !after);
}

// Whether a subscriber with the numbers is in the domain.
fn has_subscriber(domain: &Weather, parts: &SubscriberParts) -> bool {
    domain.subscriber_of(parts).map(|it| it.disown()).is_some()
}

// The numbers say whether it receives at once, too: not before it was updated for a publisher that came.
#[test]
fn a_subscriber_is_had_again_until_it_is_closed(rt: HostRuntime) {
    let mut domain = domain(&rt, rt.alloc());
    let parts = subscriber_of(&rt, &mut domain).into_parts();
    let astray = SubscriberParts {
        place: usize::MAX,
        ..parts
    };
    let unknown = SubscriberParts { id: 9, ..parts };
    let before = [
        has_subscriber(&domain, &parts),
        has_subscriber(&domain, &astray),
        has_subscriber(&domain, &unknown),
    ];
    publisher_of(&rt, &mut domain).disown();
    let is_due = !domain.receives_at_once(&parts);
    let found = domain.subscriber_of(&astray).expect(&rt, "a subscriber");
    let waits = waits(&rt, &mut domain, &found);
    let again = found.into_parts();
    let receives = [
        domain.receives_at_once(&parts),
        domain.receives_at_once(&astray),
        domain.receives_at_once(&unknown),
    ];
    let subscriber = domain.subscriber_of(&again).expect(&rt, "a subscriber");
    subscriber.close(&mut domain);
    let after = has_subscriber(&domain, &parts);
    drop(domain);
    assert!(rt; before == [true, true, false]);
    assert!(rt; again == parts && is_due && !waits);
    assert!(rt; receives == [true, false, false]);
    assert!(rt; !after);
}

// Whether a loan with the numbers is out, and whether it is written.
fn marks_of(domain: &Weather, parts: &LoanParts) -> [bool; 2] {
    let is_unwritten = domain.unwritten_of(parts).map(|it| it.disown()).is_some();
    let is_written = domain.written_of(parts).map(|it| it.disown()).is_some();
    [is_unwritten, is_written]
}

// The numbers of a new loan.
fn lent(rt: &impl Abort, domain: &mut Weather) -> LoanParts {
    assert!(rt; is_single_valued(domain));
    let factory = factory_for(domain);
    let publisher = factory.create(domain).expect(rt, "a publisher");
    let loan = publisher.loan_uninit(domain).expect(rt, "a loan");
    publisher.disown();
    loan.into_parts()
}

// Writes the loan with the numbers.
fn write(rt: &impl Abort, domain: &mut Weather, parts: &LoanParts) -> LoanParts {
    assert!(rt; is_single_valued(domain));
    let loan = domain.unwritten_of(parts).expect(rt, "a loan");
    let written = loan.write_payload(domain, Reading { celsius: 21 });
    written.into_parts()
}

// Whether the loan with the numbers is sent at once.
fn is_sent_at_once(domain: &Weather, parts: &LoanParts) -> bool {
    domain.sends_at_once(parts).is_some()
}

// The numbers say whether it is sent at once, too, which asks for the right ones except of its book.
#[test]
fn a_loan_is_had_again_by_its_mark_until_it_is_given_back(rt: HostRuntime) {
    let mut domain = domain(&rt, rt.alloc());
    let parts = lent(&rt, &mut domain);
    let astray = LoanParts {
        place: 7,
        book: usize::MAX,
        slot: 3,
        ..parts
    };
    let unknown = LoanParts { number: 9, ..parts };
    let unwritten = [
        marks_of(&domain, &parts),
        marks_of(&domain, &astray),
        marks_of(&domain, &unknown),
    ];
    let too_early = is_sent_at_once(&domain, &parts);
    let again = write(&rt, &mut domain, &astray);
    let written = [marks_of(&domain, &parts), marks_of(&domain, &astray)];
    let sends = [
        is_sent_at_once(&domain, &LoanParts { book: 9, ..parts }),
        is_sent_at_once(&domain, &LoanParts { place: 1, ..parts }),
        is_sent_at_once(&domain, &LoanParts { slot: 1, ..parts }),
        is_sent_at_once(&domain, &unknown),
    ];
    subscriber_of(&rt, &mut domain).disown();
    let before_an_update = is_sent_at_once(&domain, &parts);
    let loan = domain.written_of(&again).expect(&rt, "a loan");
    loan.discard(&mut domain);
    let after = marks_of(&domain, &parts);
    drop(domain);
    assert!(rt; unwritten == [[true, false], [true, false], [false, false]]);
    assert!(rt; written == [[false, true], [false, true]]);
    assert!(rt; sends == [true, false, false, false]);
    assert!(rt; !too_early && !before_an_update);
    assert!(rt; after == [false, false]);
}

// Whether the sample with the numbers is borrowed.
fn has_sample(domain: &Weather, parts: &SampleParts) -> bool {
    domain
        .sample_of::<Value>(parts)
        .map(|it| it.disown())
        .is_some()
}

// Whether the sample with the numbers is there, and was borrowed last.
fn has_sample_at_hint(domain: &mut Weather, parts: &SampleParts) -> bool
    ensures { domain.new ≡ domain.old }
{
    match domain.sample_at_hint::<Value>(parts) {
        Some(sample) => {
            sample.disown();
            true
        }
        None => false,
    }
}

#[test]
fn a_sample_is_had_again_until_it_is_released(rt: HostRuntime) {
    let mut domain = domain(&rt, rt.alloc());
    let subscriber = subscriber_of(&rt, &mut domain);
    let publisher = publisher_of(&rt, &mut domain);
    copied(&rt, &mut domain, &publisher, 20);
    copied(&rt, &mut domain, &publisher, 21);
    publisher.disown();
    let first = received(&rt, &mut domain, &subscriber).expect(&rt, "a sample");
    let second = received(&rt, &mut domain, &subscriber).expect(&rt, "a sample");
    subscriber.disown();
    let [earlier, later] = [first.into_parts(), second.into_parts()];
    let astray = SampleParts {
        connection: usize::MAX,
        book: 5,
        slot: usize::MAX,
        ..later
    };
    let before = [
        has_sample(&domain, &earlier),
        has_sample(&domain, &later),
        has_sample(&domain, &astray),
        has_sample(&domain, &SampleParts { number: 9, ..later }),
    ];
    let had = [
        has_sample_at_hint(&mut domain, &earlier),
        has_sample_at_hint(&mut domain, &later),
        has_sample_at_hint(&mut domain, &astray),
    ];
    let sample = domain.sample_of(&astray).expect(&rt, "a sample");
    let celsius = celsius_of(&rt, &domain, &sample);
    release(&rt, &mut domain, sample);
    let after = [has_sample(&domain, &earlier), has_sample(&domain, &later)];
    drop(domain);
    assert!(rt; before == [true, true, true, false]);
    assert!(rt; had == [false, true, false]);
    assert!(rt; celsius == 21);
    assert!(rt; after == [true, false]);
}
