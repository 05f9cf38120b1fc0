//! What lies in a publisher's older slots goes at its next loan, send or update, told by the shares of a value
//! that are left.

use crate::tests::fixtures::{
    lend_slice, receive_slice, release_slice, send_slice, slice_factory, slice_subscriber,
};
use iox2_fixtures::{is_slice_publisher_ready, is_sliced, slices};
use iox2_machine::{AllocationStrategy, LoanError, ServiceConfig};
use iox2_pubsub::slice::{Publisher, Sample, SampleMut, SampleMutUninit, Subscriber};
use iox2_pubsub::{Domain, UpdateConnections};
use std::alloc::Global;
use std::process::Abort;
use std::rc::Rc;

// A domain of slices of shares.
type Shares = Domain<Rc<u8>, u64>;

// A domain in which a subscriber may keep that many messages.
fn domain(rt: &impl Abort, alloc: Global, kept: usize) -> Shares {
    let config = ServiceConfig {
        subscriber_max_buffer_size: kept,
        subscriber_max_borrowed_samples: kept,
        ..slices()
    };
    Domain::new(alloc, config).expect(rt, "a domain")
}

// A publisher whose memory grows by this strategy.
fn publisher(rt: &impl Abort, domain: &mut Shares, strategy: AllocationStrategy) -> Publisher {
    let factory = slice_factory(domain)
        .max_loaned_samples(1)
        .allocation_strategy(strategy);
    factory.create(domain).expect(rt, "a publisher")
}

// Sends a slice of that many shares, which the subscriber borrows.
fn pass(
    rt: &impl Abort,
    domain: &mut Shares,
    publisher: &Publisher,
    subscriber: &Subscriber,
    value: &Rc<u8>,
    len: usize,
) -> Sample {
    let loan = lend_slice(rt, domain, publisher, len);
    let message = loan.write_from_fn(domain, |_| value.clone().expect(rt, "a share"));
    assert!(rt; send_slice(rt, domain, message) == 1);
    receive_slice(rt, domain, subscriber)
}

// Lends that many cells, which are given back.
fn lend(rt: &impl Abort, domain: &mut Shares, publisher: &Publisher, len: usize) {
    lend_slice(rt, domain, publisher, len).discard(domain);
}

// How many shares there are, of which one is in no slot, while two samples of `len` shares each are borrowed
// and memory has grown to slots for `longer`; after both were released; and after the next loan.
fn kept_of_two(
    rt: &impl Abort,
    alloc: Global,
    strategy: AllocationStrategy,
    len: usize,
    longer: usize,
) -> [usize; 3] {
    let value = Rc::new(alloc, 7_u8).expect(rt, "a value");
    let mut domain = domain(rt, alloc, 2);
    let subscriber = slice_subscriber(rt, &mut domain);
    let publisher = publisher(rt, &mut domain, strategy);
    let first = pass(rt, &mut domain, &publisher, &subscriber, &value, len);
    let second = pass(rt, &mut domain, &publisher, &subscriber, &value, len);
    lend(rt, &mut domain, &publisher, longer);
    let borrowed = Rc::strong_count(&value);
    release_slice(rt, &mut domain, first);
    release_slice(rt, &mut domain, second);
    let released = Rc::strong_count(&value);
    lend(rt, &mut domain, &publisher, len);
    let lent = Rc::strong_count(&value);
    publisher.disown();
    subscriber.disown();
    [borrowed, released, lent]
}

#[test]
fn what_lay_in_an_older_slot_goes_at_the_next_loan_after_its_release(rt: HostRuntime) {
    for strategy in [AllocationStrategy::BestFit, AllocationStrategy::PowerOfTwo] {
        for (len, longer, kept) in [(3, 12, 7), (100, 400, 201)] {
            let [borrowed, released, lent] = kept_of_two(&rt, rt.alloc(), strategy, len, longer);
            assert!(rt; borrowed == kept);
            assert!(rt; released == kept);
            assert!(rt; lent == 1);
        }
    }
}

// How many shares there are, of which one is in no slot, after each of three loans: one while two older
// samples are borrowed, one after the first of them was released, together with a message of the current
// segment, and one after the second.
fn kept_one_by_one(rt: &impl Abort, alloc: Global, strategy: AllocationStrategy) -> [usize; 3] {
    let value = Rc::new(alloc, 7_u8).expect(rt, "a value");
    let mut domain = domain(rt, alloc, 3);
    let subscriber = slice_subscriber(rt, &mut domain);
    let publisher = publisher(rt, &mut domain, strategy);
    let first = pass(rt, &mut domain, &publisher, &subscriber, &value, 5);
    let second = pass(rt, &mut domain, &publisher, &subscriber, &value, 7);
    let current = pass(rt, &mut domain, &publisher, &subscriber, &value, 20);
    lend(rt, &mut domain, &publisher, 20);
    let both = Rc::strong_count(&value);
    release_slice(rt, &mut domain, first);
    release_slice(rt, &mut domain, current);
    lend(rt, &mut domain, &publisher, 20);
    let one = Rc::strong_count(&value);
    release_slice(rt, &mut domain, second);
    lend(rt, &mut domain, &publisher, 20);
    let none = Rc::strong_count(&value);
    publisher.disown();
    subscriber.disown();
    [both, one, none]
}

#[test]
fn each_older_slot_goes_on_its_own(rt: HostRuntime) {
    for strategy in [AllocationStrategy::BestFit, AllocationStrategy::PowerOfTwo] {
        let [both, one, none] = kept_one_by_one(&rt, rt.alloc(), strategy);
        assert!(rt; both == 33);
        assert!(rt; one == 28);
        assert!(rt; none == 21);
    }
}

// Gives an unwritten loan back.
fn discard(rt: &impl Abort, domain: &mut Shares, loan: SampleMutUninit) {
    let found = domain.unwritten_of(&loan.into_inner().into_parts());
    found.expect(rt, "a loan").discard(domain);
}

// Whether a loan is refused at the limit of loans.
fn is_refused(rt: &impl Abort, domain: &mut Shares, publisher: &Publisher) -> bool {
    assert!(rt; is_sliced(domain));
    assert!(rt; is_slice_publisher_ready(domain, publisher));
    let loan = publisher.loan_slice_uninit(domain, 1);
    loan.map(|loan| loan.disown()) == Err(LoanError::ExceedsMaxLoans)
}

// How many shares there are, of which one is in no slot, after an older sample was released and three loans
// were refused at the limit of loans; and after the other one was released too, and a loan was granted.
fn kept_behind_a_refusal(rt: &impl Abort, alloc: Global) -> [usize; 2] {
    let value = Rc::new(alloc, 7_u8).expect(rt, "a value");
    let mut domain = domain(rt, alloc, 2);
    let subscriber = slice_subscriber(rt, &mut domain);
    let publisher = publisher(rt, &mut domain, AllocationStrategy::BestFit);
    let first = pass(rt, &mut domain, &publisher, &subscriber, &value, 5);
    let second = pass(rt, &mut domain, &publisher, &subscriber, &value, 7);
    let loan = lend_slice(rt, &mut domain, &publisher, 20);
    release_slice(rt, &mut domain, first);
    for _ in 0..3 {
        assert!(rt; is_refused(rt, &mut domain, &publisher));
    }
    let refused = Rc::strong_count(&value);
    release_slice(rt, &mut domain, second);
    discard(rt, &mut domain, loan);
    lend(rt, &mut domain, &publisher, 1);
    let lent = Rc::strong_count(&value);
    publisher.disown();
    subscriber.disown();
    [refused, lent]
}

#[test]
fn a_refused_loan_loses_track_of_no_older_slot(rt: HostRuntime) {
    let [refused, lent] = kept_behind_a_refusal(&rt, rt.alloc());
    assert!(rt; refused == 8);
    assert!(rt; lent == 1);
}

// Sends a written loan. Returns how many subscribers took it.
fn send(rt: &impl Abort, domain: &mut Shares, message: SampleMut) -> usize {
    let found = domain.written_of(&message.into_inner().into_parts());
    send_slice(rt, domain, SampleMut::new(found.expect(rt, "a loan")))
}

// How many shares there are, of which one is in no slot, while two samples of `len` shares each are borrowed
// and a loan of `longer` shares is out, for which memory has grown; after both were released; and after the
// loan was sent.
fn kept_until_a_send(
    rt: &impl Abort,
    alloc: Global,
    strategy: AllocationStrategy,
    len: usize,
    longer: usize,
) -> [usize; 3] {
    let value = Rc::new(alloc, 7_u8).expect(rt, "a value");
    let mut domain = domain(rt, alloc, 2);
    let subscriber = slice_subscriber(rt, &mut domain);
    let publisher = publisher(rt, &mut domain, strategy);
    let first = pass(rt, &mut domain, &publisher, &subscriber, &value, len);
    let second = pass(rt, &mut domain, &publisher, &subscriber, &value, len);
    let loan = lend_slice(rt, &mut domain, &publisher, longer);
    let message = loan.write_from_fn(&mut domain, |_| value.clone().expect(rt, "a share"));
    let borrowed = Rc::strong_count(&value);
    release_slice(rt, &mut domain, first);
    release_slice(rt, &mut domain, second);
    let released = Rc::strong_count(&value);
    let takers = send(rt, &mut domain, message);
    let sent = Rc::strong_count(&value);
    publisher.disown();
    subscriber.disown();
    assert!(rt; takers == 1);
    [borrowed, released, sent]
}

#[test]
fn what_lay_in_an_older_slot_goes_at_the_next_send_after_its_release(rt: HostRuntime) {
    for strategy in [AllocationStrategy::BestFit, AllocationStrategy::PowerOfTwo] {
        for (len, longer, kept) in [(3, 12, 19), (100, 400, 601)] {
            let [borrowed, released, sent] = kept_until_a_send(
                &rt,
                rt.alloc(),
                strategy,
                len,
                longer,
            );
            assert!(rt; borrowed == kept);
            assert!(rt; released == kept);
            assert!(rt; sent == longer + 1);
        }
    }
}

// Updates the publisher's connections.
fn update(rt: &impl Abort, domain: &mut Shares, publisher: &Publisher) {
    assert!(rt; is_slice_publisher_ready(domain, publisher));
    let updated = publisher.update_connections(domain);
    assert!(rt; updated.is_ok());
}

// How many shares there are, of which one is in no slot, after memory has grown and the publisher was updated
// while a sample of `len` shares is borrowed; after that was released; and after the next update.
fn kept_until_an_update(
    rt: &impl Abort,
    alloc: Global,
    strategy: AllocationStrategy,
    len: usize,
) -> [usize; 3] {
    let value = Rc::new(alloc, 7_u8).expect(rt, "a value");
    let mut domain = domain(rt, alloc, 2);
    let subscriber = slice_subscriber(rt, &mut domain);
    let publisher = publisher(rt, &mut domain, strategy);
    let sample = pass(rt, &mut domain, &publisher, &subscriber, &value, len);
    lend(rt, &mut domain, &publisher, 500);
    update(rt, &mut domain, &publisher);
    let borrowed = Rc::strong_count(&value);
    release_slice(rt, &mut domain, sample);
    let released = Rc::strong_count(&value);
    update(rt, &mut domain, &publisher);
    let updated = Rc::strong_count(&value);
    publisher.disown();
    subscriber.disown();
    [borrowed, released, updated]
}

#[test]
fn what_lay_in_an_older_slot_goes_at_the_next_update_after_its_release(rt: HostRuntime) {
    for strategy in [AllocationStrategy::BestFit, AllocationStrategy::PowerOfTwo] {
        for (len, kept) in [(5, 6), (37, 38)] {
            let [borrowed, released, updated] = kept_until_an_update(
                &rt,
                rt.alloc(),
                strategy,
                len,
            );
            assert!(rt; borrowed == kept);
            assert!(rt; released == kept);
            assert!(rt; updated == 1);
        }
    }
}
