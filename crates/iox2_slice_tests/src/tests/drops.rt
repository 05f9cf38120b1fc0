//! When the values of a slice are dropped, told by the shares of a value that are left.
ghost use Rattle.iox2_pubsub.specs.Live.{IsWritten};

use crate::tests::fixtures::{
    lend_slice, receive_slice, release_slice, send_slice, slice_factory, slice_subscriber,
};
use iox2_fixtures::{close_publisher, slices};
use iox2_pubsub::Domain;
use iox2_pubsub::slice::{Publisher, SampleMut, SampleMutUninit, Subscriber};
use std::alloc::Global;
use std::process::Abort;
use std::rc::Rc;

// A domain of slices of shares.
type Shares = Domain<Rc<u8>, u64>;

fn value(rt: &impl Abort, alloc: Global) -> Rc<u8> {
    Rc::new(alloc, 7_u8).expect(rt, "a value")
}

fn domain(rt: &impl Abort, alloc: Global) -> Shares {
    Domain::new(alloc, slices()).expect(rt, "a domain")
}

// A publisher with one slot, which has each of its messages.
fn publisher(rt: &impl Abort, domain: &mut Shares) -> Publisher {
    let factory = slice_factory(domain)
        .override_sample_preallocation(|_| 1)
        .initial_max_slice_len(3);
    factory.create(domain).expect(rt, "a publisher")
}

// Lends a slice of that many shares.
fn lend_shares(
    rt: &impl Abort,
    domain: &mut Shares,
    publisher: &Publisher,
    value: &Rc<u8>,
    len: usize,
) -> SampleMut
    ensures { IsWritten domain.new result.sample }
{
    let loan = lend_slice(rt, domain, publisher, len);
    loan.write_from_fn(domain, |_| value.clone().expect(rt, "a share"))
}

// How many shares are left when a slice of three was sent to nobody, a loan starts in its slot, two shares
// are written there, and the loan is given back.
fn left_by_calls(
    rt: &impl Abort,
    domain: &mut Shares,
    publisher: &Publisher,
    value: &Rc<u8>,
) -> [usize; 4] {
    let message = lend_shares(rt, domain, publisher, value, 3);
    send_slice(rt, domain, message);
    let sent = Rc::strong_count(value);
    lend_slice(rt, domain, publisher, 2).discard(domain);
    let lent = Rc::strong_count(value);
    let message = lend_shares(rt, domain, publisher, value, 2);
    let written = Rc::strong_count(value);
    message.discard(domain);
    [sent, lent, written, Rc::strong_count(value)]
}

// How many there are when two more are put into cells of a loan, and when the loan is given back.
fn left_by_discard(
    rt: &impl Abort,
    domain: &mut Shares,
    publisher: &Publisher,
    value: &Rc<u8>,
) -> [usize; 2] {
    let mut loan = lend_slice(rt, domain, publisher, 2);
    for cell in SampleMutUninit::payload_mut(domain, &mut loan).iter_mut() {
        *cell = Some(value.clone().expect(rt, "a share"));
    }
    let put = Rc::strong_count(value);
    loan.discard(domain);
    [put, Rc::strong_count(value)]
}

#[test]
fn a_slice_stays_until_another_is_written_in_its_slot(rt: HostRuntime) {
    let value = value(&rt, rt.alloc());
    let mut domain = domain(&rt, rt.alloc());
    let publisher = publisher(&rt, &mut domain);
    let left = left_by_calls(&rt, &mut domain, &publisher, &value);
    let discarded = left_by_discard(&rt, &mut domain, &publisher, &value);
    publisher.disown();
    drop(domain);
    let gone = Rc::strong_count(&value);
    assert!(rt; left == [4, 4, 3, 3]);
    assert!(rt; discarded == [5, 3]);
    assert!(rt; gone == 1);
}

// How many are left when the publisher of a sample of three is closed, and when the sample is released.
fn left_by_close(
    rt: &impl Abort,
    domain: &mut Shares,
    publisher: Publisher,
    subscriber: &Subscriber,
    value: &Rc<u8>,
) -> [usize; 2] {
    let message = lend_shares(rt, domain, &publisher, value, 3);
    let takers = send_slice(rt, domain, message);
    let sample = receive_slice(rt, domain, subscriber);
    assert!(rt; close_publisher(domain, publisher.into_inner()));
    let closed = Rc::strong_count(value);
    release_slice(rt, domain, sample);
    assert!(rt; takers == 1);
    [closed, Rc::strong_count(value)]
}

#[test]
fn slices_of_a_closed_publisher_go_with_its_last_message(rt: HostRuntime) {
    let value = value(&rt, rt.alloc());
    let mut domain = domain(&rt, rt.alloc());
    let subscriber = slice_subscriber(&rt, &mut domain);
    let publisher = publisher(&rt, &mut domain);
    let left = left_by_close(&rt, &mut domain, publisher, &subscriber, &value);
    subscriber.disown();
    drop(domain);
    assert!(rt; left == [4, 1]);
}
