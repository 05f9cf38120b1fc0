//! Loans of slices with values that nobody chose.
ghost use Rattle.iox2_pubsub.specs.Live.{IsWritten};
ghost use Rattle.iox2_pubsub.specs.Slices.{IsSliced};

use crate::tests::fixtures::{
    lend_slice, receive_slice, send_slice, slice_publisher, slice_subscriber,
};
use iox2_fixtures::{Numbers, slices};
use iox2_pubsub::Domain;
use iox2_pubsub::slice::{Publisher, SampleMut};
use std::process::Abort;

// Lends a slice of that length, whose values nobody chooses.
fn lend_unspecified(
    rt: &impl Abort,
    domain: &mut Numbers,
    publisher: &Publisher,
    len: usize,
) -> SampleMut
    ensures loan { IsWritten domain.new result.sample }
    ensures sliced { IsSliced domain.new }
{
    let loan = lend_slice(rt, domain, publisher, len);
    loan.write_unspecified(domain)
}

#[test]
fn a_loan_that_nobody_writes_is_changed_and_sent(rt: HostRuntime) {
    let mut domain: Numbers = Domain::new(rt.alloc(), slices()).expect(&rt, "a domain");
    let subscriber = slice_subscriber(&rt, &mut domain);
    let publisher = slice_publisher(&rt, &mut domain, 16);
    let mut message = lend_unspecified(&rt, &mut domain, &publisher, 5);
    publisher.disown();
    for value in SampleMut::payload_mut(&mut domain, &mut message).iter_mut() {
        *value = 42;
    }
    let takers = send_slice(&rt, &mut domain, message);
    let sample = receive_slice(&rt, &mut domain, &subscriber);
    subscriber.disown();
    let is_read = sample.payload(&domain) == [42, 42, 42, 42, 42].as_slice();
    let elements = sample.header(&domain).number_of_elements();
    sample.disown();
    drop(domain);
    assert!(rt; takers == 1);
    assert!(rt; is_read);
    assert!(rt; elements == 5);
}

#[test]
fn a_discarded_loan_s_values_lie_in_the_next(rt: HostRuntime) {
    let mut domain: Numbers = Domain::new(rt.alloc(), slices()).expect(&rt, "a domain");
    let publisher = slice_publisher(&rt, &mut domain, 16);
    let loan = lend_slice(&rt, &mut domain, &publisher, 3);
    let message = loan.write_from_fn(&mut domain, |index| index as u64);
    message.discard(&mut domain);
    let message = lend_unspecified(&rt, &mut domain, &publisher, 4);
    publisher.disown();
    let is_read = message.payload(&domain) == [0, 1, 2, 0].as_slice();
    message.discard(&mut domain);
    drop(domain);
    assert!(rt; is_read);
}
