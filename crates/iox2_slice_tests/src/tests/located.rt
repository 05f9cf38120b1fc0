//! Loans of slices that are written, and say where their values begin.

use crate::tests::fixtures::{receive_slice, send_slice, slice_publisher, slice_subscriber};
use iox2_fixtures::{Numbers, is_sliced, slices};
use iox2_pubsub::Domain;
use iox2_pubsub::slice::LocatedLoan;

#[test]
fn a_loan_of_default_values_says_where_they_begin(rt: HostRuntime) {
    let mut domain: Numbers = Domain::new(rt.alloc(), slices()).expect(&rt, "a domain");
    let publisher = slice_publisher(&rt, &mut domain, 16);
    assert!(rt; is_sliced(&domain));
    let lent = publisher.loan_slice_located(&mut domain, 3);
    let LocatedLoan { loan, start } = lent.expect(&rt, "a loan");
    let is_read = loan.payload(&domain) == [0, 0, 0].as_slice();
    loan.discard(&mut domain);
    let lent = publisher.loan_slice_located(&mut domain, 0);
    let LocatedLoan { loan, start: none } = lent.expect(&rt, "an empty loan");
    let is_empty = loan.payload(&domain).is_empty();
    loan.discard(&mut domain);
    publisher.disown();
    drop(domain);
    assert!(rt; is_read);
    assert!(rt; start.is_some());
    assert!(rt; is_empty);
    assert!(rt; none.is_none());
}

#[test]
fn a_loan_that_nobody_wrote_says_where_its_values_begin(rt: HostRuntime) {
    let mut domain: Numbers = Domain::new(rt.alloc(), slices()).expect(&rt, "a domain");
    let subscriber = slice_subscriber(&rt, &mut domain);
    let publisher = slice_publisher(&rt, &mut domain, 16);
    assert!(rt; is_sliced(&domain));
    let lent = publisher.loan_unspecified_located(&mut domain, 5);
    publisher.disown();
    let LocatedLoan { loan, start } = lent.expect(&rt, "a loan");
    let takers = send_slice(&rt, &mut domain, loan);
    let sample = receive_slice(&rt, &mut domain, &subscriber);
    subscriber.disown();
    let elements = sample.payload(&domain).len();
    sample.disown();
    drop(domain);
    assert!(rt; start.is_some());
    assert!(rt; takers == 1);
    assert!(rt; elements == 5);
}
