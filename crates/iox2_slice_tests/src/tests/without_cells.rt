//! Slices in a domain that hands out no cells.
ghost use Rattle.iox2_pubsub.specs.Live.{IsUnwritten};
ghost use Rattle.iox2_pubsub.specs.Slices.{HoldsSlices};

use crate::tests::fixtures::{receive_slice, send_slice, slice_publisher, slice_subscriber};
use iox2_fixtures::{Numbers, holds_slices, is_slice_publisher_ready, slices};
use iox2_machine::ServiceConfig;
use iox2_pubsub::Domain;
use iox2_pubsub::slice::{Publisher, SampleMutUninit};
use std::process::Abort;

// The settings of a domain of slices whose cells aren't handed out.
fn without_cells() -> ServiceConfig {
    ServiceConfig {
        lists_cells: false,
        ..slices()
    }
}

// An unwritten loan of a slice of that length.
fn lend(rt: &impl Abort, domain: &mut Numbers, publisher: &Publisher, len: usize) -> SampleMutUninit
    ensures loan { IsUnwritten domain.new result.sample }
    ensures holds { HoldsSlices domain.new }
{
    assert!(rt; holds_slices(domain));
    assert!(rt; is_slice_publisher_ready(domain, publisher));
    let loan = publisher.loan_slice_uninit(domain, len);
    loan.expect(rt, "a loan")
}

#[test]
fn slices_pass_where_no_cells_are_handed_out(rt: HostRuntime) {
    let mut domain: Numbers = Domain::new(rt.alloc(), without_cells()).expect(&rt, "a domain");
    let subscriber = slice_subscriber(&rt, &mut domain);
    let publisher = slice_publisher(&rt, &mut domain, 3);
    let loan = lend(&rt, &mut domain, &publisher, 3);
    let message = loan.write_from_fn(&mut domain, |index| index as u64);
    let takers = send_slice(&rt, &mut domain, message);
    let sample = receive_slice(&rt, &mut domain, &subscriber);
    let is_read = sample.payload(&domain) == [0, 1, 2].as_slice();
    sample.disown();
    let loan = lend(&rt, &mut domain, &publisher, 2);
    let message = loan.write_unspecified(&mut domain);
    let length = message.payload(&domain).len();
    message.discard(&mut domain);
    subscriber.disown();
    publisher.disown();
    drop(domain);
    assert!(rt; takers == 1);
    assert!(rt; is_read);
    assert!(rt; length == 2);
}
