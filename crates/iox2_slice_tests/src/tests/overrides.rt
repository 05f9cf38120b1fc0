//! How many slots a publisher of slices has, by what an override answers.

use crate::tests::fixtures::{byte_domain, slice_factory};
use iox2_fixtures::{is_slice_publisher_ready, slices};
use iox2_machine::LoanError;

#[test]
fn a_publisher_of_bytes_has_as_many_slots_as_its_override_says(rt: HostRuntime) {
    let mut domain = byte_domain(&rt, rt.alloc(), slices());
    let factory = slice_factory(&domain)
        .max_loaned_samples(2)
        .override_sample_preallocation(|_| 0);
    let publisher = factory.create(&mut domain).expect(&rt, "a publisher");
    assert!(rt; is_slice_publisher_ready(&domain, &publisher));
    let first = publisher.loan_custom_payload(&mut domain, 1);
    let first = first.map(|loan| loan.disown());
    assert!(rt; is_slice_publisher_ready(&domain, &publisher));
    let second = publisher.loan_custom_payload(&mut domain, 1);
    let second = second.map(|loan| loan.disown());
    publisher.disown();
    assert!(rt; first == Ok(()));
    assert!(rt; second == Err(LoanError::OutOfMemory));
}
