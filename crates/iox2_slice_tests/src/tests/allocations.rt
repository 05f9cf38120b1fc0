//! By which strategy a publisher's memory grows: the last one of its factory, or else the settings'.

use crate::tests::fixtures::slice_factory;
use iox2_fixtures::{Numbers, is_slice_publisher_ready, is_sliced, slices};
use iox2_machine::{AllocationStrategy, LoanError, ServiceConfig};
use iox2_pubsub::{Domain, slice};
use std::process::Abort;

// What a publisher says to a loan of two elements, which is longer than its first slots. The
// publisher is then closed.
fn longer_loan(
    rt: &impl Abort,
    domain: &mut Numbers,
    factory: slice::PortFactoryPublisher,
) -> Result<(), LoanError> {
    let publisher = factory.create(domain).expect(rt, "a publisher");
    assert!(rt; is_sliced(domain));
    assert!(rt; is_slice_publisher_ready(domain, &publisher));
    let loan = publisher.loan_slice_uninit(domain, 2);
    let lent = loan.map(|loan| loan.disown());
    assert!(rt; is_slice_publisher_ready(domain, &publisher));
    publisher.close(domain);
    lent
}

#[test]
fn a_factory_begins_with_the_strategy_of_the_settings(rt: HostRuntime) {
    let config = ServiceConfig {
        publisher_allocation_strategy: AllocationStrategy::PowerOfTwo,
        ..slices()
    };
    let mut domain: Numbers = Domain::new(rt.alloc(), config).expect(&rt, "a domain");
    let factory = slice_factory(&domain);
    let by_settings = longer_loan(&rt, &mut domain, factory);
    let factory = slice_factory(&domain)
        .allocation_strategy(AllocationStrategy::BestFit)
        .allocation_strategy(AllocationStrategy::Static);
    let clone = factory.internal_partial_clone();
    let by_factory = longer_loan(&rt, &mut domain, factory);
    let by_clone = longer_loan(&rt, &mut domain, clone);
    assert!(rt; by_settings == Ok(()));
    assert!(rt; by_factory == Err(LoanError::ExceedsMaxLoanSize));
    assert!(rt; by_clone == Err(LoanError::ExceedsMaxLoanSize));
}
