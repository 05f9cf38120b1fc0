//! Publishers of single values whose memory grows.

use crate::tests::fixtures::domain;
use crate::tests::overrides::lent_twice;
use iox2_fixtures::{Weather, factory_for};
use iox2_machine::AllocationStrategy;
use iox2_pubsub::Publisher;
use std::process::Abort;

// A publisher with that many loans and slots of one message each time.
fn growing(
    rt: &impl Abort,
    domain: &mut Weather,
    loans: usize,
    strategy: AllocationStrategy,
) -> Publisher {
    let factory = factory_for(domain)
        .max_loaned_samples(loans)
        .allocation_strategy(strategy)
        .override_sample_preallocation(|_| 1);
    factory.create(domain).expect(rt, "a publisher")
}

#[test]
fn a_publisher_whose_slots_are_held_lends_on_where_it_grows(rt: HostRuntime) {
    let mut domain = domain(&rt, rt.alloc());
    let publisher = growing(&rt, &mut domain, 2, AllocationStrategy::BestFit);
    let lent = lent_twice(&rt, &mut domain, publisher);
    drop(domain);
    assert!(rt; lent == [true, true]);
}
