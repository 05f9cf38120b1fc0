//! Default values that are lent.
use crate::tests::fixtures::{publisher_of, send};
use iox2_fixtures::{
    Costly, Station, costly_time, factory_for, is_single_valued, micros_since, settings,
};
use iox2_pubsub::{Domain, LoanError};
use std::time::CpuClock;

#[test]
fn no_default_value_is_made_for_a_refused_loan(rt: HostRuntime) {
    let mut domain: Domain<Costly, ()> = Domain::new(rt.alloc(), settings()).expect(
        &rt, "a domain",
    );
    let factory = factory_for(&domain).max_loaned_samples(0);
    let publisher = factory.create(&mut domain).expect(&rt, "a publisher");
    assert!(rt; is_single_valued(&domain));
    let begun = rt.thread_cpu_time().expect(&rt, "a time");
    let lent = publisher.loan(&mut domain).map(|loan| loan.disown());
    let spent = micros_since(&rt, begun).expect(&rt, "a time");
    publisher.disown();
    drop(domain);
    let (number, once) = costly_time(&rt).expect(&rt, "a time");
    assert!(rt; lent == Err(LoanError::ExceedsMaxLoans));
    assert!(rt; number != 0 && spent < once / 2);
}

#[test]
fn a_default_value_is_lent_and_sent(rt: HostRuntime) {
    let mut domain: Domain<Station, Station> = Domain::new(rt.alloc(), settings()).expect(
        &rt, "a domain",
    );
    let publisher = publisher_of(&rt, &mut domain);
    assert!(rt; is_single_valued(&domain));
    let message = publisher.loan(&mut domain).expect(&rt, "a loan");
    publisher.disown();
    let numbers = [
        message.payload(&domain).number,
        message.user_header(&domain).number,
    ];
    let takers = send(&rt, &mut domain, message);
    drop(domain);
    assert!(rt; numbers == [0, 0]);
    assert!(rt; takers == 0);
}
