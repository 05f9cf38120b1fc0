//! When a single value is dropped, told by the shares of it that are left.
ghost use Rattle.iox2_pubsub.specs.Live.{IsSingleValued, IsUnwritten, IsWritten};

use crate::tests::fixtures::send;
use iox2_fixtures::{factory_for, is_ready, is_single_valued, settings};
use iox2_pubsub::{Domain, Publisher, SampleMut, SampleMutUninit};
use std::process::Abort;
use std::rc::Rc;

// A domain of shares.
type Shares = Domain<Rc<u8>, u64>;

// Lends a message.
fn lend(rt: &impl Abort, domain: &mut Shares, publisher: &Publisher) -> SampleMutUninit
    ensures loan { IsUnwritten domain.new result }
    ensures single_valued { IsSingleValued domain.new }
{
    assert!(rt; is_single_valued(domain));
    assert!(rt; is_ready(domain, publisher));
    publisher.loan_uninit(domain).expect(rt, "a loan")
}

// Lends a message, and writes a share into it.
fn share(rt: &impl Abort, domain: &mut Shares, publisher: &Publisher, value: &Rc<u8>) -> SampleMut
    ensures { IsWritten domain.new result }
{
    let share = value.clone().expect(rt, "a share");
    lend(rt, domain, publisher).write_payload(domain, share)
}

// The publisher has one slot, which has each of its messages. The first is sent to nobody, the second
// isn't written, and the third is given back.
#[test]
fn a_value_stays_until_the_next_loan_in_its_slot(rt: HostRuntime) {
    let value = Rc::new(rt.alloc(), 7_u8).expect(&rt, "a value");
    let mut domain: Shares = Domain::new(rt.alloc(), settings()).expect(&rt, "a domain");
    let factory = factory_for(&domain).override_sample_preallocation(|_| 1);
    let publisher = factory.create(&mut domain).expect(&rt, "a publisher");
    let message = share(&rt, &mut domain, &publisher, &value);
    let takers = send(&rt, &mut domain, message);
    let sent = Rc::strong_count(&value);
    lend(&rt, &mut domain, &publisher).discard(&mut domain);
    let lent = Rc::strong_count(&value);
    share(&rt, &mut domain, &publisher, &value).discard(&mut domain);
    let discarded = Rc::strong_count(&value);
    publisher.disown();
    drop(domain);
    let gone = Rc::strong_count(&value);
    assert!(rt; takers == 0);
    assert!(rt; [sent, lent, discarded, gone] == [2, 1, 2, 1]);
}
