ghost use Rattle.iox2_pubsub.specs.Live.{IsLivePublisher, IsSingleValued, Stays};

use crate::tests::fixtures::{domain, subscriber_of};
use iox2_fixtures::{Weather, factory_for, publish};
use iox2_pubsub::Publisher;

// Lends and gives back as often as this; says how often a loan was granted.
fn lend_and_discard(domain: &mut Weather, publisher: &Publisher, rounds: u8) -> usize
    requires single_valued { IsSingleValued domain.old }
    requires publisher { IsLivePublisher domain.old publisher.now }
    ensures { Stays domain.old domain.new }
{
    if rounds == 0 {
        return 0;
    }
    let Ok(loan) = publisher.loan_uninit(domain) else {
        return 0;
    };
    loan.discard(domain);
    lend_and_discard(domain, publisher, rounds - 1).saturating_add(1)
}

#[test]
fn a_publisher_lends_again_what_was_given_back(rt: HostRuntime) {
    let mut domain = domain(&rt, rt.alloc());
    let subscriber = subscriber_of(&rt, &mut domain);
    subscriber.disown();
    let factory = factory_for(&domain).max_loaned_samples(1);
    let publisher = factory.create(&mut domain).expect(&rt, "a publisher");
    let granted = lend_and_discard(&mut domain, &publisher, 100);
    let takers = publish(&mut domain, &publisher, 21);
    publisher.disown();
    drop(domain);
    assert!(rt; granted == 100);
    assert!(rt; takers == Some(1));
}
