ghost use Rattle.iox2_pubsub.specs.Live.{IsLivePublisher, IsSingleValued, Stays};

use crate::tests::fixtures::domain;
use iox2_fixtures::{Weather, elsewhere, factory_for};
use iox2_machine::{Key, LoanError};
use iox2_pubsub::Publisher;

const FIRST: Key = Key {
    service_id: 7,
    port: 1,
    message: 1,
};

// The key of a loan that stays out.
fn lent(domain: &mut Weather, publisher: &Publisher) -> Result<Key, LoanError>
    requires single_valued { IsSingleValued domain.old }
    requires publisher { IsLivePublisher domain.old publisher.now }
    ensures { Stays domain.old domain.new }
{
    let loan = publisher.loan_uninit(domain)?;
    let key = loan.key();
    loan.disown();
    Ok(key)
}

#[test]
fn a_publisher_lends_as_much_as_it_may(rt: HostRuntime) {
    let mut domain = domain(&rt, rt.alloc());
    let factory = factory_for(&domain).max_loaned_samples(1);
    let publisher = factory.create(&mut domain).expect(&rt, "a publisher");
    let first = lent(&mut domain, &publisher);
    let second = lent(&mut domain, &publisher);
    publisher.disown();
    let live = [
        domain.holds_loan(FIRST),
        domain.holds_loan(elsewhere(FIRST)),
        domain.holds_loan(Key { port: 2, ..FIRST }),
        domain.holds_loan(Key {
            message: 2,
            ..FIRST
        }),
    ];
    drop(domain);
    assert!(rt; first == Ok(FIRST));
    assert!(rt; second == Err(LoanError::ExceedsMaxLoans));
    assert!(rt; live == [true, false, false, false]);
}
