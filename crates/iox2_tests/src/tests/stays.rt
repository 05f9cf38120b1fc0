//! What a user's functions know of handles after other calls, with nothing tested when they run.
ghost use Rattle.std.specs.Prelude.{◌≡◌, true};
ghost use Rattle.iox2_pubsub.specs.Live.{HasLender, IsLivePublisher, IsLiveSample, IsLiveSubscriber, IsSingleValued};
ghost use Rattle.iox2_pubsub.specs.Live.{NeverWaitsUnwritten, Stays, StaysBut, unwritten_key, unwritten_loan};

use crate::tests::fixtures::{domain, publisher_of, subscriber_of};
use iox2_fixtures::{Reading, Weather, factory_for, publish, settings};
use iox2_pubsub::{
    ConnectionFailure, Domain, Publisher, Sample, SampleMutUninit, ServiceConfig, Subscriber,
    UpdateConnections,
};

// Sends what a publisher lent that is there, which isn't refused.
fn send_lent(domain: &mut Weather, loan: SampleMutUninit, celsius: u64) -> usize
    requires single_valued { IsSingleValued domain.old }
    requires loan { NeverWaitsUnwritten domain.old loan }
    requires lent { HasLender domain.old (unwritten_key loan) }
    ensures { StaysBut (unwritten_loan loan) domain.old domain.new }
{
    let message = loan.write_payload(domain, Reading { celsius });
    let Ok(outcome) = message.send(domain) else {
        unreachable!()
    };
    outcome.delivered()
}

// Makes a publisher, which sends one message and is closed. All that was there stays.
fn send_once(domain: &mut Weather, celsius: u64) -> Option<usize>
    requires { IsSingleValued domain.old }
    ensures { Stays domain.old domain.new }
{
    let publisher = factory_for(domain).create(domain).ok()?;
    let Ok(loan) = publisher.loan_uninit(domain) else {
        publisher.close(domain);
        return None;
    };
    let takers = send_lent(domain, loan, celsius);
    publisher.close(domain);
    Some(takers)
}

#[test]
fn a_publisher_comes_sends_and_goes(rt: HostRuntime) {
    let mut domain = domain(&rt, rt.alloc());
    let subscriber = subscriber_of(&rt, &mut domain);
    let takers = [
        send_once(&mut domain, 20),
        send_once(&mut domain, 21),
        send_once(&mut domain, 22),
    ];
    subscriber.close(&mut domain);
    drop(domain);
    assert!(rt; takers == [Some(1), Some(1), Some(1)]);
}

// Sends in a service that overflows, by a publisher of any strategy, and has no case for a blocked send.
fn send_overflowing(domain: &mut Weather, celsius: u64) -> Option<usize>
    requires single_valued { IsSingleValued domain.old }
    requires overflows { (domain.old.config).enable_safe_overflow ≡ true }
    ensures { Stays domain.old domain.new }
{
    let publisher = domain.publisher_builder().create(domain).ok()?;
    let sent = publisher.send_copy(domain, Reading { celsius });
    publisher.close(domain);
    Some(sent.ok()?.delivered())
}

#[test]
fn no_send_is_blocked_in_a_service_that_overflows(rt: HostRuntime) {
    let config = ServiceConfig {
        enable_safe_overflow: true,
        ..settings()
    };
    let mut domain = Domain::new(rt.alloc(), config).expect(&rt, "a domain");
    let factory = domain.subscriber_builder().buffer_size(1);
    let subscriber = factory.create(&mut domain).expect(&rt, "a subscriber");
    let takers = [
        send_overflowing(&mut domain, 20),
        send_overflowing(&mut domain, 21),
    ];
    subscriber.close(&mut domain);
    drop(domain);
    assert!(rt; takers == [Some(1), Some(1)]);
}

// A loan's header and its cell are the same after an update.
fn read_loan_twice(
    domain: &mut Weather,
    publisher: &Publisher,
    loan: &SampleMutUninit,
) -> Result<(), ConnectionFailure>
    requires single_valued { IsSingleValued domain.old }
    requires publisher { IsLivePublisher domain.old publisher.now }
    requires loan { NeverWaitsUnwritten domain.old loan.now }
    ensures { Stays domain.old domain.new }
{
    let elements = loan.header(domain).number_of_elements;
    let is_empty = loan.payload(domain).is_none();
    let updated = publisher.update_connections(domain);
    let again = loan.header(domain).number_of_elements;
    let still_empty = loan.payload(domain).is_none();
    prove!(elements == again);
    prove!(is_empty == still_empty);
    updated
}

// A sample's header is the same after its publisher was closed.
fn read_sample_twice(domain: &mut Weather, publisher: Publisher, sample: &Sample) -> u64
    requires publisher { IsLivePublisher domain.old publisher }
    requires sample { IsLiveSample domain.old sample.now }
{
    let elements = sample.header(domain).number_of_elements;
    publisher.close(domain);
    let again = sample.header(domain).number_of_elements;
    prove!(elements == again);
    again
}

// A message is received, read, and read again after its publisher was closed.
fn receive_and_close(
    domain: &mut Weather,
    publisher: Publisher,
    subscriber: &Subscriber,
) -> Option<u64>
    requires single_valued { IsSingleValued domain.old }
    requires publisher { IsLivePublisher domain.old publisher }
    requires subscriber { IsLiveSubscriber domain.old subscriber.now }
{
    publish(domain, &publisher, 20);
    let Ok(Some(sample)) = subscriber.receive(domain) else {
        publisher.close(domain);
        return None;
    };
    let elements = read_sample_twice(domain, publisher, &sample);
    sample.disown();
    Some(elements)
}

#[test]
fn what_is_read_stays(rt: HostRuntime) {
    let mut domain = domain(&rt, rt.alloc());
    let subscriber = subscriber_of(&rt, &mut domain);
    let publisher = publisher_of(&rt, &mut domain);
    let loan = publisher.loan_uninit(&mut domain).expect(&rt, "a loan");
    let updated = read_loan_twice(&mut domain, &publisher, &loan);
    loan.discard(&mut domain);
    let elements = receive_and_close(&mut domain, publisher, &subscriber);
    subscriber.disown();
    drop(domain);
    assert!(rt; updated == Ok(()));
    assert!(rt; elements == Some(1));
}
