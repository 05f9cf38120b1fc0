//! What is received is what was sent.
ghost use Rattle.std.specs.Prelude.{◌≡◌, IfOk, IfSome, OnOk};
ghost use Rattle.iox2_pubsub.specs.Handles.{publisher_id};
ghost use Rattle.iox2_pubsub.specs.Live.{IsConnected, IsLivePublisher, IsLiveSubscriber, IsSingleValued, IsUpToDate, Stays, UpToDateStay, waiting};
ghost use Rattle.calling.specs.Ports.{AreJoined};

use crate::failure::Failure;
use iox2_pubsub::{BackpressureStrategy, Domain, Publisher, Subscriber, UpdateConnections};

/// Sends a reading to a subscriber for which nothing waits, and receives it. Nothing waits
/// afterwards.
pub fn echo(
    domain: &mut Domain<u32, ()>,
    publisher: &Publisher,
    subscriber: &Subscriber,
    celsius: u32,
) -> Result<u32, Failure>
    requires single_valued { IsSingleValued domain.old }
    requires publisher { IsLivePublisher domain.old publisher.now }
    requires subscriber { IsLiveSubscriber domain.old subscriber.now }
    requires connected { IsConnected domain.old (publisher_id publisher.now) subscriber.now }
    requires up_to_date { IsUpToDate domain.old subscriber.now }
    requires drained { waiting domain.old subscriber.now ≡ 0 }
    ensures same { IfOk result (λ received. received ≡ celsius) }
    ensures drained { OnOk result (waiting domain.new subscriber.now ≡ 0) }
    ensures up_to_date { UpToDateStay domain.old domain.new }
    ensures stays { Stays domain.old domain.new }
{
    publisher.send_copy(domain, celsius)?.delivered();
    let Some(sample) = subscriber.receive(domain)? else {
        unreachable!()
    };
    let received = *sample.payload(domain);
    sample.release(domain);
    Ok(received)
}

/// Passes a reading through a publisher of its own. `None` where messages wait already, or where the
/// publisher's connection couldn't be allocated.
pub fn echo_once(
    domain: &mut Domain<u32, ()>,
    subscriber: &Subscriber,
    celsius: u32,
) -> Result<Option<u32>, Failure>
    requires single_valued { IsSingleValued domain.old }
    requires subscriber { IsLiveSubscriber domain.old subscriber.now }
    ensures same { IfOk result (λ received. IfSome received (λ it. it ≡ celsius)) }
    ensures stays { Stays domain.old domain.new }
{
    let refused = domain.refused_connections();
    let publisher = domain
        .publisher_builder()
        .backpressure_strategy(BackpressureStrategy::DiscardData)
        .create(domain)?;
    if refused < u64::MAX && domain.refused_connections() == refused {
        let outcome = echo_if_drained(domain, &publisher, subscriber, celsius);
        publisher.close(domain);
        return outcome;
    }
    publisher.close(domain);
    Ok(None)
}

// Passes a reading, where nothing waits.
fn echo_if_drained(
    domain: &mut Domain<u32, ()>,
    publisher: &Publisher,
    subscriber: &Subscriber,
    celsius: u32,
) -> Result<Option<u32>, Failure>
    requires joined { AreJoined domain.old publisher.now subscriber.now }
    ensures same { IfOk result (λ received. IfSome received (λ it. it ≡ celsius)) }
    ensures stays { Stays domain.old domain.new }
{
    if subscriber.has_samples(domain)? {
        return Ok(None);
    }
    let received = echo(domain, publisher, subscriber, celsius)?;
    Ok(Some(received))
}

/// Makes a subscriber for which waits what the publisher sends from now on. `None` where memory was
/// refused for their connection.
pub fn join(
    domain: &mut Domain<u32, ()>,
    publisher: &Publisher,
) -> Result<Option<Subscriber>, Failure>
    requires { IsLivePublisher domain.old publisher.now }
    ensures subscriber { IfOk result (λ made. IfSome made (λ it. IsLiveSubscriber domain.new it)) }
    ensures connected { IfOk result (λ made. IfSome made (λ it. IsConnected domain.new (publisher_id publisher.now) it)) }
    ensures stays { Stays domain.old domain.new }
{
    let refused = domain.refused_connections();
    let subscriber = domain.subscriber_builder().create(domain)?;
    let made = domain.refused_connections();
    let updated = publisher.update_connections(domain);
    if refused < u64::MAX && made == refused && domain.refused_connections() == made {
        return Ok(Some(subscriber));
    }
    subscriber.close(domain);
    updated?;
    Ok(None)
}
