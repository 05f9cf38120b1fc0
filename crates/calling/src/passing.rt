//! Readings go from a publisher to a subscriber.
ghost use Rattle.std.specs.Prelude.{◌≡◌, IfOk, OnOk, OnSome, suc};
ghost use Rattle.iox2_pubsub.specs.Live.{HasRoomFor, IsLivePublisher, IsLiveSubscriber, IsSingleValued, Stays, UpToDateStay, waiting};

use crate::failure::Failure;
use iox2_pubsub::{Domain, Publisher, Subscriber};

/// Sends a reading, and receives the next that waits.
pub fn pass(
    domain: &mut Domain<u32, ()>,
    publisher: &Publisher,
    subscriber: &Subscriber,
    celsius: u32,
) -> Result<Option<u32>, Failure>
    requires single_valued { IsSingleValued domain.old }
    requires publisher { IsLivePublisher domain.old publisher.now }
    requires subscriber { IsLiveSubscriber domain.old subscriber.now }
    ensures stays { Stays domain.old domain.new }
{
    send(domain, publisher, celsius)?;
    receive_next(domain, subscriber)
}

/// Sends a reading.
pub fn send(
    domain: &mut Domain<u32, ()>,
    publisher: &Publisher,
    celsius: u32,
) -> Result<(), Failure>
    requires single_valued { IsSingleValued domain.old }
    requires publisher { IsLivePublisher domain.old publisher.now }
    ensures up_to_date { UpToDateStay domain.old domain.new }
    ensures stays { Stays domain.old domain.new }
{
    publisher.send_copy(domain, celsius)?.delivered();
    Ok(())
}

/// Receives the next reading that waits, and gives it back. `None` where none waits. Exactly one fewer
/// waits afterwards, if the subscriber has room for all publishers that were closed.
pub fn receive_next(
    domain: &mut Domain<u32, ()>,
    subscriber: &Subscriber,
) -> Result<Option<u32>, Failure>
    requires single_valued { IsSingleValued domain.old }
    requires subscriber { IsLiveSubscriber domain.old subscriber.now }
    ensures one_fewer { HasRoomFor domain.old subscriber.now 0
        → IfOk result (λ reading. OnSome reading
        (suc (waiting domain.new subscriber.now) ≡ waiting domain.old subscriber.now)) }
    ensures up_to_date { UpToDateStay domain.old domain.new }
    ensures stays { Stays domain.old domain.new }
{
    let Some(sample) = subscriber.receive(domain)? else {
        return Ok(None);
    };
    let celsius = *sample.payload(domain);
    sample.release(domain);
    Ok(Some(celsius))
}

/// Sends the readings, one after the other.
pub fn send_all(
    domain: &mut Domain<u32, ()>,
    publisher: &Publisher,
    readings: &[u32],
) -> Result<(), Failure>
    requires single_valued { IsSingleValued domain.old }
    requires publisher { IsLivePublisher domain.old publisher.now }
    ensures stays { Stays domain.old domain.new }
{
    for &celsius in readings {
        send(domain, publisher, celsius)?;
    }
    Ok(())
}

/// Receives each reading that waits, and gives it back. None waits afterwards.
pub fn drain(domain: &mut Domain<u32, ()>, subscriber: &Subscriber) -> Result<(), Failure>
    requires { IsLiveSubscriber domain.old subscriber.now }
    ensures stays { Stays domain.old domain.new }
    ensures drained { OnOk result (waiting domain.new subscriber.now ≡ 0) }
{
    while let Some(sample) = subscriber.receive(domain)? {
        sample.release(domain);
    }
    Ok(())
}
