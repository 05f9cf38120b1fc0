//! Two readings are received in the order in which they were sent.
ghost use Rattle.std.specs.Prelude.{ℕ, List, [], ◌∷◌, ◌<◌, ◌≤◌, ◌≡◌, IfOk, OnOk};
ghost use Rattle.iox2_pubsub.specs.Handles.{buffer_size_of, publisher_id};
ghost use Rattle.iox2_pubsub.specs.Live.{AllFrom, HasItsBuffer, IsConnected, IsLivePublisher, IsLiveSubscriber};
ghost use Rattle.iox2_pubsub.specs.Live.{IsSingleValued, IsUpToDate, Stays, UpToDateStay, waiting};
ghost use Rattle.calling.specs.Ports.{AreIdle};

use crate::failure::Failure;
use iox2_pubsub::{Domain, Publisher, Subscriber};

/// Sends two readings to a subscriber with room for both, for which nothing waits, and receives them in
/// the order in which they were sent. Nothing waits afterwards.
pub fn echo_pair(
    domain: &mut Domain<u32, ()>,
    publisher: &Publisher,
    subscriber: &Subscriber,
    earlier: u32,
    later: u32,
) -> Result<(u32, u32), Failure>
    requires ports { AreIdle domain.old publisher.now subscriber.now }
    requires buffer { HasItsBuffer domain.old subscriber.now }
    requires room { 2 ≤ buffer_size_of subscriber.now }
    ensures earlier { IfOk result (λ received. received.0 ≡ earlier) }
    ensures later { IfOk result (λ received. received.1 ≡ later) }
    ensures drained { OnOk result (waiting domain.new subscriber.now ≡ 0) }
    ensures up_to_date { UpToDateStay domain.old domain.new }
    ensures stays { Stays domain.old domain.new }
{
    send_pair(domain, publisher, subscriber, earlier, later)?;
    let first = receive_one(domain, subscriber)?;
    let second = receive_one(domain, subscriber)?;
    Ok((first, second))
}

// Sends two readings, which are all that waits for the subscriber then.
fn send_pair(
    domain: &mut Domain<u32, ()>,
    publisher: &Publisher,
    subscriber: &Subscriber,
    earlier: u32,
    later: u32,
) -> Result<(), Failure>
    requires single_valued { IsSingleValued domain.old }
    requires publisher { IsLivePublisher domain.old publisher.now }
    requires connected { IsConnected domain.old (publisher_id publisher.now) subscriber.now }
    requires drained { waiting domain.old subscriber.now ≡ 0 }
    requires buffer { HasItsBuffer domain.old subscriber.now }
    requires room { 2 ≤ buffer_size_of subscriber.now }
    ensures both { OnOk result (AllFrom domain.new (publisher_id publisher.now) subscriber.now ((earlier ∷ []) ∷ (later ∷ []) ∷ [])) }
    ensures up_to_date { UpToDateStay domain.old domain.new }
    ensures stays { Stays domain.old domain.new }
{
    publisher.send_copy(domain, earlier)?.delivered();
    publisher.send_copy(domain, later)?.delivered();
    Ok(())
}

// Receives the oldest reading that waits.
fn receive_one(domain: &mut Domain<u32, ()>, subscriber: &Subscriber) -> Result<u32, Failure>
    requires single_valued { IsSingleValued domain.old }
    requires subscriber { IsLiveSubscriber domain.old subscriber.now }
    requires up_to_date { IsUpToDate domain.old subscriber.now }
    requires some { 0 < waiting domain.old subscriber.now }
    ensures first { IfOk result (λ it. (publisher value : ℕ) (others : List (List ℕ))
        → AllFrom domain.old publisher subscriber.now ((value ∷ []) ∷ others) → (it ≡ value)
        × AllFrom domain.new publisher subscriber.now others) }
    ensures up_to_date { UpToDateStay domain.old domain.new }
    ensures stays { Stays domain.old domain.new }
{
    let Some(sample) = subscriber.receive(domain)? else {
        unreachable!()
    };
    let received = *sample.payload(domain);
    sample.release(domain);
    Ok(received)
}
