//! What several tests start from, and the calls that they make.
//!
//! Those below the line test at run time what they ask of their handles, so that a test of many calls
//! has nothing to carry from one to the next.

ghost use Rattle.std.specs.Prelude.{IfSome};
ghost use Rattle.iox2_pubsub.specs.Live.{IsLivePublisher, IsLiveSample, IsLiveSubscriber, IsSingleValued, IsWritten, Stays};

use iox2_fixtures::{
    Reading, Weather, factory_for, is_ready, is_single_valued, receiver_count, settings,
};
use iox2_pubsub::{Domain, Publisher, Sample, SampleMut, Subscriber, UpdateConnections, Value};
use std::alloc::Global;
use std::process::Abort;

/// A domain with one publisher and one subscriber, without overflow.
pub(crate) fn domain(rt: &impl Abort, alloc: Global) -> Weather
    ensures { IsSingleValued result }
{
    Domain::new(alloc, settings()).expect(rt, "a domain")
}

/// A publisher that discards what a full subscriber doesn't take.
pub(crate) fn publisher_of<T: Drop, U: Default + Drop>(
    rt: &impl Abort,
    domain: &mut Domain<T, U>,
) -> Publisher
    ensures publisher { IsLivePublisher domain.new result }
    ensures stays { Stays domain.old domain.new }
{
    let factory = factory_for(domain);
    factory.create(domain).expect(rt, "a publisher")
}

/// A subscriber with the largest buffer.
pub(crate) fn subscriber_of<T: Drop, U: Default + Drop>(
    rt: &impl Abort,
    domain: &mut Domain<T, U>,
) -> Subscriber
    ensures subscriber { IsLiveSubscriber domain.new result }
    ensures stays { Stays domain.old domain.new }
{
    let factory = domain.subscriber_builder();
    factory.create(domain).expect(rt, "a subscriber")
}

// ---- what a call asks for is tested

/// Sends a message. Returns how many subscribers took it.
pub(crate) fn send<T: Drop, U: Default + Drop>(
    rt: &impl Abort,
    domain: &mut Domain<T, U>,
    message: SampleMut,
) -> usize
    requires { IsWritten domain.old message }
{
    assert!(rt; !message.is_blocked(domain));
    let outcome = message.send(domain).expect(rt, "an outcome");
    receiver_count(outcome).expect(rt, "a send that isn't blocked")
}

/// Receives a message, which waits.
pub(crate) fn receive<T: Drop, U: Default + Drop>(
    rt: &impl Abort,
    domain: &mut Domain<T, U>,
    subscriber: &Subscriber,
) -> Sample
    ensures sample { IsLiveSample domain.new result }
    ensures single_valued { IsSingleValued domain.new }
{
    assert!(rt; is_single_valued(domain));
    assert!(rt; subscriber.is_in(domain));
    let received = subscriber.receive(domain).expect(rt, "an answer");
    received.expect(rt, "a sample")
}

/// What the subscriber receives next, which it borrows.
pub(crate) fn received(
    rt: &impl Abort,
    domain: &mut Weather,
    subscriber: &Subscriber,
) -> Option<Sample>
    ensures { IfSome result (λ sample. IsLiveSample domain.new sample) }
{
    assert!(rt; subscriber.is_in(domain));
    subscriber.receive(domain).expect(rt, "an answer")
}

/// Whether messages wait for the subscriber.
pub(crate) fn waits(rt: &impl Abort, domain: &mut Weather, subscriber: &Subscriber) -> bool {
    assert!(rt; subscriber.is_in(domain));
    subscriber.has_samples(domain).expect(rt, "an answer")
}

/// What the sample reads.
pub(crate) fn celsius_of(rt: &impl Abort, domain: &Weather, sample: &Sample) -> u64
    requires { IsLiveSample domain.now sample.now }
{
    assert!(rt; is_single_valued(domain));
    sample.payload(domain).celsius
}

/// Gives a sample back.
pub(crate) fn release(rt: &impl Abort, domain: &mut Weather, sample: Sample) {
    let found = domain.sample_of::<Value>(&sample.into_parts());
    found.expect(rt, "a sample").release(domain);
}

/// Reads and releases what the subscriber receives next. `None` where no message waits.
pub(crate) fn next_reading(
    rt: &impl Abort,
    domain: &mut Weather,
    subscriber: &Subscriber,
) -> Option<u64> {
    let sample = received(rt, domain, subscriber)?;
    let celsius = celsius_of(rt, domain, &sample);
    sample.release(domain);
    Some(celsius)
}

/// Sends a copy to each subscriber. Returns how many took it.
pub(crate) fn copied(
    rt: &impl Abort,
    domain: &mut Weather,
    publisher: &Publisher,
    celsius: u64,
) -> usize {
    assert!(rt; is_single_valued(domain));
    assert!(rt; is_ready(domain, publisher));
    let outcome = publisher
        .send_copy(domain, Reading { celsius })
        .expect(rt, "an outcome");
    receiver_count(outcome).expect(rt, "a send that isn't blocked")
}

/// Updates the publisher's connections.
pub(crate) fn update(rt: &impl Abort, domain: &mut Weather, publisher: &Publisher) {
    assert!(rt; is_ready(domain, publisher));
    let updated = publisher.update_connections(domain);
    assert!(rt; updated.is_ok());
}
