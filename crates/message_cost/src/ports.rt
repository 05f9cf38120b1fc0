//! The ports of a domain, and what they keep while messages pass.
ghost use Rattle.std.specs.Prelude.{IfSome, All};
ghost use Rattle.iox2_pubsub.specs.Live.{IsLivePublisher, IsLiveSubscriber, IsSingleValued, Stays};

use crate::passing::send;
use crate::receiver::Receiver;
use iox2_pubsub::{BackpressureStrategy, Domain, Publisher};
use std::alloc::Global;

/// Makes that many subscribers. `None` where one is refused.
pub fn create_receivers(
    alloc: Global,
    domain: &mut Domain<u64, ()>,
    count: usize,
) -> Option<Vec<Receiver>>
    ensures live { IfSome result (λ receivers. All (λ receiver. IsLiveSubscriber domain.new receiver.subscriber) receivers.items) }
    ensures stays { Stays domain.old domain.new }
{
    let mut receivers = Vec::new(alloc);
    for _ in 0..count {
        let subscriber = domain.subscriber_builder().create(domain).ok()?;
        receivers.push(Receiver { subscriber }).ok()?;
    }
    Some(receivers)
}

/// Makes that many publishers that send nothing, and lets go of their handles. `None` where one is
/// refused.
pub fn keep_publishers(domain: &mut Domain<u64, ()>, count: usize) -> Option<()>
    ensures { Stays domain.old domain.new }
{
    for _ in 0..count {
        let publisher = domain
            .publisher_builder()
            .backpressure_strategy(BackpressureStrategy::DiscardData)
            .create(domain)
            .ok()?;
        publisher.disown();
    }
    Some(())
}

/// Makes that many subscribers that never receive, and lets go of their handles. `None` where one is
/// refused.
pub fn keep_subscribers(domain: &mut Domain<u64, ()>, count: usize) -> Option<()>
    ensures { Stays domain.old domain.new }
{
    for _ in 0..count {
        let subscriber = domain.subscriber_builder().create(domain).ok()?;
        subscriber.disown();
    }
    Some(())
}

/// Takes that many loans, and lets go of their handles, so that they stay out. `None` where one is
/// refused.
pub fn keep_loans(domain: &mut Domain<u64, ()>, publisher: &Publisher, count: usize) -> Option<()>
    requires single_valued { IsSingleValued domain.old }
    requires publisher { IsLivePublisher domain.old publisher.now }
    ensures { Stays domain.old domain.new }
{
    for _ in 0..count {
        let loan = publisher.loan_uninit(domain).ok()?;
        loan.disown();
    }
    Some(())
}

/// Has each receiver receive that many messages, and lets go of the samples, so that they stay
/// borrowed. `None` where one isn't sent or received.
pub fn keep_samples(
    domain: &mut Domain<u64, ()>,
    publisher: &Publisher,
    receivers: &[Receiver],
    count: usize,
) -> Option<()>
    requires single_valued { IsSingleValued domain.old }
    requires publisher { IsLivePublisher domain.old publisher.now }
    requires receivers { All (λ receiver. IsLiveSubscriber domain.old receiver.subscriber) receivers.now }
    ensures { Stays domain.old domain.new }
{
    for _ in 0..count {
        send(domain, publisher, 0)?;
        keep_sample_of_each(domain, receivers)?;
    }
    Some(())
}

// Has each receiver receive a message, which stays borrowed.
fn keep_sample_of_each(domain: &mut Domain<u64, ()>, receivers: &[Receiver]) -> Option<()>
    requires receivers { All (λ receiver. IsLiveSubscriber domain.old receiver.subscriber) receivers.now }
    ensures { Stays domain.old domain.new }
{
    for receiver in receivers {
        let sample = receiver.subscriber.receive(domain).ok()??;
        sample.disown();
    }
    Some(())
}
