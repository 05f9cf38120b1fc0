//! Messages pass from a publisher to a subscriber. Both keep many.
ghost use Rattle.std.specs.Prelude.{◌≤◌, IfSome};
ghost use Rattle.iox2_pubsub.specs.Live.{IsLivePublisher, IsLiveSample, IsLiveSubscriber, IsSingleValued, IsUnblocked, IsWritten, Stays, written_key};
ghost use Rattle.kept_cost.specs.Ports.{HasTwoPorts};

use crate::kept::Kept;
use iox2_pubsub::{
    BackpressureStrategy, Domain, LoanParts, Publisher, Sample, SampleMut, SampleParts,
    SendOutcome, ServiceConfig, Subscriber, TypeVariant,
};
use std::alloc::Global;

/// Makes the ports, and has them pass messages in that many rounds. Returns how many samples were
/// released. `None` where a port is refused.
pub fn pass_oldest(alloc: Global, kept: Kept, rounds: u64) -> Option<u64>
    ensures { IfSome result (λ released. released ≤ rounds) }
{
    let config = ServiceConfig {
        variant: TypeVariant::FixedSize,
        max_publishers: 1,
        max_subscribers: 1,
        publisher_max_loaned_samples: kept.loans().checked_add(1)?,
        subscriber_max_borrowed_samples: kept.samples().checked_add(1)?,
        ..ServiceConfig::new(1)
    };
    let mut domain = Domain::<u64, ()>::new(alloc, config).ok()?;
    let subscriber = domain.subscriber_builder().create(&mut domain).ok()?;
    let released = pass_to(&mut domain, &subscriber, kept, rounds);
    subscriber.disown();
    released
}

// Makes the publisher, and has messages pass. `None` where it is refused.
fn pass_to(
    domain: &mut Domain<u64, ()>,
    subscriber: &Subscriber,
    kept: Kept,
    rounds: u64,
) -> Option<u64>
    requires single_valued { IsSingleValued domain.old }
    requires subscriber { IsLiveSubscriber domain.old subscriber.now }
    ensures { IfSome result (λ released. released ≤ rounds) }
{
    let publisher = domain
        .publisher_builder()
        .backpressure_strategy(BackpressureStrategy::DiscardData)
        .create(domain)
        .ok()?;
    let released = pass_all(domain, &publisher, subscriber, kept, rounds);
    publisher.disown();
    Some(released)
}

// Has messages pass in that many rounds, and returns how many samples were released.
fn pass_all(
    domain: &mut Domain<u64, ()>,
    publisher: &Publisher,
    subscriber: &Subscriber,
    kept: Kept,
    rounds: u64,
) -> u64
    requires ports { HasTwoPorts domain.old publisher.now subscriber.now }
    ensures { result ≤ rounds }
{
    let mut kept = kept;
    let mut released = 0;
    for value in 0..rounds {
        if let Some(loan) = lend(domain, publisher) {
            let oldest = kept.exchange_loan(loan);
            send_oldest(domain, publisher, subscriber, oldest, value);
        }
        if let Some(sample) = receive(domain, subscriber) {
            let oldest = kept.exchange_sample(sample);
            if release_oldest(domain, publisher, subscriber, oldest) {
                released += 1;
            }
        }
    }
    released
}

// Sends this loan, if it is one.
fn send_oldest(
    domain: &mut Domain<u64, ()>,
    publisher: &Publisher,
    subscriber: &Subscriber,
    oldest: Option<LoanParts>,
    value: u64,
)
    requires ports { HasTwoPorts domain.old publisher.now subscriber.now }
    ensures { HasTwoPorts domain.new publisher.now subscriber.now }
{
    let Some(oldest) = oldest else {
        return;
    };
    let Some(loan) = domain.unwritten_of(&oldest) else {
        return;
    };
    let message = loan.write_payload(domain, value);
    if message.is_blocked(domain) {
        message.disown();
        return;
    }
    send(domain, publisher, subscriber, message);
}

// Releases this sample, if it is one, and returns whether it was.
fn release_oldest(
    domain: &mut Domain<u64, ()>,
    publisher: &Publisher,
    subscriber: &Subscriber,
    oldest: Option<SampleParts>,
) -> bool
    requires ports { HasTwoPorts domain.old publisher.now subscriber.now }
    ensures { HasTwoPorts domain.new publisher.now subscriber.now }
{
    let Some(oldest) = oldest else {
        return false;
    };
    let Some(sample) = domain.sample_of(&oldest) else {
        return false;
    };
    release(domain, publisher, subscriber, sample);
    true
}

// Each of these calls stays a function of its own in the program, so that its instructions can be
// counted.
#[inline(never)]
fn lend(domain: &mut Domain<u64, ()>, publisher: &Publisher) -> Option<LoanParts>
    requires publisher { IsLivePublisher domain.old publisher.now }
    requires single_valued { IsSingleValued domain.old }
    ensures { Stays domain.old domain.new }
{
    Some(publisher.loan_uninit(domain).ok()?.into_parts())
}

#[inline(never)]
fn send(
    domain: &mut Domain<u64, ()>,
    publisher: &Publisher,
    subscriber: &Subscriber,
    message: SampleMut,
)
    requires written { IsWritten domain.old message }
    requires unblocked { IsUnblocked domain.old (written_key message) }
    requires ports { HasTwoPorts domain.old publisher.now subscriber.now }
    ensures { HasTwoPorts domain.new publisher.now subscriber.now }
{
    let Ok(outcome) = message.send(domain) else {
        return;
    };
    match outcome {
        SendOutcome::Blocked(blocked) => blocked.disown(),
        SendOutcome::Delivered(_) => {}
    }
}

#[inline(never)]
fn receive(domain: &mut Domain<u64, ()>, subscriber: &Subscriber) -> Option<SampleParts>
    requires subscriber { IsLiveSubscriber domain.old subscriber.now }
    ensures { Stays domain.old domain.new }
{
    Some(subscriber.receive(domain).ok()??.into_parts())
}

#[inline(never)]
fn release(
    domain: &mut Domain<u64, ()>,
    publisher: &Publisher,
    subscriber: &Subscriber,
    sample: Sample,
)
    requires live { IsLiveSample domain.old sample }
    requires ports { HasTwoPorts domain.old publisher.now subscriber.now }
    ensures { HasTwoPorts domain.new publisher.now subscriber.now }
{
    sample.release(domain);
}
