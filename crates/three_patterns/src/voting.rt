//! Three publishers vote.
ghost use Rattle.std.specs.Prelude.{◌≢◌, IfOk};
ghost use Rattle.iox2_pubsub.specs.Handles.{publisher_id};
ghost use Rattle.iox2_pubsub.specs.Live.{Stays};
ghost use Rattle.message_patterns.specs.Votes.{IsMiddle};
ghost use Rattle.three_patterns.specs.Ports.{CanPassOn, IsSetUp};

use crate::failure::Failure;
use crate::ports::{connected_publisher, join, settings};
use iox2_pubsub::{Publisher, Subscriber};
use message_patterns::{Numbers, vote};
use std::alloc::Global;

/// Has three publishers send a reading each, and returns the one in the middle.
pub fn vote_on(alloc: Global, readings: (u32, u32, u32)) -> Result<u32, Failure>
    ensures middle { IfOk result (λ it. IsMiddle it readings.0 readings.1 readings.2) }
{
    let mut domain = Numbers::with_handlers(alloc, settings(3))?;
    with_first(&mut domain, readings)
}

// Makes the subscriber and the first publisher, and closes them.
fn with_first(domain: &mut Numbers, readings: (u32, u32, u32)) -> Result<u32, Failure>
    requires { IsSetUp domain.old }
    ensures { IfOk result (λ it. IsMiddle it readings.0 readings.1 readings.2) }
{
    let pair = join(domain)?;
    let outcome = with_second(domain, &pair.publisher, &pair.subscriber, readings);
    pair.close(domain);
    outcome
}

// Makes the second publisher, and closes it.
fn with_second(
    domain: &mut Numbers,
    first: &Publisher,
    subscriber: &Subscriber,
    readings: (u32, u32, u32),
) -> Result<u32, Failure>
    requires first { CanPassOn domain.old first.now subscriber.now }
    ensures middle { IfOk result (λ it. IsMiddle it readings.0 readings.1 readings.2) }
    ensures stays { Stays domain.old domain.new }
{
    let second = connected_publisher(domain, subscriber)?;
    let outcome = with_third(domain, first, &second, subscriber, readings);
    second.close(domain);
    outcome
}

// Makes the third one, has all vote, and closes it.
fn with_third(
    domain: &mut Numbers,
    first: &Publisher,
    second: &Publisher,
    subscriber: &Subscriber,
    readings: (u32, u32, u32),
) -> Result<u32, Failure>
    requires first { CanPassOn domain.old first.now subscriber.now }
    requires second { CanPassOn domain.old second.now subscriber.now }
    requires apart { publisher_id first.now ≢ publisher_id second.now }
    ensures middle { IfOk result (λ it. IsMiddle it readings.0 readings.1 readings.2) }
    ensures stays { Stays domain.old domain.new }
{
    let third = connected_publisher(domain, subscriber)?;
    let outcome = vote_if_idle(domain, first, second, &third, subscriber, readings);
    third.close(domain);
    outcome
}

// Has the three vote, if nothing waits for the subscriber yet.
fn vote_if_idle(
    domain: &mut Numbers,
    first: &Publisher,
    second: &Publisher,
    third: &Publisher,
    subscriber: &Subscriber,
    readings: (u32, u32, u32),
) -> Result<u32, Failure>
    requires first { CanPassOn domain.old first.now subscriber.now }
    requires second { CanPassOn domain.old second.now subscriber.now }
    requires third { CanPassOn domain.old third.now subscriber.now }
    requires apart { (publisher_id second.now ≢ publisher_id third.now)
        × (publisher_id first.now ≢ publisher_id third.now) × (publisher_id first.now ≢ publisher_id second.now) }
    ensures middle { IfOk result (λ it. IsMiddle it readings.0 readings.1 readings.2) }
    ensures stays { Stays domain.old domain.new }
{
    if subscriber.has_samples(domain)? {
        return Err(Failure::Busy);
    }
    Ok(vote(domain, first, second, third, subscriber, readings)?)
}
