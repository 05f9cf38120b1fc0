//! A number goes to two subscribers, of which one is full.
ghost use Rattle.std.specs.Prelude.{◌≡◌, ◌≢◌};
ghost use Rattle.iox2_pubsub.specs.Handles.{publisher_id, subscriber_id};
ghost use Rattle.iox2_pubsub.specs.Live.{IsConnected, IsLiveSubscriber, IsReadyPublisher, IsSingleValued};
ghost use Rattle.blocking_patterns.specs.Ports.{IsMadeFor};

use crate::failure::Failure;
use crate::ports::{connected_publisher, settings};
use iox2_pubsub::{Publisher, Subscriber};
use message_patterns::{Numbers, close_both, read_all, spread, spread_again};
use std::alloc::Global;

/// What came of it: whether the second number was blocked, and what each has read.
#[derive(Drop)]
pub struct Spread {
    pub was_blocked: bool,
    pub first: Vec<u32>,
    pub second: Vec<u32>,
}

/// Spreads two numbers to a subscriber with room for one, and to another with room for two.
pub fn spread_two(alloc: Global) -> Result<Spread, Failure> {
    let mut domain = Numbers::with_handlers(alloc, settings(2, 2))?;
    with_first(alloc, &mut domain)
}

// Makes the first subscriber.
fn with_first(alloc: Global, domain: &mut Numbers) -> Result<Spread, Failure>
    requires { IsMadeFor domain.old 2 }
{
    let first = domain.subscriber_builder().buffer_size(1).create(domain)?;
    match domain.subscriber_builder().create(domain) {
        Ok(second) => with_both(alloc, domain, first, second),
        Err(error) => {
            first.close(domain);
            Err(Failure::Subscriber(error))
        }
    }
}

// Makes the publisher, spreads the numbers, and closes both subscribers.
fn with_both(
    alloc: Global,
    domain: &mut Numbers,
    first: Subscriber,
    second: Subscriber,
) -> Result<Spread, Failure>
    requires set_up { IsMadeFor domain.old 2 }
    requires first { IsLiveSubscriber domain.old first }
    requires second { IsLiveSubscriber domain.old second }
    requires apart { subscriber_id first ≢ subscriber_id second }
{
    let spread = match connected_publisher(domain) {
        Ok(publisher) => {
            let spread = spread_to(alloc, domain, &publisher, &first, &second);
            publisher.disown();
            spread
        }
        Err(error) => Err(error),
    };
    close_both(domain, first, second);
    spread
}

// Spreads both numbers, and reads what waits.
fn spread_to(
    alloc: Global,
    domain: &mut Numbers,
    publisher: &Publisher,
    first: &Subscriber,
    second: &Subscriber,
) -> Result<Spread, Failure>
    requires single_valued { IsSingleValued domain.old }
    requires two { (domain.old.config).max_subscribers ≡ 2 }
    requires apart { subscriber_id first.now ≢ subscriber_id second.now }
    requires publisher { IsReadyPublisher domain.old publisher.now }
    requires first { IsLiveSubscriber domain.old first.now }
    requires second { IsLiveSubscriber domain.old second.now }
    requires first_connected { IsConnected domain.old (publisher_id publisher.now) first.now }
    requires second_connected { IsConnected domain.old (publisher_id publisher.now) second.now }
    ensures first { IsLiveSubscriber domain.new first.now }
    ensures second { IsLiveSubscriber domain.new second.now }
{
    if let Some(waiting) = spread(domain, publisher, first, second, 1)? {
        waiting.disown();
        return Err(Failure::Busy);
    }
    let mut read = Vec::new(alloc);
    let mut was_blocked = false;
    if let Some(waiting) = spread(domain, publisher, first, second, 2)? {
        was_blocked = true;
        if let Err(error) = read_all(domain, first, &mut read) {
            waiting.disown();
            return Err(error.into());
        }
        if let Some(again) = spread_again(domain, waiting)? {
            again.disown();
            return Err(Failure::Busy);
        }
    }
    read_all(domain, first, &mut read)?;
    let mut other = Vec::new(alloc);
    read_all(domain, second, &mut other)?;
    Ok(Spread {
        was_blocked,
        first: read,
        second: other,
    })
}
