//! A recorder gets each number, and a display those that it has room for.
ghost use Rattle.std.specs.Prelude.{◌≢◌};
ghost use Rattle.iox2_pubsub.specs.Handles.{publisher_id, subscriber_id};
ghost use Rattle.iox2_pubsub.specs.Live.{A_blocked_send, IsConnected, IsLiveSubscriber, IsReadyPublisher};
ghost use Rattle.iox2_pubsub.specs.Live.{IsSingleValued, StaysBut, UpToDateStay};
ghost use Rattle.blocking_patterns.specs.Ports.{IsMadeFor};

use crate::failure::Failure;
use crate::ports::{connected_publisher, settings};
use iox2_pubsub::{Publisher, Subscriber};
use message_patterns::{Numbers, close_both, read_all, record, record_again};
use std::alloc::Global;

/// What came of it: what was recorded, and what was displayed.
#[derive(Drop)]
pub struct Recorded {
    pub recorded: Vec<u32>,
    pub displayed: Vec<u32>,
}

/// Sends three numbers to a recorder with room for two, and to a display with room for one.
pub fn record_three(alloc: Global) -> Result<Recorded, Failure> {
    let mut domain = Numbers::with_handlers(alloc, settings(3, 2))?;
    with_display(alloc, &mut domain)
}

// Makes the display.
fn with_display(alloc: Global, domain: &mut Numbers) -> Result<Recorded, Failure>
    requires { IsMadeFor domain.old 2 }
{
    let display = domain.subscriber_builder().buffer_size(1).create(domain)?;
    match domain.subscriber_builder().create(domain) {
        Ok(recorder) => with_both(alloc, domain, display, recorder),
        Err(error) => {
            display.close(domain);
            Err(Failure::Subscriber(error))
        }
    }
}

// Makes the publisher, sends the numbers, and closes both subscribers.
fn with_both(
    alloc: Global,
    domain: &mut Numbers,
    display: Subscriber,
    recorder: Subscriber,
) -> Result<Recorded, Failure>
    requires set_up { IsMadeFor domain.old 2 }
    requires display { IsLiveSubscriber domain.old display }
    requires recorder { IsLiveSubscriber domain.old recorder }
    requires apart { subscriber_id display ≢ subscriber_id recorder }
{
    let recorded = match connected_publisher(domain) {
        Ok(publisher) => {
            let recorded = record_to(alloc, domain, &publisher, &display, &recorder);
            publisher.disown();
            recorded
        }
        Err(error) => Err(error),
    };
    close_both(domain, display, recorder);
    recorded
}

// Sends the numbers, and reads what waits.
fn record_to(
    alloc: Global,
    domain: &mut Numbers,
    publisher: &Publisher,
    display: &Subscriber,
    recorder: &Subscriber,
) -> Result<Recorded, Failure>
    requires single_valued { IsSingleValued domain.old }
    requires publisher { IsReadyPublisher domain.old publisher.now }
    requires display { IsLiveSubscriber domain.old display.now }
    requires recorder { IsLiveSubscriber domain.old recorder.now }
    requires connected { IsConnected domain.old (publisher_id publisher.now) recorder.now }
    ensures display { IsLiveSubscriber domain.new display.now }
    ensures recorder { IsLiveSubscriber domain.new recorder.now }
{
    let mut recorded = Vec::new(alloc);
    record_number(domain, publisher, recorder, 1, &mut recorded)?;
    if publisher.is_blocked(domain) {
        return Err(Failure::Busy);
    }
    record_number(domain, publisher, recorder, 2, &mut recorded)?;
    if publisher.is_blocked(domain) {
        return Err(Failure::Busy);
    }
    record_number(domain, publisher, recorder, 3, &mut recorded)?;
    read_all(domain, recorder, &mut recorded)?;
    let mut displayed = Vec::new(alloc);
    read_all(domain, display, &mut displayed)?;
    Ok(Recorded {
        recorded,
        displayed,
    })
}

// Sends a number. If the recorder is full, reads what waits for it, and goes on.
fn record_number(
    domain: &mut Numbers,
    publisher: &Publisher,
    recorder: &Subscriber,
    number: u32,
    recorded: &mut Vec<u32>,
) -> Result<(), Failure>
    requires single_valued { IsSingleValued domain.old }
    requires publisher { IsReadyPublisher domain.old publisher.now }
    requires recorder { IsLiveSubscriber domain.old recorder.now }
    requires connected { IsConnected domain.old (publisher_id publisher.now) recorder.now }
    ensures up_to_date { UpToDateStay domain.old domain.new }
    ensures stays { StaysBut (A_blocked_send (publisher_id publisher.now)) domain.old domain.new }
{
    let Some(waiting) = record(domain, publisher, recorder, number)? else {
        return Ok(());
    };
    if let Err(error) = read_all(domain, recorder, recorded) {
        waiting.disown();
        return Err(error.into());
    }
    match record_again(domain, waiting, recorder)? {
        None => Ok(()),
        Some(again) => {
            again.disown();
            Err(Failure::Busy)
        }
    }
}
