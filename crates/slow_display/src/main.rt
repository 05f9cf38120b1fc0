//! A thermometer sends its readings to a display that is slow, and waits for it where it is full.
//!
//! This is how a program handles a send that is blocked: it matches on the outcome of the send, and
//! spends the blocked send by another try or by giving up. Nothing else is tested when it runs. How
//! often a reading is tried again is said by a handler of its own.
#![tactic(auto)]

ghost use Rattle.iox2_pubsub.specs.Live.{Stays};
ghost use Rattle.slow_display.specs.Ports.{CanReceive, CanSendReading};

mod display;
mod failure;
mod patience;
mod sending;

use display::show_all;
use failure::Failure;
use iox2_pubsub::{
    BackpressureFn, BackpressureHandler, Domain, Publisher, ServiceConfig, Subscriber,
};
use patience::Patience;
use sending::{give_up, send_until_full, try_again};

fn main(rt: HostRuntime) -> Result<(), Failure> {
    let config = ServiceConfig {
        max_publishers: 1,
        max_subscribers: 1,
        enable_safe_overflow: false,
        ..ServiceConfig::new(1)
    };
    let patience: Box<dyn BackpressureFn> = Box::new(rt.alloc(), Patience { retries: 2 })?;
    let mut domain = Domain::<u32, ()>::new(rt.alloc(), config)?;
    let display = domain.subscriber_builder().create(&mut domain)?;
    let outcome = run(&rt, &mut domain, &display, patience);
    display.close(&mut domain);
    outcome
}

// Makes the thermometer's publisher, which has this patience with a full display, reports with it and
// closes it.
fn run(
    rt: &HostRuntime,
    domain: &mut Domain<u32, ()>,
    display: &Subscriber,
    patience: Box<dyn BackpressureFn>,
) -> Result<(), Failure>
    requires display { CanReceive domain.old display.now }
    ensures { Stays domain.old domain.new }
{
    let publisher = domain
        .publisher_builder()
        .set_backpressure_handler(BackpressureHandler::Custom(patience))
        .create(domain)?;
    let outcome = report(rt, domain, &publisher, display);
    publisher.close(domain);
    outcome
}

// Has readings wait for the display twice: for the first it shows what waits and gets it then, and for
// the second it is given up.
fn report(
    rt: &HostRuntime,
    domain: &mut Domain<u32, ()>,
    publisher: &Publisher,
    display: &Subscriber,
) -> Result<(), Failure>
    requires publisher { CanSendReading domain.old publisher.now }
    requires display { CanReceive domain.old display.now }
    ensures { Stays domain.old domain.new }
{
    send_all(rt, domain, publisher, display, &[17, 18, 19])?;
    send_some(domain, publisher, &[21, 22])?;
    show_all(rt, domain, display)
}

// Sends the readings until one has to wait. For that one the display shows what waits.
fn send_all(
    rt: &HostRuntime,
    domain: &mut Domain<u32, ()>,
    publisher: &Publisher,
    display: &Subscriber,
    readings: &[u32],
) -> Result<(), Failure>
    requires publisher { CanSendReading domain.old publisher.now }
    requires display { CanReceive domain.old display.now }
    ensures { Stays domain.old domain.new }
{
    let Some(waiting) = send_until_full(domain, publisher, readings)? else {
        return Ok(());
    };
    let shown = show_all(rt, domain, display);
    try_again(domain, waiting)?;
    shown
}

// Sends the readings until one has to wait, which the display isn't given.
fn send_some(
    domain: &mut Domain<u32, ()>,
    publisher: &Publisher,
    readings: &[u32],
) -> Result<(), Failure>
    requires publisher { CanSendReading domain.old publisher.now }
    ensures { Stays domain.old domain.new }
{
    if let Some(waiting) = send_until_full(domain, publisher, readings)? {
        give_up(domain, waiting)?;
    }
    Ok(())
}
