//! What a message costs, what a close, and what ports cost from their making to their close: a static
//! library that passes messages through a domain, or makes and closes ports, so that a tool can count
//! the instructions of the calls that it makes.
#![tactic(auto)]

ghost use Rattle.std.specs.Prelude.{◌≤◌, IfSome, All};
ghost use Rattle.iox2_pubsub.specs.Live.{IsLivePublisher, IsLiveSubscriber, IsSingleValued};

mod closing;
mod connecting;
mod load;
mod passing;
mod ports;
mod receiver;
mod sender;

use closing::{Closing, close_all};
use connecting::{Connecting, connect_all};
use iox2_pubsub::{BackpressureStrategy, Domain, Publisher};
use load::Load;
use passing::pass_all;
use ports::{create_receivers, keep_loans, keep_publishers, keep_samples, keep_subscribers};
use receiver::Receiver;
use std::alloc::Global;

/// Makes a domain with this load, and passes that many messages through it. Returns how many of them
/// every subscriber received and read as they were written: fewer than all where a call is refused.
#[unsafe(no_mangle)]
pub extern "C" fn pass_messages(alloc: Global, load: &Load, messages: u64) -> u64
    ensures { result ≤ messages }
{
    pass_under_load(alloc, load, messages).unwrap_or(0)
}

/// Makes a domain with these ports and with messages that wait, and closes the ports. Returns how
/// many were closed: none where a call before that is refused.
#[unsafe(no_mangle)]
pub extern "C" fn close_ports(alloc: Global, closing: &Closing) -> usize {
    close_all(alloc, closing).unwrap_or(0)
}

/// Makes a domain with these ports, and makes, updates and closes the ports. Returns how many were
/// closed: none where a call before that is refused. It stays a function of its own in the program,
/// so that its instructions can be counted.
#[unsafe(no_mangle)]
pub extern "C" fn connect_ports(alloc: Global, connecting: &Connecting) -> usize {
    connect_all(alloc, connecting).unwrap_or(0)
}

// Makes the domain, and passes the messages. `None` where something is refused.
fn pass_under_load(alloc: Global, load: &Load, messages: u64) -> Option<u64>
    ensures { IfSome result (λ arrived. arrived ≤ messages) }
{
    let mut domain = Domain::<u64, ()>::new(alloc, load.config()?).ok()?;
    pass_in(alloc, &mut domain, load, messages)
}

// Makes the ports of a domain, and passes the messages. `None` where something is refused.
fn pass_in(alloc: Global, domain: &mut Domain<u64, ()>, load: &Load, messages: u64) -> Option<u64>
    requires single_valued { IsSingleValued domain.old }
    ensures { IfSome result (λ arrived. arrived ≤ messages) }
{
    keep_publishers(domain, load.idle_publishers)?;
    keep_subscribers(domain, load.idle_subscribers)?;
    let receivers = create_receivers(alloc, domain, load.subscribers)?;
    let publisher = domain
        .publisher_builder()
        .backpressure_strategy(BackpressureStrategy::DiscardData)
        .create(domain)
        .ok()?;
    let arrived = pass_between(domain, &publisher, &receivers, load, messages);
    publisher.disown();
    arrived
}

// Has the ports keep what they are to keep, and passes the messages.
fn pass_between(
    domain: &mut Domain<u64, ()>,
    publisher: &Publisher,
    receivers: &[Receiver],
    load: &Load,
    messages: u64,
) -> Option<u64>
    requires single_valued { IsSingleValued domain.old }
    requires publisher { IsLivePublisher domain.old publisher.now }
    requires receivers { All (λ receiver. IsLiveSubscriber domain.old receiver.subscriber) receivers.now }
    ensures { IfSome result (λ arrived. arrived ≤ messages) }
{
    keep_samples(domain, publisher, receivers, load.samples)?;
    keep_loans(domain, publisher, load.loans)?;
    Some(pass_all(domain, publisher, receivers, messages))
}
