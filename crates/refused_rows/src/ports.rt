//! Ports are made, and messages go from one to another.
ghost use Rattle.std.specs.Prelude.{IfOk};
ghost use Rattle.iox2_pubsub.specs.Live.{IsLiveSubscriber, IsReadyPublisher, IsSingleValued, Stays};

use crate::answer::{Handler, Service};
use crate::failure::Failure;
use iox2_pubsub::{
    BackpressureStrategy, DegradationAction, DegradationHandler, Publisher, PublisherCreateError,
    SendOutcome, Subscriber, SubscriberCreateError,
};

/// A publisher with this handler, which is printed. Where it is refused, that is printed, and it is made
/// once more with a handler that fails each call.
pub(crate) fn made_publisher(
    rt: &HostRuntime,
    domain: &mut Service,
    handler: Handler,
) -> Result<Publisher, Failure>
    ensures ready { IfOk result (λ publisher. IsReadyPublisher domain.new publisher) }
    ensures stays { Stays domain.old domain.new }
{
    let publisher = match create_publisher(domain, handler) {
        Ok(publisher) => publisher,
        Err(error) => {
            println!(rt; "err {error}")?;
            create_publisher(domain, strict())?
        }
    };
    match print_port(rt, domain, "publisher", publisher.id().value()) {
        Ok(()) => Ok(publisher),
        Err(error) => {
            publisher.disown();
            Err(error)
        }
    }
}

fn create_publisher(
    domain: &mut Service,
    handler: Handler,
) -> Result<Publisher, PublisherCreateError>
    ensures ready { IfOk result (λ publisher. IsReadyPublisher domain.new publisher) }
    ensures stays { Stays domain.old domain.new }
{
    domain
        .publisher_builder()
        .max_loaned_samples(1)
        .backpressure_strategy(BackpressureStrategy::DiscardData)
        .set_degradation_handler(handler)
        .create(domain)
}

/// A subscriber with this handler, in the same way.
pub(crate) fn made_subscriber(
    rt: &HostRuntime,
    domain: &mut Service,
    handler: Handler,
) -> Result<Subscriber, Failure>
    ensures live { IfOk result (λ subscriber. IsLiveSubscriber domain.new subscriber) }
    ensures stays { Stays domain.old domain.new }
{
    let subscriber = match create_subscriber(domain, handler) {
        Ok(subscriber) => subscriber,
        Err(error) => {
            println!(rt; "err {error}")?;
            create_subscriber(domain, strict())?
        }
    };
    match print_port(rt, domain, "subscriber", subscriber.id().value()) {
        Ok(()) => Ok(subscriber),
        Err(error) => {
            subscriber.disown();
            Err(error)
        }
    }
}

fn create_subscriber(
    domain: &mut Service,
    handler: Handler,
) -> Result<Subscriber, SubscriberCreateError>
    ensures live { IfOk result (λ subscriber. IsLiveSubscriber domain.new subscriber) }
    ensures stays { Stays domain.old domain.new }
{
    domain
        .subscriber_builder()
        .set_degradation_handler(handler)
        .create(domain)
}

// A handler that fails each call.
fn strict() -> Handler {
    DegradationHandler::Fixed(DegradationAction::DegradeAndFail)
}

// Prints which port was made, and how many connections there are.
fn print_port(rt: &HostRuntime, domain: &Service, side: &str, id: u128) -> Result<(), Failure> {
    println!(rt; "{side} {id}")?;
    println!(rt; "connections {}", domain.connection_count())?;
    Ok(())
}

/// Sends a value, and prints how many subscribers took it.
pub(crate) fn send(
    rt: &HostRuntime,
    domain: &mut Service,
    publisher: &Publisher,
    value: u64,
) -> Result<(), Failure>
    requires single_valued { IsSingleValued domain.old }
    requires publisher { IsReadyPublisher domain.old publisher.now }
    ensures { IfOk result (λ _. Stays domain.old domain.new) }
{
    match publisher.send_copy(domain, value)? {
        SendOutcome::Delivered(count) => println!(rt; "delivered {count}")?,
        SendOutcome::Blocked(blocked) => {
            blocked.disown();
            return Err(Failure::Refused);
        }
    }
    Ok(())
}

/// Receives a value and prints it, or that none waits.
pub(crate) fn receive(
    rt: &HostRuntime,
    domain: &mut Service,
    subscriber: &Subscriber,
) -> Result<(), Failure>
    requires single_valued { IsSingleValued domain.old }
    requires subscriber { IsLiveSubscriber domain.old subscriber.now }
    ensures { Stays domain.old domain.new }
{
    match subscriber.receive(domain)? {
        Some(sample) => {
            let value = *sample.payload(domain);
            sample.release(domain);
            println!(rt; "value {value}")?;
        }
        None => println!(rt; "none")?,
    }
    Ok(())
}
