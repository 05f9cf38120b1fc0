//! One reading goes from a publisher to a subscriber: the smallest program over `iox2_pubsub`, to
//! begin your own with.
#![tactic(auto)]

ghost use Rattle.iox2_pubsub.specs.Live.{IsLivePublisher, IsLiveSubscriber, IsSingleValued, Stays};

mod failure;

use failure::Failure;
use iox2_pubsub::{BackpressureStrategy, Domain, Publisher, ServiceConfig, Subscriber};

fn main(rt: HostRuntime) -> Result<(), Failure> {
    let mut domain = Domain::<u32, ()>::new(rt.alloc(), ServiceConfig::new(1))?;
    if let Some(celsius) = with_subscriber(&mut domain)? {
        println!(rt; "{celsius} °C")?;
    }
    Ok(())
}

// Makes a subscriber, has a reading sent to it, and closes it.
fn with_subscriber(domain: &mut Domain<u32, ()>) -> Result<Option<u32>, Failure>
    requires { IsSingleValued domain.old }
{
    let subscriber = domain.subscriber_builder().create(domain)?;
    let outcome = with_publisher(domain, &subscriber);
    subscriber.close(domain);
    outcome
}

// Makes a publisher, has it send a reading, and closes it.
fn with_publisher(
    domain: &mut Domain<u32, ()>,
    subscriber: &Subscriber,
) -> Result<Option<u32>, Failure>
    requires single_valued { IsSingleValued domain.old }
    requires subscriber { IsLiveSubscriber domain.old subscriber.now }
    ensures { Stays domain.old domain.new }
{
    let publisher = domain
        .publisher_builder()
        .backpressure_strategy(BackpressureStrategy::DiscardData)
        .create(domain)?;
    let outcome = exchange(domain, &publisher, subscriber);
    publisher.close(domain);
    outcome
}

// Sends a reading and receives it.
fn exchange(
    domain: &mut Domain<u32, ()>,
    publisher: &Publisher,
    subscriber: &Subscriber,
) -> Result<Option<u32>, Failure>
    requires single_valued { IsSingleValued domain.old }
    requires publisher { IsLivePublisher domain.old publisher.now }
    requires subscriber { IsLiveSubscriber domain.old subscriber.now }
    ensures { Stays domain.old domain.new }
{
    send(domain, publisher, 21)?;
    receive(domain, subscriber)
}

// Writes a reading into a slot, and sends it.
fn send(domain: &mut Domain<u32, ()>, publisher: &Publisher, celsius: u32) -> Result<(), Failure>
    requires single_valued { IsSingleValued domain.old }
    requires publisher { IsLivePublisher domain.old publisher.now }
    ensures { Stays domain.old domain.new }
{
    let loan = publisher.loan_uninit(domain)?;
    let message = loan.write_payload(domain, celsius);
    message.send(domain)?.delivered();
    Ok(())
}

// Receives a reading, and gives it back.
fn receive(domain: &mut Domain<u32, ()>, subscriber: &Subscriber) -> Result<Option<u32>, Failure>
    requires single_valued { IsSingleValued domain.old }
    requires subscriber { IsLiveSubscriber domain.old subscriber.now }
    ensures { Stays domain.old domain.new }
{
    let Some(sample) = subscriber.receive(domain)? else {
        return Ok(None);
    };
    let celsius = *sample.payload(domain);
    sample.release(domain);
    Ok(Some(celsius))
}
