//! The row of a publisher whose memory grows.
ghost use Rattle.std.specs.Prelude.{◌≡◌, IfOk, IfSome};
ghost use Rattle.iox2_pubsub.specs.Handles.{as_publisher, as_subscriber, as_unwritten, as_written};
ghost use Rattle.iox2_pubsub.specs.Live.{IsLivePublisher, IsLiveSubscriber, IsNewIn, NeverWaitsUnwritten, Stays, unwritten_loan};
ghost use Rattle.iox2_pubsub.specs.Slices.{IsSliced};

use crate::answer::Service;
use crate::failure::Failure;
use iox2_pubsub::slice::{Publisher, Sample, SampleMutUninit, Subscriber};
use iox2_pubsub::{
    AllocationStrategy, BackpressureStrategy, PublisherCreateError, SampleParts,
    SubscriberCreateError, TypeVariant,
};

/// Slices of 1, 3 and 9 elements are sent, each while the samples before it stay borrowed, so that the
/// publisher's memory grows twice. Then all are read. Where a growth is refused, that is printed, a
/// loan that needs none is granted, and the other is asked for once more.
pub(crate) fn growing_publisher(
    rt: &HostRuntime,
    domain: &mut Service,
    strategy: AllocationStrategy,
) -> Result<(), Failure>
    requires dynamic { (domain.old.config).variant ≡ TypeVariant.Dynamic }
    requires one_unit { (domain.old.config).units_per_element ≡ 1 }
    requires sliced { IsSliced domain.old }
{
    let subscriber = made_subscriber(rt, domain)?;
    let outcome = send_to(rt, domain, &subscriber, strategy);
    subscriber.disown();
    outcome
}

// Makes the publisher, and has it send.
fn send_to(
    rt: &HostRuntime,
    domain: &mut Service,
    subscriber: &Subscriber,
    strategy: AllocationStrategy,
) -> Result<(), Failure>
    requires dynamic { (domain.old.config).variant ≡ TypeVariant.Dynamic }
    requires one_unit { (domain.old.config).units_per_element ≡ 1 }
    requires sliced { IsSliced domain.old }
    requires subscriber { IsLiveSubscriber domain.old (as_subscriber subscriber.now) }
{
    let publisher = made_publisher(rt, domain, strategy)?;
    let outcome = send_all(rt, domain, &publisher, subscriber);
    publisher.disown();
    outcome
}

// Sends the slices, and then reads all of them.
fn send_all(
    rt: &HostRuntime,
    domain: &mut Service,
    publisher: &Publisher,
    subscriber: &Subscriber,
) -> Result<(), Failure>
    requires dynamic { (domain.old.config).variant ≡ TypeVariant.Dynamic }
    requires one_unit { (domain.old.config).units_per_element ≡ 1 }
    requires sliced { IsSliced domain.old }
    requires publisher { IsLivePublisher domain.old (as_publisher publisher.now) }
    requires subscriber { IsLiveSubscriber domain.old (as_subscriber subscriber.now) }
{
    let first = pass(rt, domain, publisher, subscriber, 1)?;
    let second = pass(rt, domain, publisher, subscriber, 3)?;
    let third = pass(rt, domain, publisher, subscriber, 9)?;
    print_sample(rt, domain, first)?;
    print_sample(rt, domain, second)?;
    print_sample(rt, domain, third)
}

// Sends a slice, each of whose elements is its length, and receives it. `None` where none came.
fn pass(
    rt: &HostRuntime,
    domain: &mut Service,
    publisher: &Publisher,
    subscriber: &Subscriber,
    len: usize,
) -> Result<Option<SampleParts>, Failure>
    requires dynamic { (domain.old.config).variant ≡ TypeVariant.Dynamic }
    requires one_unit { (domain.old.config).units_per_element ≡ 1 }
    requires sliced { IsSliced domain.old }
    requires publisher { IsLivePublisher domain.old (as_publisher publisher.now) }
    requires subscriber { IsLiveSubscriber domain.old (as_subscriber subscriber.now) }
    ensures { IfOk result (λ _. Stays domain.old domain.new) }
{
    let loan = lend(rt, domain, publisher, len)?;
    let message = loan.write_from_fn(domain, |_| len as u64);
    message.send(domain)?.delivered();
    let received = subscriber.receive(domain)?;
    Ok(received.map(|sample| sample.into_parts()))
}

// Lends a slice. Where that is refused, a slice of one element is lent, and then this one.
fn lend(
    rt: &HostRuntime,
    domain: &mut Service,
    publisher: &Publisher,
    len: usize,
) -> Result<SampleMutUninit, Failure>
    requires dynamic { (domain.old.config).variant ≡ TypeVariant.Dynamic }
    requires one_unit { (domain.old.config).units_per_element ≡ 1 }
    requires sliced { IsSliced domain.old }
    requires publisher { IsLivePublisher domain.old (as_publisher publisher.now) }
    ensures live { IfOk result (λ loan. NeverWaitsUnwritten domain.new (as_unwritten loan)) }
    ensures new { IfOk result (λ loan. IsNewIn domain.old (unwritten_loan (as_unwritten loan))) }
    ensures stays { IfOk result (λ _. Stays domain.old domain.new) }
{
    match publisher.loan_slice_uninit(domain, len) {
        Ok(loan) => Ok(loan),
        Err(error) => {
            println!(rt; "{len} elements: err {error}")?;
            publisher.loan_slice_uninit(domain, 1)?.discard(domain);
            Ok(publisher.loan_slice_uninit(domain, len)?)
        }
    }
}

// Prints of how many elements the sample is, and whether each is that number.
fn print_sample(
    rt: &HostRuntime,
    domain: &Service,
    parts: Option<SampleParts>,
) -> Result<(), Failure>
    requires { IsSliced domain.now }
{
    let Some(parts) = parts else {
        println!(rt; "none")?;
        return Ok(());
    };
    let sample: Sample = domain.sample_of(&parts).ok_or(Failure::Refused)?;
    let payload = sample.payload(domain);
    let len = payload.len();
    let is_right = payload.iter().all(|value| *value == len as u64);
    sample.disown();
    println!(rt;
        "sample of {len} elements, {}",
        if is_right { "right" } else { "wrong" }
    )?;
    Ok(())
}

fn made_publisher(
    rt: &HostRuntime,
    domain: &mut Service,
    strategy: AllocationStrategy,
) -> Result<Publisher, Failure>
    ensures live { IfOk result (λ publisher. IsLivePublisher domain.new (as_publisher publisher)) }
    ensures stays { Stays domain.old domain.new }
{
    match create_publisher(domain, strategy) {
        Ok(publisher) => Ok(publisher),
        Err(error) => {
            println!(rt; "err {error}")?;
            Ok(create_publisher(domain, strategy)?)
        }
    }
}

fn create_publisher(
    domain: &mut Service,
    strategy: AllocationStrategy,
) -> Result<Publisher, PublisherCreateError>
    ensures live { IfOk result (λ publisher. IsLivePublisher domain.new (as_publisher publisher)) }
    ensures stays { Stays domain.old domain.new }
{
    domain
        .slice_publisher_builder()
        .max_loaned_samples(1)
        .allocation_strategy(strategy)
        .backpressure_strategy(BackpressureStrategy::DiscardData)
        .create(domain)
}

fn made_subscriber(rt: &HostRuntime, domain: &mut Service) -> Result<Subscriber, Failure>
    ensures live { IfOk result (λ subscriber. IsLiveSubscriber domain.new (as_subscriber subscriber)) }
    ensures stays { Stays domain.old domain.new }
{
    match create_subscriber(domain) {
        Ok(subscriber) => Ok(subscriber),
        Err(error) => {
            println!(rt; "err {error}")?;
            Ok(create_subscriber(domain)?)
        }
    }
}

fn create_subscriber(domain: &mut Service) -> Result<Subscriber, SubscriberCreateError>
    ensures live { IfOk result (λ subscriber. IsLiveSubscriber domain.new (as_subscriber subscriber)) }
    ensures stays { Stays domain.old domain.new }
{
    domain.slice_subscriber_builder().create(domain)
}
