//! Temperatures go in series, as slices, from a domain's start to its end.
ghost use Rattle.std.specs.Prelude.{◌≡◌, ℕ, [], ◌∷◌, List, length, IfOk, IfSome};
ghost use Rattle.iox2_pubsub.specs.Live.{AreAllSlices, IsLivePublisher, IsLiveSubscriber, Stays, payloads, waiting};
ghost use Rattle.iox2_pubsub.specs.LoansLeft.{HasNumbersLeft};
ghost use Rattle.iox2_pubsub.specs.declared.subscriber.Subscriber.{Subscriber as SubscriberHandle};
ghost use Rattle.iox2_pubsub.specs.Handles.{as_publisher, as_subscriber, max_slice_len_of};
ghost use Rattle.thermometer.specs.Ports.{CanMeasure, HasSeries, PassesSeries};

use crate::failure::Failure;
use iox2_pubsub::slice::{Publisher, SampleMut, Subscriber};
use iox2_pubsub::{BackpressureStrategy, Domain, ServiceConfig, TypeVariant};
use std::alloc::Global;

/// Makes a domain of slices, and sends two series of three temperatures through it. Returns how many
/// temperatures the second had when it came.
pub fn exchange(alloc: Global) -> Result<Option<usize>, Failure> {
    let config = ServiceConfig {
        variant: TypeVariant::Dynamic,
        ..ServiceConfig::new(2)
    };
    let mut domain = Domain::<u64, ()>::new(alloc, config)?;
    let subscriber = domain.slice_subscriber_builder().create(&mut domain)?;
    let outcome = publish(&mut domain, &subscriber);
    subscriber.close(&mut domain);
    outcome
}

// Makes a publisher of series of three, with one loan out at a time, and sends two series with it.
#[tactic(auto, using(iox2_pubsub::proofs::ForCallers::for_callers))]
fn publish(domain: &mut Domain<u64, ()>, subscriber: &Subscriber) -> Result<Option<usize>, Failure>
    requires series { HasSeries domain.old }
    requires subscriber { IsLiveSubscriber domain.old (as_subscriber subscriber.now) }
    requires numbers { HasNumbersLeft domain.old 1 }
    ensures { Stays domain.old domain.new }
{
    let publisher = domain
        .slice_publisher_builder()
        .max_loaned_samples(1)
        .backpressure_strategy(BackpressureStrategy::DiscardData)
        .initial_max_slice_len(3)
        .create(domain)?;
    let outcome = send_both(domain, &publisher, subscriber);
    publisher.close(domain);
    outcome
}

// Sends a series that is made in place, and then one that is copied. Returns how many temperatures
// the second had when it came.
fn send_both(
    domain: &mut Domain<u64, ()>,
    publisher: &Publisher,
    subscriber: &Subscriber,
) -> Result<Option<usize>, Failure>
    requires ports { PassesSeries domain.old (as_publisher publisher.now) (as_subscriber subscriber.now) }
    requires longest { max_slice_len_of (as_publisher publisher.now) ≡ 3 }
    requires loans { CanMeasure domain.old (as_publisher publisher.now) 1 }
    ensures { Stays domain.old domain.new }
{
    send_made(domain, publisher)?;
    receive_length(domain, subscriber)?;
    pass_copied(domain, publisher, subscriber)
}

// Sends a series of the hours 0, 1 and 2. The first hour is set to 12 where it is. The loan
// can't be refused, so there is no case for that.
fn send_made(domain: &mut Domain<u64, ()>, publisher: &Publisher) -> Result<(), Failure>
    requires series { HasSeries domain.old }
    requires publisher { IsLivePublisher domain.old (as_publisher publisher.now) }
    requires longest { max_slice_len_of (as_publisher publisher.now) ≡ 3 }
    requires loans { CanMeasure domain.old (as_publisher publisher.now) 1 }
    ensures { Stays domain.old domain.new }
{
    let loan = publisher.loan_slice_uninit(domain, 3).unwrap();
    let mut message = loan.write_from_fn(domain, |hour| hour as u64);
    set_first(SampleMut::payload_mut(domain, &mut message), 12);
    message.send(domain)?.delivered();
    Ok(())
}

// Sets the first of the temperatures, if there is one.
fn set_first(temperatures: &mut [u64], value: u64) {
    if let Some(first) = temperatures.first_mut() {
        *first = value;
    }
}

// Sends a series of three and receives what waits: a series of three, where nothing waited and no
// history is kept.
fn pass_copied(
    domain: &mut Domain<u64, ()>,
    publisher: &Publisher,
    subscriber: &Subscriber,
) -> Result<Option<usize>, Failure>
    requires ports { PassesSeries domain.old (as_publisher publisher.now) (as_subscriber subscriber.now) }
    ensures same { (domain.old.config).history_size ≡ 0 → waiting domain.old (as_subscriber subscriber.now) ≡ 0
        → IfOk result (λ length. IfSome length (λ it. it ≡ 3)) }
    ensures stays { Stays domain.old domain.new }
{
    send_copied(domain, publisher)?;
    receive_length(domain, subscriber)
}

// Sends a series that is copied into its loan.
fn send_copied(domain: &mut Domain<u64, ()>, publisher: &Publisher) -> Result<(), Failure>
    requires series { HasSeries domain.old }
    requires publisher { IsLivePublisher domain.old (as_publisher publisher.now) }
    ensures brings { (subscriber : SubscriberHandle) → (domain.old.config).history_size ≡ 0 → waiting domain.old subscriber ≡ 0
        → IfOk result (λ _. AreAllSlices (payloads domain.new subscriber) (18 ∷ 19 ∷ 20 ∷ [])) }
    ensures stays { Stays domain.old domain.new }
{
    let loan = publisher.loan_slice_uninit(domain, 3)?;
    let message = loan.write_from_slice(domain, &[18, 19, 20]);
    message.send(domain)?.delivered();
    Ok(())
}

// Receives a series, if one waits, and gives it back. Returns how many temperatures it had.
fn receive_length(
    domain: &mut Domain<u64, ()>,
    subscriber: &Subscriber,
) -> Result<Option<usize>, Failure>
    requires series { HasSeries domain.old }
    requires subscriber { IsLiveSubscriber domain.old (as_subscriber subscriber.now) }
    ensures waited { (values : List ℕ) → AreAllSlices (payloads domain.old (as_subscriber subscriber.now)) values
        → IfOk result (λ shown. IfSome shown (λ it. it ≡ length values)) }
    ensures stays { Stays domain.old domain.new }
{
    let Some(sample) = subscriber.receive(domain)? else {
        return Ok(None);
    };
    let length = sample.payload(domain).len();
    sample.release(domain);
    Ok(Some(length))
}
