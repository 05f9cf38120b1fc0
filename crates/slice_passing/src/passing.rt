ghost use Rattle.std.specs.Prelude.{◌≤◌, IfSome};
ghost use Rattle.iox2_pubsub.specs.Live.{IsLivePublisher, IsLiveSubscriber, Stays};
ghost use Rattle.slice_passing.specs.Slices.{PassesSlices};
ghost use Rattle.iox2_pubsub.specs.Handles.{as_publisher, as_subscriber};

use iox2_pubsub::slice::{Publisher, Subscriber};
use iox2_pubsub::{BackpressureStrategy, Domain, ServiceConfig, TypeVariant};
use std::alloc::Global;

/// The calls by which a bench passes one slice of these elements.
pub trait Steps<T: Drop> {
    /// Sends one slice of that many elements. `None` where it isn't lent or sent.
    fn pass(domain: &mut Domain<T, ()>, publisher: &Publisher, elements: usize) -> Option<()>
        requires slices { PassesSlices domain.old }
        requires publisher { IsLivePublisher domain.old (as_publisher publisher.now) }
        ensures { Stays domain.old domain.new };

    /// Receives a slice, and gives it back. Returns how many elements it had.
    fn take(domain: &mut Domain<T, ()>, subscriber: &Subscriber) -> Option<usize>
        requires slices { PassesSlices domain.old }
        requires subscriber { IsLiveSubscriber domain.old (as_subscriber subscriber.now) }
        ensures { Stays domain.old domain.new };
}

/// Passes that many slices, each of that many elements, one after the other. Returns how many of them
/// the subscriber received with the length that they were lent with. `None` where a port is refused.
pub fn pass_slices<T: Drop, S: Steps<T>>(
    alloc: Global,
    elements: usize,
    messages: u64,
) -> Option<u64>
    ensures { IfSome result (λ arrived. arrived ≤ messages) }
{
    let config = ServiceConfig {
        variant: TypeVariant::Dynamic,
        ..ServiceConfig::new(1)
    };
    let mut domain = Domain::<T, ()>::new(alloc, config).ok()?;
    let subscriber = domain.slice_subscriber_builder().create(&mut domain).ok()?;
    let arrived = pass_to::<T, S>(&mut domain, &subscriber, elements, messages);
    subscriber.disown();
    arrived
}

// Makes the publisher, and passes the slices. `None` where it is refused.
fn pass_to<T: Drop, S: Steps<T>>(
    domain: &mut Domain<T, ()>,
    subscriber: &Subscriber,
    elements: usize,
    messages: u64,
) -> Option<u64>
    requires slices { PassesSlices domain.old }
    requires subscriber { IsLiveSubscriber domain.old (as_subscriber subscriber.now) }
    ensures { IfSome result (λ arrived. arrived ≤ messages) }
{
    let publisher = domain
        .slice_publisher_builder()
        .backpressure_strategy(BackpressureStrategy::DiscardData)
        .initial_max_slice_len(elements)
        .create(domain)
        .ok()?;
    let arrived = pass_all::<T, S>(domain, &publisher, subscriber, elements, messages);
    publisher.disown();
    Some(arrived)
}

// Passes the slices, one after the other. Returns how many arrived with their length.
fn pass_all<T: Drop, S: Steps<T>>(
    domain: &mut Domain<T, ()>,
    publisher: &Publisher,
    subscriber: &Subscriber,
    elements: usize,
    messages: u64,
) -> u64
    requires slices { PassesSlices domain.old }
    requires publisher { IsLivePublisher domain.old (as_publisher publisher.now) }
    requires subscriber { IsLiveSubscriber domain.old (as_subscriber subscriber.now) }
    ensures { result ≤ messages }
{
    let mut arrived = 0;
    for passed in 0..messages {
        let is_sent = S::pass(domain, publisher, elements).is_some();
        if is_sent && S::take(domain, subscriber) == Some(elements) {
            arrived += 1;
        }
    }
    arrived
}
