//! What tests of `iox2_pubsub` and of runs start from. Only crates of tests use it.
#![tactic(auto)]

ghost use Rattle.std.specs.Prelude.{◌≡◌, IsTrue, None, false};
ghost use Rattle.iox2_machine.specs.Defaults.{default_config};
ghost use Rattle.iox2_machine.specs.declared.degradation.DegradationAction.TheVariants.{Warn};
ghost use Rattle.iox2_machine.specs.machine.Records.{Fixed};
ghost use Rattle.iox2_machine.specs.declared.service_config.TypeVariant.TheVariants.{Dynamic};
ghost use Rattle.iox2_pubsub.specs.Live.{IsLivePublisher, IsLiveSubscriber, IsReadyPublisher, IsSingleValued, Stays};
ghost use Rattle.iox2_pubsub.specs.Slices.{HoldsSlices, IsSliced};

use iox2_machine::{BackpressureStrategy, Key, ReceiveError, ServiceConfig, TypeVariant};
use iox2_pubsub::{Domain, PortFactoryPublisher, Publisher, SendOutcome, Subscriber, slice};
use std::io;
use std::time::{CpuClock, Duration};

/// A payload that is neither `Copy` nor `Clone`.
#[derive(Drop)]
pub struct Reading {
    /// The temperature.
    pub celsius: u64,
}

/// A user header that is neither `Copy` nor `Clone`.
#[derive(Default, Drop)]
pub struct Station {
    /// Which station it is.
    pub number: u32,
}

/// A domain of readings.
pub type Weather = Domain<Reading, Station>;

/// A domain of numbers, whose user headers are numbers too.
pub type Numbers = Domain<u64, u64>;

/// A payload whose default value takes a while to make, for calls that are to make none: a value
/// that is made and thrown away shows in the processor's time alone.
#[derive(Drop)]
pub struct Costly {
    /// What comes out in the end.
    pub number: u64,
}

impl Default for Costly {
    #[inline(never)]
    fn default() -> Self {
        let mut number = 1u64;
        for step in 0..200_000_000u64 {
            number = number.wrapping_mul(6364136223846793005).wrapping_add(step);
        }
        Costly { number }
    }
}

/// The value that one `Costly` ends with, and the processor's time in microseconds that it took to
/// make.
///
/// Fails where the clock can't be read.
pub fn costly_time(clock: &impl CpuClock) -> io::Result<(u64, u128)> {
    let begun = clock.thread_cpu_time()?;
    let made = Costly::default();
    Ok((made.number, micros_since(clock, begun)?))
}

/// The processor's time in microseconds since `thread_cpu_time` gave `begun`.
///
/// Fails where the clock can't be read.
pub fn micros_since(clock: &impl CpuClock, begun: Duration) -> io::Result<u128> {
    Ok(clock.thread_cpu_time()?.saturating_sub(begun).as_micros())
}

/// One publisher and one subscriber, without overflow.
pub fn settings() -> ServiceConfig
    ensures { result ≡ record (default_config 7) { node_id = 3; max_publishers = 1; max_subscribers = 1; enable_safe_overflow = false } }
{
    ServiceConfig {
        node_id: 3,
        max_publishers: 1,
        max_subscribers: 1,
        enable_safe_overflow: false,
        ..ServiceConfig::new(7)
    }
}

/// The same, with a buffer of one message. The subscriber may borrow one message.
pub fn smallest() -> ServiceConfig
    ensures { result ≡ record (default_config 7) {
      node_id = 3;
      max_publishers = 1;
      max_subscribers = 1;
      subscriber_max_buffer_size = 1;
      subscriber_max_borrowed_samples = 1;
      enable_safe_overflow = false;
    } }
{
    ServiceConfig {
        subscriber_max_buffer_size: 1,
        subscriber_max_borrowed_samples: 1,
        ..settings()
    }
}

/// The same as `settings`, with messages that are slices.
pub fn slices() -> ServiceConfig
    ensures { result ≡ record (default_config 7) { variant = Dynamic; node_id = 3; max_publishers = 1; max_subscribers = 1; enable_safe_overflow = false } }
{
    ServiceConfig {
        variant: TypeVariant::Dynamic,
        ..settings()
    }
}

/// The same key in another service.
pub fn elsewhere(key: Key) -> Key {
    Key {
        service_id: 8,
        ..key
    }
}

/// A factory of publishers that discard what a full subscriber doesn't take.
pub fn factory_for<T: Drop, U: Default + Drop>(domain: &Domain<T, U>) -> PortFactoryPublisher
    ensures strategy { result.settings.backpressure_strategy ≡ BackpressureStrategy.DiscardData }
    ensures handler { result.settings.backpressure_handler ≡ None }
    ensures degradation { result.settings.degradation_handler ≡ Fixed Warn }
{
    domain
        .publisher_builder()
        .backpressure_strategy(BackpressureStrategy::DiscardData)
}

/// Lends, writes and sends a message, and returns how many subscribers took it. `None` where the
/// publisher may not lend.
pub fn publish(domain: &mut Weather, publisher: &Publisher, celsius: u64) -> Option<usize>
    requires single_valued { IsSingleValued domain.old }
    requires publisher { IsLivePublisher domain.old publisher.now }
    ensures { Stays domain.old domain.new }
{
    let loan = publisher.loan_uninit(domain).ok()?;
    let message = loan.write_payload(domain, Reading { celsius });
    Some(message.send(domain).ok()?.delivered())
}

/// Reads and releases what the subscriber receives next. `None` where no message waits.
///
/// Fails where the receive does.
pub fn next_reading(
    domain: &mut Weather,
    subscriber: &Subscriber,
) -> Result<Option<u64>, ReceiveError>
    requires single_valued { IsSingleValued domain.old }
    requires live { IsLiveSubscriber domain.old subscriber.now }
    ensures { Stays domain.old domain.new }
{
    let Some(sample) = subscriber.receive(domain)? else {
        return Ok(None);
    };
    let celsius = sample.payload(domain).celsius;
    sample.release(domain);
    Ok(Some(celsius))
}

/// How many subscribers took a message. `None` where its send is blocked.
pub fn receiver_count(outcome: SendOutcome) -> Option<usize> {
    match outcome {
        SendOutcome::Delivered(count) => Some(count),
        SendOutcome::Blocked(blocked) => {
            blocked.disown();
            None
        }
    }
}

/// Whether messages are single values of one unit.
pub fn is_single_valued<T: Drop, U: Default + Drop>(domain: &Domain<T, U>) -> bool
    ensures { IsTrue result → IsSingleValued domain.now }
{
    let config = domain.config();
    matches!(config.variant, TypeVariant::FixedSize) && config.units_per_element == 1
}

/// Whether the publisher is one of the domain's, and has no blocked send.
pub fn is_ready<T: Drop, U: Default + Drop>(domain: &Domain<T, U>, publisher: &Publisher) -> bool
    ensures { IsTrue result → IsReadyPublisher domain.now publisher.now }
{
    publisher.is_in(domain) && !publisher.is_blocked(domain)
}

/// The same of a publisher of slices.
pub fn is_slice_publisher_ready<T: Drop, U: Default + Drop>(
    domain: &Domain<T, U>,
    publisher: &slice::Publisher,
) -> bool
    ensures { IsTrue result → IsReadyPublisher domain.now publisher.now.publisher }
{
    publisher.is_in(domain) && !publisher.is_blocked(domain)
}

/// Closes the publisher, if it is one of the domain's and has no blocked send. Returns whether it was.
pub fn close_publisher<T: Drop, U: Default + Drop>(
    domain: &mut Domain<T, U>,
    publisher: Publisher,
) -> bool {
    let can_close = is_ready(domain, &publisher);
    if can_close {
        publisher.close(domain);
    } else {
        publisher.disown();
    }
    can_close
}

/// Closes the subscriber, if it is one of the domain's. Returns whether it was.
pub fn close_subscriber<T: Drop, U: Default + Drop>(
    domain: &mut Domain<T, U>,
    subscriber: Subscriber,
) -> bool {
    let can_close = subscriber.is_in(domain);
    if can_close {
        subscriber.close(domain);
    } else {
        subscriber.disown();
    }
    can_close
}

/// Whether messages are slices of elements of one unit.
pub fn holds_slices<T: Drop, U: Default + Drop>(domain: &Domain<T, U>) -> bool
    ensures holds { IsTrue result → HoldsSlices domain.now }
    ensures dynamic { IsTrue result → (domain.now.config).variant ≡ Dynamic }
    ensures one_unit { IsTrue result → (domain.now.config).units_per_element ≡ 1 }
{
    let config = domain.config();
    matches!(config.variant, TypeVariant::Dynamic) && config.units_per_element == 1
}

/// Whether they are, and the domain hands out cells.
pub fn is_sliced<T: Drop, U: Default + Drop>(domain: &Domain<T, U>) -> bool
    ensures sliced { IsTrue result → IsSliced domain.now }
    ensures dynamic { IsTrue result → (domain.now.config).variant ≡ Dynamic }
    ensures one_unit { IsTrue result → (domain.now.config).units_per_element ≡ 1 }
{
    holds_slices(domain) && domain.config().lists_cells
}
