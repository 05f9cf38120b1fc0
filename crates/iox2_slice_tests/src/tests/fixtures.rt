//! What tests of slices start from, and the calls that they make. Those below the line test at run time
//! what they ask of their handles.

ghost use Rattle.std.specs.Prelude.{◌≡◌, List, Option, None, length};
ghost use Rattle.iox2_machine.specs.declared.degradation.DegradationAction.TheVariants.{Warn};
ghost use Rattle.iox2_machine.specs.machine.Records.{Fixed};
ghost use Rattle.iox2_pubsub.specs.Live.{IsLivePublisher, IsLiveSample, IsUnwritten, IsWritten, Stays};
ghost use Rattle.iox2_pubsub.specs.Slices.{HasUnwrittenCells, HoldsSlices, IsSliced};

use iox2_fixtures::{holds_slices, is_slice_publisher_ready, is_sliced, receiver_count};
use iox2_machine::{BackpressureStrategy, ServiceConfig};
use iox2_pubsub::{CustomHeaderMarker, CustomPayloadMarker, Domain, Slice, slice};
use std::alloc::Global;
use std::process::Abort;

/// A domain of a caller's own bytes.
pub(crate) type Bytes = Domain<CustomPayloadMarker, CustomHeaderMarker>;

/// A domain with these settings, of elements of 40 bytes each.
pub(crate) fn byte_domain(rt: &impl Abort, alloc: Global, settings: ServiceConfig) -> Bytes
    ensures { result.config ≡ record settings { units_per_element = 40 } }
{
    let config = ServiceConfig {
        units_per_element: 40,
        ..settings
    };
    Domain::new(alloc, config).expect(rt, "a domain")
}

/// A factory of publishers of slices that discard what a full subscriber doesn't take.
pub(crate) fn slice_factory<T: Drop, U: Default + Drop>(
    domain: &Domain<T, U>,
) -> slice::PortFactoryPublisher
    ensures strategy { result.settings.backpressure_strategy ≡ BackpressureStrategy.DiscardData }
    ensures handler { result.settings.backpressure_handler ≡ None }
    ensures degradation { result.settings.degradation_handler ≡ Fixed Warn }
{
    domain
        .slice_publisher_builder()
        .backpressure_strategy(BackpressureStrategy::DiscardData)
}

/// A publisher of slices as long as that, which discards what a full subscriber doesn't take.
pub(crate) fn slice_publisher<T: Drop, U: Default + Drop>(
    rt: &impl Abort,
    domain: &mut Domain<T, U>,
    longest: usize,
) -> slice::Publisher
    ensures publisher { IsLivePublisher domain.new result.publisher }
    ensures stays { Stays domain.old domain.new }
{
    let factory = slice_factory(domain).initial_max_slice_len(longest);
    factory.create(domain).expect(rt, "a publisher")
}

/// A subscriber to slices, with the largest buffer.
pub(crate) fn slice_subscriber<T: Drop, U: Default + Drop>(
    rt: &impl Abort,
    domain: &mut Domain<T, U>,
) -> slice::Subscriber
    ensures stays { Stays domain.old domain.new }
{
    let factory = domain.slice_subscriber_builder();
    factory.create(domain).expect(rt, "a subscriber")
}

// ---- what a call asks for is tested

/// An unwritten loan of a slice of that length.
pub(crate) fn lend_slice<T: Drop, U: Default + Drop>(
    rt: &impl Abort,
    domain: &mut Domain<T, U>,
    publisher: &slice::Publisher,
    len: usize,
) -> slice::SampleMutUninit
    ensures loan { IsUnwritten domain.new result.sample }
    ensures lengths { (cells : List (Option T)) → HasUnwrittenCells domain.new result.sample.loan.number cells → length cells ≡ len }
    ensures sliced { IsSliced domain.new }
{
    assert!(rt; is_sliced(domain));
    assert!(rt; is_slice_publisher_ready(domain, publisher));
    let loan = publisher.loan_slice_uninit(domain, len);
    loan.expect(rt, "a loan")
}

/// A loan of that many default values.
pub(crate) fn lend_defaults<T: Default + Drop, U: Default + Drop>(
    rt: &impl Abort,
    domain: &mut Domain<T, U>,
    publisher: &slice::Publisher,
    len: usize,
) -> slice::SampleMut
    ensures loan { IsWritten domain.new result.sample }
    ensures sliced { IsSliced domain.new }
{
    assert!(rt; is_sliced(domain));
    assert!(rt; is_slice_publisher_ready(domain, publisher));
    let loan = publisher.loan_slice(domain, len);
    loan.expect(rt, "a loan")
}

/// Sends a slice. Returns how many subscribers took it.
pub(crate) fn send_slice<T: Drop, U: Default + Drop>(
    rt: &impl Abort,
    domain: &mut Domain<T, U>,
    message: slice::SampleMut,
) -> usize
    requires { IsWritten domain.old message.sample }
{
    assert!(rt; !message.is_blocked(domain));
    let outcome = message.send(domain).expect(rt, "an outcome");
    receiver_count(outcome).expect(rt, "a send that isn't blocked")
}

/// Receives a slice, which waits.
pub(crate) fn receive_slice<T: Drop, U: Default + Drop>(
    rt: &impl Abort,
    domain: &mut Domain<T, U>,
    subscriber: &slice::Subscriber,
) -> slice::Sample
    ensures sample { IsLiveSample domain.new result }
    ensures holds { HoldsSlices domain.new }
{
    assert!(rt; holds_slices(domain));
    assert!(rt; subscriber.is_in(domain));
    let received = subscriber.receive(domain).expect(rt, "an answer");
    received.expect(rt, "a sample")
}

/// A handle of the sample that says where it lies.
pub(crate) fn found_slice<T: Drop, U: Default + Drop>(
    rt: &impl Abort,
    domain: &Domain<T, U>,
    sample: slice::Sample,
) -> slice::Sample
    ensures { IsLiveSample domain.now result }
{
    let found = domain.sample_of::<Slice>(&sample.into_parts());
    found.expect(rt, "a sample")
}

/// Gives a slice back.
pub(crate) fn release_slice<T: Drop, U: Default + Drop>(
    rt: &impl Abort,
    domain: &mut Domain<T, U>,
    sample: slice::Sample,
) {
    found_slice(rt, domain, sample).release(domain);
}
