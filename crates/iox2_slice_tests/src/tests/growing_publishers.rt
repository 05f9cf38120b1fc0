//! Publishers of slices whose memory grows.
ghost use Rattle.iox2_pubsub.specs.Slices.{IsSliced};
ghost use Rattle.iox2_machine.specs.declared.service_config.TypeVariant.TheVariants.{Dynamic};
ghost use Rattle.std.specs.Prelude.{◌≡◌};

use crate::tests::fixtures::{
    Bytes, byte_domain, found_slice, lend_defaults, lend_slice, receive_slice, send_slice,
    slice_factory, slice_subscriber,
};
use iox2_fixtures::{Numbers, holds_slices, is_slice_publisher_ready, is_sliced, smallest};
use iox2_machine::{AllocationStrategy, LoanError, ServiceConfig, TypeVariant};
use iox2_pubsub::Domain;
use iox2_pubsub::slice::{Publisher, Sample};
use std::alloc::Global;
use std::process::Abort;
use std::rc::Rc;

// A domain of slices, in which a publisher with one loan has three slots.
fn slices() -> ServiceConfig {
    ServiceConfig {
        variant: TypeVariant::Dynamic,
        ..smallest()
    }
}

// A publisher with one loan, whose first slots have room for one element.
fn growing(rt: &impl Abort, domain: &mut Numbers, strategy: AllocationStrategy) -> Publisher {
    let factory = slice_factory(domain)
        .max_loaned_samples(1)
        .allocation_strategy(strategy);
    factory.create(domain).expect(rt, "a publisher")
}

// Whether a loan of that length is granted, which is given back.
fn lends(
    rt: &impl Abort,
    domain: &mut Numbers,
    publisher: &Publisher,
    len: usize,
) -> Result<(), LoanError> {
    assert!(rt; is_sliced(domain));
    assert!(rt; is_slice_publisher_ready(domain, publisher));
    let loan = publisher.loan_slice_uninit(domain, len)?;
    assert!(rt; loan.payload(domain).len() == len);
    loan.discard(domain);
    Ok(())
}

// How many loans of rising length are granted, from 2 on. Each is given back.
fn granted_up_to(
    rt: &impl Abort,
    domain: &mut Numbers,
    publisher: &Publisher,
    longest: usize,
) -> Result<(), LoanError> {
    for len in 2..longest {
        lends(rt, domain, publisher, len)?;
    }
    lends(rt, domain, publisher, longest)
}

#[test]
fn at_most_255_segments_are_made(rt: HostRuntime) {
    for strategy in [AllocationStrategy::BestFit, AllocationStrategy::PowerOfTwo] {
        let mut domain: Numbers = Domain::new(rt.alloc(), slices()).expect(&rt, "a domain");
        let publisher = growing(&rt, &mut domain, strategy);
        let up_to_255 = granted_up_to(&rt, &mut domain, &publisher, 255);
        let next = lends(&rt, &mut domain, &publisher, 256);
        let last = lends(&rt, &mut domain, &publisher, 255);
        publisher.disown();
        drop(domain);
        let expected = match strategy {
            AllocationStrategy::BestFit => Err(LoanError::OutOfMemory),
            _ => Ok(()),
        };
        assert!(rt; up_to_255 == Ok(()));
        assert!(rt; next == expected);
        assert!(rt; last == Ok(()));
    }
}

// Whether the sample, which stays borrowed, reads one element of this value.
fn reads(rt: &impl Abort, domain: &Numbers, sample: Sample, value: u64) -> bool {
    assert!(rt; holds_slices(domain));
    let sample = found_slice(rt, domain, sample);
    let is_read = sample.payload(domain) == [value].as_slice();
    sample.disown();
    is_read
}

// A slice of one element is borrowed while its publisher sends a longer one, and isn't given the memory that
// it asks for then.
#[test]
fn a_sample_reads_on_when_its_publisher_has_grown(rt: HostRuntime) {
    for longer in [4, 37] {
        let mut domain: Numbers = Domain::new(rt.alloc(), slices()).expect(&rt, "a domain");
        let subscriber = slice_subscriber(&rt, &mut domain);
        let publisher = growing(&rt, &mut domain, AllocationStrategy::BestFit);
        let loan = lend_slice(&rt, &mut domain, &publisher, 1);
        let message = loan.write_from_fn(&mut domain, |_| 5);
        let first = send_slice(&rt, &mut domain, message);
        let sample = receive_slice(&rt, &mut domain, &subscriber);
        let message = lend_defaults(&rt, &mut domain, &publisher, longer);
        let second = send_slice(&rt, &mut domain, message);
        let is_read = reads(&rt, &domain, sample, 5);
        let too_long = lends(&rt, &mut domain, &publisher, usize::MAX);
        let next = lends(&rt, &mut domain, &publisher, longer);
        subscriber.disown();
        publisher.disown();
        drop(domain);
        assert!(rt; [first, second] == [1, 1]);
        assert!(rt; is_read);
        assert!(rt; too_long == Err(LoanError::InternalFailure));
        assert!(rt; next == Ok(()));
    }
}

// Asserts that messages are slices, of elements of any number of units.
fn assert_dynamic(rt: &impl Abort, domain: &Bytes)
    ensures sliced { IsSliced domain.now }
    ensures dynamic { (domain.now.config).variant ≡ Dynamic }
{
    let config = domain.config();
    assert!(rt; matches!(config.variant, TypeVariant::Dynamic));
    assert!(rt; config.lists_cells);
}

#[test]
fn bytes_of_elements_with_units_grow_too(rt: HostRuntime) {
    let mut domain = byte_domain(&rt, rt.alloc(), slices());
    let factory = slice_factory(&domain).allocation_strategy(AllocationStrategy::BestFit);
    let publisher = factory.create(&mut domain).expect(&rt, "a publisher");
    assert!(rt; is_slice_publisher_ready(&domain, &publisher));
    assert_dynamic(&rt, &domain);
    let loan = publisher
        .loan_custom_payload(&mut domain, 3)
        .expect(&rt, "a loan");
    assert_dynamic(&rt, &domain);
    let bytes = loan.payload(&domain).len();
    loan.disown();
    assert!(rt; is_slice_publisher_ready(&domain, &publisher));
    assert_dynamic(&rt, &domain);
    let unfit = publisher.loan_custom_payload(&mut domain, usize::MAX / 40);
    let unfit = unfit.map(|loan| loan.disown());
    publisher.disown();
    assert!(rt; bytes == 120);
    assert!(rt; unfit == Err(LoanError::InternalFailure));
}

// How many values are kept after loans of rising length, each below the end, were written and given back.
fn kept_below(rt: &impl Abort, alloc: Global, strategy: AllocationStrategy, end: usize) -> usize {
    let shared = Rc::new(alloc, 7_u8).expect(rt, "a value");
    let mut domain: Domain<Rc<u8>, u64> = Domain::new(alloc, slices()).expect(rt, "a domain");
    let factory = slice_factory(&domain)
        .max_loaned_samples(1)
        .allocation_strategy(strategy);
    let publisher = factory.create(&mut domain).expect(rt, "a publisher");
    for len in 2..end {
        assert!(rt; is_sliced(&domain));
        assert!(rt; is_slice_publisher_ready(&domain, &publisher));
        let loan = publisher
            .loan_slice_uninit(&mut domain, len)
            .expect(rt, "a loan");
        let message = loan.write_from_fn(&mut domain, |_| shared.clone().expect(rt, "a share"));
        message.discard(&mut domain);
    }
    let kept = Rc::strong_count(&shared);
    publisher.disown();
    kept
}

#[test]
fn what_lay_in_older_segments_is_dropped(rt: HostRuntime) {
    let best_fit = kept_below(&rt, rt.alloc(), AllocationStrategy::BestFit, 256);
    let powers = kept_below(&rt, rt.alloc(), AllocationStrategy::PowerOfTwo, 256);
    assert!(rt; best_fit == 256);
    assert!(rt; powers < 1024);
}
