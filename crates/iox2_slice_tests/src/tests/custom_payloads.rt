//! Messages of a caller's own bytes.
ghost use Rattle.std.specs.Prelude.{◌≡◌, true};
ghost use Rattle.iox2_machine.specs.declared.service_config.TypeVariant.TheVariants.{Dynamic};
ghost use Rattle.iox2_pubsub.specs.Slices.{IsSliced};

use crate::tests::fixtures::{send_slice, slice_publisher, slice_subscriber};
use iox2_fixtures::slices;
use iox2_machine::{LoanError, ServiceConfig, TypeVariant};
use iox2_pubsub::{CustomHeaderMarker, CustomPayloadMarker, Domain};
use std::process::Abort;

// The settings of a domain of elements of 40 bytes each.
fn bytes() -> ServiceConfig
    ensures variant { result.variant ≡ Dynamic }
    ensures lists_cells { result.lists_cells ≡ true }
{
    ServiceConfig {
        units_per_element: 40,
        ..slices()
    }
}

#[test]
fn an_element_has_many_bytes(rt: HostRuntime) {
    let mut domain: Domain<CustomPayloadMarker, CustomHeaderMarker> = Domain::new(
        rt.alloc(),
        bytes(),
    ).expect(&rt, "a domain");
    let subscriber = slice_subscriber(&rt, &mut domain);
    let publisher = slice_publisher(&rt, &mut domain, 3);
    let longer = publisher.loan_custom_payload(&mut domain, 4);
    let longer = longer.map(|loan| loan.disown());
    let loan = publisher.loan_custom_payload(&mut domain, 3);
    let loan = loan.expect(&rt, "a loan");
    publisher.disown();
    let cells = loan.payload(&domain).len();
    let elements = loan.header(&domain).number_of_elements();
    let message = loan.write_from_fn(&mut domain, |index| CustomPayloadMarker(low_byte(index)));
    let takers = send_slice(&rt, &mut domain, message);
    assert!(rt; subscriber.is_in(&domain));
    let received = subscriber.receive_custom_payload(&mut domain);
    let sample = received.expect(&rt, "an answer").expect(&rt, "a sample");
    assert_dynamic(&rt, &domain);
    subscriber.disown();
    let read = sample.payload(&domain);
    let ends = [
        read.first().map(|byte| byte.0),
        read.last().map(|byte| byte.0),
    ];
    let bytes = read.len();
    sample.disown();
    drop(domain);
    assert!(rt; longer == Err(LoanError::ExceedsMaxLoanSize));
    assert!(rt; cells == 120);
    assert!(rt; elements == 3);
    assert!(rt; takers == 1);
    assert!(rt; ends == [Some(0), Some(119)]);
    assert!(rt; bytes == 120);
}

// Asserts that messages are slices.
fn assert_dynamic(rt: &impl Abort, domain: &Domain<CustomPayloadMarker, CustomHeaderMarker>)
    ensures { IsSliced domain.now }
{
    let config = domain.config();
    assert!(rt; matches!(config.variant, TypeVariant::Dynamic));
    assert!(rt; config.lists_cells);
}

// The lowest byte of the number.
fn low_byte(number: usize) -> u8 {
    (number % 256) as u8
}
