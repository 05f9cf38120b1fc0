//! The types of custom bytes.

/// A byte of a payload of custom bytes. Each element has as many as the domain's settings say
/// (`units_per_element`).
///
/// Example (`crates/iox2_slice_tests/src/tests/custom_payloads.rt`):
///
/// ```rust
/// let loan = publisher.loan_custom_payload(&mut domain, 3);
/// let loan = loan.expect(&rt, "a loan");
/// publisher.disown();
/// let cells = loan.payload(&domain).len();
/// let elements = loan.header(&domain).number_of_elements();
/// let message = loan.write_from_fn(&mut domain, |index| CustomPayloadMarker(low_byte(index)));
/// ```
///
/// iceoryx2's `CustomPayloadMarker` (`src/service/builder`).
#[derive(Debug, Clone, Copy, PartialEq, Eq, Default)]
pub struct CustomPayloadMarker(pub u8);

/// The user header of messages of custom bytes.
///
/// Example (`crates/iox2_slice_tests/src/tests/custom_payloads.rt`):
///
/// ```rust
/// let mut domain: Domain<CustomPayloadMarker, CustomHeaderMarker> = Domain::new(
///     rt.alloc(),
///     bytes(),
/// ).expect(&rt, "a domain");
/// ```
///
/// iceoryx2's `CustomHeaderMarker` (`src/service/builder`).
#[derive(Debug, Clone, Copy, PartialEq, Eq, Default)]
pub struct CustomHeaderMarker;
