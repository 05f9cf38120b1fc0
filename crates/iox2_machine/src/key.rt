/// Names a port, loan, sample or blocked send without being its handle. With it a domain says
/// whether that is still live: `holds_publisher`, `holds_subscriber`, `holds_loan`, `holds_sample`
/// and `holds_blocked` take one.
///
/// Example (`crates/iox2_tests/src/tests/samples.rt`):
///
/// ```rust
/// let key = sample.key();
/// let before = domain.holds_sample(key);
/// release(&rt, &mut domain, sample);
/// let after = domain.holds_sample(key);
/// assert!(rt; [before, after] == [true, false]);
/// ```
///
/// This library's own.
#[derive(Debug, Clone, Copy, PartialEq, Eq)]
pub struct Key {
    /// The number of the service.
    pub service_id: u128,
    /// The port's id. For a loan or a blocked send it is the publisher's, for a sample the
    /// subscriber's.
    pub port: u128,
    /// The message's number, and 0 for a port.
    pub message: u128,
}
