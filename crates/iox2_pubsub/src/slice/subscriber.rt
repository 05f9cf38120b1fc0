//! A subscriber of slices.

mod close;
mod receives;
mod update_connections;

/// Receives the slices of every publisher of its domain. Must be consumed by `close`. It
/// is the subscriber of single values with other samples. All other calls are
/// those of that subscriber.
///
/// Example (`crates/thermometer/src/series.rt`):
///
/// ```rust
/// let Some(sample) = subscriber.receive(domain)? else {
///     return Ok(None);
/// };
/// let length = sample.payload(domain).len();
/// sample.release(domain);
/// Ok(Some(length))
/// ```
///
/// iceoryx2's `port::subscriber::Subscriber` of a slice (`src/port/subscriber.rs`).
pub struct Subscriber {
    pub(crate) subscriber: crate::Subscriber,
}
