//! Of what a handle's messages are.

/// A handle of messages that are single values each.
///
/// Example (`crates/iox2_tests/src/tests/parts.rt`):
///
/// ```rust
/// domain
///     .sample_of::<Value>(parts)
/// ```
///
/// This library's own, where iceoryx2's handles have the type of the payload.
pub struct Value;

/// A handle of messages that are slices.
///
/// Example (`crates/iox2_pubsub/src/slice/sample.rt`):
///
/// ```rust
/// pub type Sample = sample::Sample<Slice>;
/// ```
///
/// This library's own, where iceoryx2's handles have the type of the payload.
pub struct Slice;
