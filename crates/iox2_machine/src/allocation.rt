//! How the memory for a publisher's messages is laid out and grows.

/// How a publisher's memory grows when a loan finds no room.
///
/// Example (`crates/refused_rows/src/growth.rt`):
///
/// ```rust
/// domain
///     .slice_publisher_builder()
///     .max_loaned_samples(1)
///     .allocation_strategy(strategy)
///     .backpressure_strategy(BackpressureStrategy::DiscardData)
///     .create(domain)
/// ```
///
/// iceoryx2's `iceoryx2_cal::shm_allocator::AllocationStrategy`.
#[derive(Debug, Clone, Copy, PartialEq, Eq)]
pub enum AllocationStrategy {
    /// It doesn't grow. A loan that finds no room is refused: with `LoanError::OutOfMemory` if no
    /// slot is free, and with `ExceedsMaxLoanSize` if it is longer than its factory's
    /// `initial_max_slice_len`.
    Static,
    /// It grows by a segment with as many slots as the first. Each slot has room for slices of the
    /// length that is asked for, or of the length that fits so far if that is longer. Lengths count
    /// elements. There are at most 255 segments, the first included: a loan that needs one more is
    /// refused with `LoanError::OutOfMemory`.
    BestFit,
    /// As `BestFit`, with that length rounded up to a power of two.
    PowerOfTwo,
}

/// Whether a publisher's memory can grow. No call takes or returns one: the publisher's
/// `AllocationStrategy` decides it.
///
/// Example (`crates/iox2_machine_tests/src/tests/plain_types.rt`):
///
/// ```rust
/// match strategy {
///     AllocationStrategy::Static => DataSegmentType::Static,
///     AllocationStrategy::BestFit | AllocationStrategy::PowerOfTwo => DataSegmentType::Dynamic,
/// }
/// ```
///
/// iceoryx2's `DataSegmentType` (`src/port/details/data_segment.rs`).
#[derive(Debug, Clone, Copy, PartialEq, Eq)]
pub enum DataSegmentType {
    /// It grows when a loan finds no room.
    Dynamic,
    /// It is allocated once.
    Static,
}
