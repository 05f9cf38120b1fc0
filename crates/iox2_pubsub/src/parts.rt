//! Handles as plain numbers, for callers without move semantics, such as C.
//!
//! The numbers of a handle may be copied, kept and made up. A domain makes a handle of them again
//! where they name something that is live in it, and else none, so that no call needs a caller's
//! word for it. A handle of a slice is one of a single value wrapped in `slice::` (`new` and
//! `into_inner`), and has that one's numbers.

mod at_hint;
pub(crate) mod hints;
mod loans;
mod ports;
mod sample;

use iox2_machine::BackpressureStrategy;

/// The numbers of a publisher. This library's own.
///
/// Example (`crates/iox2_tests/src/tests/parts.rt`):
///
/// ```rust
/// let publisher = domain.publisher_of(parts).expect(rt, "a publisher");
/// assert!(rt; !publisher.is_blocked(domain));
/// publisher.close(domain);
/// ```
#[derive(Debug, Clone, Copy, PartialEq, Eq)]
pub struct PublisherParts {
    /// The number of the service.
    pub service_id: u128,
    /// The publisher's id.
    pub id: u128,
    /// Where the domain looks for it first.
    pub place: usize,
    /// What its handle answers for its strategy. Nothing is decided by it.
    pub strategy: BackpressureStrategy,
    /// What its handle answers for its longest loan. Nothing is decided by it.
    pub initial_max_slice_len: usize,
}

/// The numbers of a subscriber. This library's own.
///
/// Example (`crates/iox2_tests/src/tests/parts.rt`):
///
/// ```rust
/// let subscriber = domain.subscriber_of(&again).expect(&rt, "a subscriber");
/// subscriber.close(&mut domain);
/// ```
#[derive(Debug, Clone, Copy, PartialEq, Eq)]
pub struct SubscriberParts {
    /// The number of the service.
    pub service_id: u128,
    /// The subscriber's id.
    pub id: u128,
    /// Where the domain looks for it first.
    pub place: usize,
    /// What its handle answers for its buffer. Nothing is decided by it.
    pub buffer_size: usize,
}

/// The numbers of a loan, written or not, or of a blocked send. This library's own.
///
/// Example (`crates/kept_cost/src/passing.rt`):
///
/// ```rust
/// let Some(loan) = domain.unwritten_of(&oldest) else {
///     return;
/// };
/// let message = loan.write_payload(domain, value);
/// ```
#[derive(Debug, Clone, Copy, PartialEq, Eq)]
pub struct LoanParts {
    /// The number of the service.
    pub service_id: u128,
    /// The id of the publisher that lent it.
    pub publisher: u128,
    /// The number of its message.
    pub number: u128,
    /// Where its publisher is looked for first.
    pub place: usize,
    /// The key of the book in which it is looked for first.
    pub book: usize,
    /// The slot in which it is looked for first.
    pub slot: usize,
}

/// The numbers of a sample. This library's own.
///
/// Example (`crates/kept_cost/src/passing.rt`):
///
/// ```rust
/// Some(subscriber.receive(domain).ok()??.into_parts())
/// ```
#[derive(Debug, Clone, Copy, PartialEq, Eq)]
pub struct SampleParts {
    /// The number of the service.
    pub service_id: u128,
    /// The id of the publisher that sent the message. Nothing is looked up by it.
    pub origin: u128,
    /// The id of the subscriber that has borrowed it.
    pub subscriber: u128,
    /// The message's number.
    pub number: u128,
    /// The key of the connection in which it is looked for first.
    pub connection: usize,
    /// The key of the book in which it is looked for first.
    pub book: usize,
    /// The slot in which it is looked for first.
    pub slot: usize,
}
