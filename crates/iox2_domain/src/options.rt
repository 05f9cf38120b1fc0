//! What a port is made with.

use crate::handlers::HandlerMark;
use iox2_machine::{BackpressureStrategy, DegradationAction};

/// What a publisher is made with, beside the handler that answers for it at a full buffer.
#[derive(Clone, Copy)]
pub struct PublisherOptions {
    /// How many loans may be out at a time.
    pub max_loaned_samples: usize,
    /// What it does at a full buffer if no handler answers.
    pub strategy: BackpressureStrategy,
    /// What answers for it when it can't make a connection.
    pub degradation: HandlerMark<DegradationAction>,
    /// How many elements a loan may have.
    pub initial_max_slice_len: usize,
}

/// What a subscriber is made with.
#[derive(Clone, Copy)]
pub struct SubscriberOptions {
    /// How many messages of one publisher may wait. Here 0 counts as 1.
    pub buffer_size: usize,
    /// What answers for it when it can't make a connection.
    pub degradation: HandlerMark<DegradationAction>,
}
