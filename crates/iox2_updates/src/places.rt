//! The places of two ports between which a connection is.

/// A publisher's place and a subscriber's: those of the two ports of a connection.
#[derive(Clone, Copy)]
pub(crate) struct Places {
    pub publisher: usize,
    pub subscriber: usize,
}
