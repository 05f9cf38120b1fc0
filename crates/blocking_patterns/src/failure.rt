use iox2_pubsub::{
    ConnectionFailure, DomainCreateError, PublisherCreateError, SubscriberCreateError,
};
use message_patterns::Failure as PatternFailure;
use std::io;
use thiserror::Error;

/// Why the program ends early.
#[derive(Debug, Drop, Error)]
pub enum Failure {
    /// There is no domain.
    #[error("no domain: {0}")]
    Domain(#[from] DomainCreateError),
    /// There is no subscriber.
    #[error("no subscriber: {0}")]
    Subscriber(#[from] SubscriberCreateError),
    /// There is no publisher.
    #[error("no publisher: {0}")]
    Publisher(#[from] PublisherCreateError),
    /// A publisher was refused memory for a connection.
    #[error("a publisher isn't connected")]
    Unconnected,
    /// A subscriber's connections aren't updated.
    #[error("no update: {0}")]
    Update(#[from] ConnectionFailure),
    /// Messages wait before any was sent, or a buffer takes too few.
    #[error("the ports aren't idle")]
    Busy,
    /// A relay, a vote or a queue ends early.
    #[error("no pattern: {0:?}")]
    Pattern(#[from] PatternFailure),
    /// A line isn't printed.
    #[error("a line isn't printed: {0}")]
    Output(#[from] io::Error),
}
