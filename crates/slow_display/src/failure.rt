use iox2_pubsub::{
    DomainCreateError, PublisherCreateError, ReceiveError, SendError, SubscriberCreateError,
};
use std::alloc::AllocError;
use std::io;
use thiserror::Error;

/// Why the program ends early.
#[derive(Debug, Drop, Error)]
pub enum Failure {
    /// There is no memory for a handler.
    #[error("no memory for a handler")]
    Memory(#[from(alloc)] AllocError),
    /// There is no domain.
    #[error("no domain: {0}")]
    Domain(#[from] DomainCreateError),
    /// There is no subscriber.
    #[error("no subscriber: {0}")]
    Subscriber(#[from] SubscriberCreateError),
    /// There is no publisher.
    #[error("no publisher: {0}")]
    Publisher(#[from] PublisherCreateError),
    /// A reading isn't sent.
    #[error("a reading isn't sent: {0}")]
    Send(#[from] SendError),
    /// Nothing is received.
    #[error("no reading received: {0}")]
    Receive(#[from] ReceiveError),
    /// A line isn't printed.
    #[error("a line isn't printed: {0}")]
    Output(#[from] io::Error),
}
