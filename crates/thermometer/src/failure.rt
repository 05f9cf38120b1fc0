use iox2_pubsub::{
    ConnectionFailure, DomainCreateError, LoanError, PublisherCreateError, ReceiveError, SendError,
    SubscriberCreateError,
};
use std::io;
use thiserror::Error;

/// Why the program ends early.
#[derive(Debug, Drop, Error)]
pub enum Failure {
    /// There is no domain.
    #[error("no domain: {0}")]
    Domain(#[from] DomainCreateError),
    /// There is no publisher.
    #[error("no publisher: {0}")]
    Publisher(#[from] PublisherCreateError),
    /// There is no subscriber.
    #[error("no subscriber: {0}")]
    Subscriber(#[from] SubscriberCreateError),
    /// A port isn't connected.
    #[error("not connected: {0}")]
    Connection(#[from] ConnectionFailure),
    /// A message isn't lent.
    #[error("not lent: {0}")]
    Loan(#[from] LoanError),
    /// A message isn't sent.
    #[error("not sent: {0}")]
    Send(#[from] SendError),
    /// Nothing is received.
    #[error("nothing received: {0}")]
    Receive(#[from] ReceiveError),
    /// A line isn't printed.
    #[error("not printed: {0}")]
    Output(#[from] io::Error),
}
