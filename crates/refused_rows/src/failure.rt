//! Why a row ends early.
use command_line::Failing;
use iox2_pubsub::{
    DomainCreateError, LoanError, PublisherCreateError, ReceiveError, SendError,
    SubscriberCreateError,
};
use std::alloc::AllocError;
use std::io;
use thiserror::Error;

/// Why a row isn't carried out, or not to its end.
#[derive(Debug, Drop, Error)]
pub(crate) enum Failure {
    /// The arguments can't be read, or a line can't be printed.
    #[error("arguments or output failed")]
    InputOutput(#[from] io::Error),
    /// The arguments name no row or no answer.
    #[error("usage: refused_rows later_subscriber|later_publisher ANSWER, or growing_publisher STRATEGY")]
    Usage,
    /// A call gives nothing.
    #[error("a call gave nothing")]
    Refused,
    /// Memory for the arguments is refused.
    #[error("out of memory")]
    OutOfMemory(#[from(alloc)] AllocError),
    /// There is no domain.
    #[error("no domain: {0}")]
    Domain(#[from] DomainCreateError),
    /// There is no publisher.
    #[error("a call failed: {0}")]
    Publisher(#[from] PublisherCreateError),
    /// There is no subscriber.
    #[error("a call failed: {0}")]
    Subscriber(#[from] SubscriberCreateError),
    /// A message isn't lent.
    #[error("a call failed: {0}")]
    Loan(#[from] LoanError),
    /// A message isn't sent.
    #[error("a call failed: {0}")]
    Send(#[from] SendError),
    /// Nothing is received.
    #[error("a call failed: {0}")]
    Receive(#[from] ReceiveError),
}

impl Failing for Failure {
    fn status(&self) -> u8 {
        match self {
            Failure::Usage => 2,
            Failure::OutOfMemory(_) | Failure::Domain(_) => 3,
            Failure::InputOutput(_) => 4,
            _ => 1,
        }
    }
}
