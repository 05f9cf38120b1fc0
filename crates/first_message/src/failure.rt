use iox2_pubsub::{
    DomainCreateError, LoanError, PublisherCreateError, ReceiveError, SendError,
    SubscriberCreateError,
};
use std::io;

/// Why the program ends early.
#[derive(Debug, Drop)]
pub enum Failure {
    /// There is no domain.
    Domain(DomainCreateError),
    /// There is no publisher.
    Publisher(PublisherCreateError),
    /// There is no subscriber.
    Subscriber(SubscriberCreateError),
    /// The message isn't lent.
    Loan(LoanError),
    /// The message isn't sent.
    Send(SendError),
    /// Nothing is received.
    Receive(ReceiveError),
    /// The line isn't printed.
    Output(io::Error),
}

impl From<DomainCreateError> for Failure {
    fn from(error: DomainCreateError) -> Self {
        Failure::Domain(error)
    }
}

impl From<PublisherCreateError> for Failure {
    fn from(error: PublisherCreateError) -> Self {
        Failure::Publisher(error)
    }
}

impl From<SubscriberCreateError> for Failure {
    fn from(error: SubscriberCreateError) -> Self {
        Failure::Subscriber(error)
    }
}

impl From<LoanError> for Failure {
    fn from(error: LoanError) -> Self {
        Failure::Loan(error)
    }
}

impl From<SendError> for Failure {
    fn from(error: SendError) -> Self {
        Failure::Send(error)
    }
}

impl From<ReceiveError> for Failure {
    fn from(error: ReceiveError) -> Self {
        Failure::Receive(error)
    }
}

impl From<io::Error> for Failure {
    fn from(error: io::Error) -> Self {
        Failure::Output(error)
    }
}
