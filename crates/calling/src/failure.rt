use iox2_pubsub::{
    ConnectionFailure, PublisherCreateError, ReceiveError, SendError, SubscriberCreateError,
};
use thiserror::Error;

/// Why a function of this crate ends early.
#[derive(Debug, Drop, Error)]
pub enum Failure {
    /// There is no subscriber.
    #[error("no subscriber: {0}")]
    Subscriber(#[from] SubscriberCreateError),
    /// There is no publisher.
    #[error("no publisher: {0}")]
    Publisher(#[from] PublisherCreateError),
    /// A port's connections aren't updated.
    #[error("not connected: {0}")]
    Update(#[from] ConnectionFailure),
    /// Nothing is received.
    #[error("no reading received: {0}")]
    Receive(#[from] ReceiveError),
    /// A reading isn't sent.
    #[error("a reading isn't sent: {0}")]
    Send(#[from] SendError),
}
