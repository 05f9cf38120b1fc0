use iox2_pubsub::{ReceiveError, SendError};
use iox2_request_response::{ClientCreateError, RequestSendError, ServerCreateError};
use thiserror::Error;

/// Why a function of this crate ends early.
#[derive(Debug, Drop, Error)]
pub enum Failure {
    /// There is no client.
    #[error("no client: {0:?}")]
    Client(#[from] ClientCreateError),
    /// There is no server.
    #[error("no server: {0:?}")]
    Server(#[from] ServerCreateError),
    /// A question isn't sent.
    #[error("a question isn't sent: {0:?}")]
    Question(#[from] RequestSendError),
    /// An answer isn't sent.
    #[error("an answer isn't sent: {0:?}")]
    Answer(#[from] SendError),
    /// Nothing is received.
    #[error("nothing received: {0:?}")]
    Receive(#[from] ReceiveError),
}
