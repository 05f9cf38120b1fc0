//! Why calls fail.

use iox2_pubsub::{
    ConnectionFailure, LoanError, PublisherCreateError, SendError, SubscriberCreateError,
};
use std::alloc::AllocError;

/// Why a request isn't sent.
///
/// iceoryx2's `RequestSendError` (`src/port/client.rs`).
#[derive(Debug, Clone, Copy, PartialEq, Eq, Drop)]
pub enum RequestSendError {
    /// As many requests of the client wait for responses as may.
    ExceedsMaxActiveRequests,
    /// No number is left for a request. This library's own.
    NoNumberLeft,
    /// The send failed.
    SendError(SendError),
}

impl From<SendError> for RequestSendError {
    ghost use Rattle.std.specs.Prelude.{◌≡◌};
    ghost use Rattle.iox2_request_response.specs.declared.errors.RequestSendError.TheVariants.{SendError as Unsent};

    ghost from_gives = { λ cause error. error ≡ Unsent cause };

    fn from(error: SendError) -> Self {
        RequestSendError::SendError(error)
    }
}

impl From<LoanError> for RequestSendError {
    ghost use Rattle.std.specs.Prelude.{◌≡◌};
    ghost use Rattle.iox2_machine.specs.declared.errors.SendError.TheVariants.{LoanError as Unlent};
    ghost use Rattle.iox2_request_response.specs.declared.errors.RequestSendError.TheVariants.{SendError as Unsent};

    ghost from_gives = { λ cause error. error ≡ Unsent (Unlent cause) };

    fn from(error: LoanError) -> Self {
        RequestSendError::SendError(SendError::LoanError(error))
    }
}

impl From<ConnectionFailure> for RequestSendError {
    ghost use Rattle.std.specs.Prelude.{◌≡◌};
    ghost use Rattle.iox2_machine.specs.declared.errors.SendError.TheVariants.{ConnectionError as Unconnected};
    ghost use Rattle.iox2_request_response.specs.declared.errors.RequestSendError.TheVariants.{SendError as Unsent};

    ghost from_gives = { λ cause error. error ≡ Unsent (Unconnected cause) };

    fn from(error: ConnectionFailure) -> Self {
        RequestSendError::SendError(SendError::ConnectionError(error))
    }
}

/// Why no client is made.
#[derive(Debug, Clone, Copy, PartialEq, Eq, Drop)]
pub enum ClientCreateError {
    /// There is no memory for its list of ports.
    OutOfMemory,
    /// Its publisher of requests isn't made.
    Requests(PublisherCreateError),
    /// One of its subscribers of responses isn't made.
    Responses(SubscriberCreateError),
}

impl From<AllocError> for ClientCreateError {
    fn from(_: AllocError) -> Self {
        ClientCreateError::OutOfMemory
    }
}

/// Why no server is made.
#[derive(Debug, Clone, Copy, PartialEq, Eq, Drop)]
pub enum ServerCreateError {
    /// Its subscriber of requests isn't made.
    Requests(SubscriberCreateError),
    /// Its publisher of responses isn't made.
    Responses(PublisherCreateError),
}
