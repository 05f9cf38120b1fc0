//! What a call returns.
ghost use Rattle.std.specs.Prelude.{◌≡◌, ◌<◌, ◌+◌};
ghost use Rattle.iox2_c.specs.Codes.{failure_code, failure_index, loan_code, publisher_code, receive_code, send_code, subscriber_code};

use iox2_pubsub::{
    ConnectionFailure, LoanError, PublisherCreateError, ReceiveError, SendError,
    SubscriberCreateError, ZeroCopyCreationError,
};

/// The call did what it is to do.
pub const OK: u32 = 0;
/// There is no domain at the pointer: none was made, or it was freed.
pub const NO_DOMAIN: u32 = 1;
/// The numbers name nothing that is live in the domain.
pub const NOT_LIVE: u32 = 2;
/// No message waits.
pub const NO_SAMPLE: u32 = 3;
/// Memory for the domain was refused.
pub const OUT_OF_MEMORY: u32 = 4;
/// There is a domain already.
pub const HAS_DOMAIN: u32 = 5;
/// The send waits for a subscriber whose buffer is full.
pub const BLOCKED: u32 = 6;
/// An earlier send of the publisher waits.
pub const PUBLISHER_IS_BLOCKED: u32 = 7;
/// The message is longer than the room for it.
pub const TOO_SMALL: u32 = 9;
/// A connection has no channel with this number.
pub const NO_SUCH_CHANNEL: u32 = 70;
/// The publisher has no connection to that subscriber.
pub const NO_CONNECTION: u32 = 71;
/// The struct of settings doesn't have the size that this library knows.
pub const INVALID_STRUCT_SIZE: u32 = 80;
/// The payloads' size is no multiple of their alignment.
pub const INVALID_PAYLOAD_SIZE: u32 = 81;
/// Payloads can't be aligned so.
pub const INVALID_PAYLOAD_ALIGNMENT: u32 = 82;
/// No strategy for full buffers has this number.
pub const INVALID_BACKPRESSURE_STRATEGY: u32 = 83;
/// No handler of full buffers has this number.
pub const INVALID_BACKPRESSURE_HANDLER: u32 = 84;
/// Nothing that is done about a refused connection has this number.
pub const INVALID_DEGRADATION: u32 = 85;
/// Memory grows in no way that has this number.
pub const INVALID_ALLOCATION_STRATEGY: u32 = 86;
/// Messages can't be this long.
pub const INVALID_INITIAL_MAX_SLICE_LEN: u32 = 87;
/// A field that is reserved isn't 0.
pub const INVALID_RESERVED: u32 = 88;
/// The worst case of slots doesn't fit.
pub const WORST_CASE_TOO_LARGE: u32 = 89;

/// The code of a refused loan.
pub fn loan_status(error: LoanError) -> u32
    ensures { result ≡ loan_code error }
{
    match error {
        LoanError::OutOfMemory => 10,
        LoanError::ExceedsMaxLoans => 11,
        LoanError::ExceedsMaxLoanSize => 12,
        LoanError::InternalFailure => 13,
    }
}

// Which failure it is.
fn failure_index(failure: ConnectionFailure) -> u32
    ensures { result ≡ failure_index failure }
{
    match failure {
        ConnectionFailure::FailedToEstablishConnection(cause) => match cause {
            ZeroCopyCreationError::IncompatibleBufferSize => 0,
            ZeroCopyCreationError::OutOfMemory => 1,
            ZeroCopyCreationError::ExpiredConnectionBufferFull => 2,
        },
        ConnectionFailure::UnableToMapSendersDataSegment(_) => 3,
    }
}

/// The code of a send that failed.
pub fn send_status(error: SendError) -> u32
    ensures { result ≡ send_code error }
{
    match error {
        SendError::ConnectionBrokenSinceSenderNoLongerExists => 20,
        SendError::ConnectionCorrupted => 21,
        SendError::UnableToDeliver => 22,
        SendError::InternalError => 23,
        SendError::ConnectionError(failure) => connection_status(24, failure),
        SendError::LoanError(refusal) => loan_status(refusal),
    }
}

// The code of a connection's failure, among those that start here.
fn connection_status(first: u32, failure: ConnectionFailure) -> u32
    requires { first < 100 }
    ensures { result ≡ first + failure_index failure }
{
    first + failure_index(failure)
}

/// The code of a receive that failed.
pub fn receive_status(error: ReceiveError) -> u32
    ensures { result ≡ receive_code error }
{
    match error {
        ReceiveError::ExceedsMaxBorrows => 30,
        ReceiveError::ConnectionFailure(failure) => connection_status(34, failure),
    }
}

/// The code of an update that failed.
pub fn failure_status(failure: ConnectionFailure) -> u32
    ensures { result ≡ failure_code failure }
{
    connection_status(44, failure)
}

/// The code of a refused publisher.
pub fn publisher_status(error: PublisherCreateError) -> u32
    ensures { result ≡ publisher_code error }
{
    match error {
        PublisherCreateError::ExceedsMaxSupportedPublishers => 50,
        PublisherCreateError::UnableToCreateDataSegment => 51,
        PublisherCreateError::FailedToDeployThreadsafetyPolicy => 52,
        PublisherCreateError::UnableToCreatePortTag => 53,
    }
}

/// The code of a refused subscriber.
pub fn subscriber_status(error: SubscriberCreateError) -> u32
    ensures { result ≡ subscriber_code error }
{
    match error {
        SubscriberCreateError::ExceedsMaxSupportedSubscribers => 60,
        SubscriberCreateError::BufferSizeExceedsMaxSupportedBufferSizeOfService => 61,
        SubscriberCreateError::FailedToDeployThreadsafetyPolicy => 62,
        SubscriberCreateError::UnableToCreatePortTag => 63,
    }
}
