//! What errors are for `std`: each is an `Error`. It is printed as the name of its type, two
//! colons, and the name of its variant. If it has a cause, the cause follows in parentheses.
//!
//! iceoryx2 prints them in the same way (`Display` of each, beside its declaration).
ghost use Rattle.std.specs.Prelude.{◌≡◌, Some};
ghost use Rattle.iox2_machine.specs.ErrorTexts.{connection_failure_name, connection_failure_text};
ghost use Rattle.iox2_machine.specs.ErrorTexts.{domain_create_error_text, loan_error_name, loan_error_text};
ghost use Rattle.iox2_machine.specs.ErrorTexts.{publisher_create_error_name, publisher_create_error_text};
ghost use Rattle.iox2_machine.specs.ErrorTexts.{receive_error_text, send_error_text, subscriber_create_error_name};
ghost use Rattle.iox2_machine.specs.ErrorTexts.{subscriber_create_error_text};

use super::{
    ConnectionFailure, DomainCreateError, LoanError, PublisherCreateError, ReceiveError, SendError,
    SharedMemoryOpenError, SubscriberCreateError, ZeroCopyCreationError,
};
use std::error::Error;
use std::fmt;

impl fmt::Display for LoanError {
    ghost output = { λ error. Some (loan_error_text error) };

    fn fmt<W: fmt::Write>(&self, f: &mut fmt::Formatter<W>) -> fmt::Result {
        write!(f, "LoanError::{}", self.name())
    }
}

impl Error for LoanError {}

impl LoanError {
    fn name(&self) -> &'static str
        ensures { result.now ≡ loan_error_name self.now }
    {
        match self {
            LoanError::OutOfMemory => "OutOfMemory",
            LoanError::ExceedsMaxLoans => "ExceedsMaxLoans",
            LoanError::ExceedsMaxLoanSize => "ExceedsMaxLoanSize",
            LoanError::InternalFailure => "InternalFailure",
        }
    }
}

impl fmt::Display for SendError {
    ghost output = { λ error. Some (send_error_text error) };

    fn fmt<W: fmt::Write>(&self, f: &mut fmt::Formatter<W>) -> fmt::Result {
        match self {
            SendError::ConnectionBrokenSinceSenderNoLongerExists => {
                write!(f, "SendError::ConnectionBrokenSinceSenderNoLongerExists")
            }
            SendError::ConnectionCorrupted => write!(f, "SendError::ConnectionCorrupted"),
            SendError::LoanError(refusal) => write!(f, "SendError::LoanError({})", refusal.name()),
            SendError::ConnectionError(failure) => {
                write!(f, "SendError::ConnectionError({})", failure.name())
            }
            SendError::UnableToDeliver => write!(f, "SendError::UnableToDeliver"),
            SendError::InternalError => write!(f, "SendError::InternalError"),
        }
    }
}

impl Error for SendError {}

impl fmt::Display for ReceiveError {
    ghost output = { λ error. Some (receive_error_text error) };

    fn fmt<W: fmt::Write>(&self, f: &mut fmt::Formatter<W>) -> fmt::Result {
        match self {
            ReceiveError::ExceedsMaxBorrows => write!(f, "ReceiveError::ExceedsMaxBorrows"),
            ReceiveError::ConnectionFailure(failure) => {
                write!(f, "ReceiveError::ConnectionFailure({})", failure.name())
            }
        }
    }
}

impl Error for ReceiveError {}

impl fmt::Display for ConnectionFailure {
    ghost output = { λ failure. Some (connection_failure_text failure) };

    fn fmt<W: fmt::Write>(&self, f: &mut fmt::Formatter<W>) -> fmt::Result {
        write!(f, "ConnectionFailure::{}", self.name())
    }
}

impl Error for ConnectionFailure {}

impl ConnectionFailure {
    fn name(&self) -> &'static str
        ensures { result.now ≡ connection_failure_name self.now }
    {
        match self {
            ConnectionFailure::FailedToEstablishConnection(cause) => match cause {
                ZeroCopyCreationError::IncompatibleBufferSize => {
                    "FailedToEstablishConnection(IncompatibleBufferSize)"
                }
                ZeroCopyCreationError::OutOfMemory => "FailedToEstablishConnection(OutOfMemory)",
                ZeroCopyCreationError::ExpiredConnectionBufferFull => {
                    "FailedToEstablishConnection(ExpiredConnectionBufferFull)"
                }
            },
            ConnectionFailure::UnableToMapSendersDataSegment(
                SharedMemoryOpenError::InternalError,
            ) => "UnableToMapSendersDataSegment(InternalError)",
        }
    }
}

impl fmt::Display for PublisherCreateError {
    ghost output = { λ error. Some (publisher_create_error_text error) };

    fn fmt<W: fmt::Write>(&self, f: &mut fmt::Formatter<W>) -> fmt::Result {
        write!(f, "PublisherCreateError::{}", self.name())
    }
}

impl Error for PublisherCreateError {}

impl PublisherCreateError {
    fn name(&self) -> &'static str
        ensures { result.now ≡ publisher_create_error_name self.now }
    {
        match self {
            PublisherCreateError::ExceedsMaxSupportedPublishers => "ExceedsMaxSupportedPublishers",
            PublisherCreateError::UnableToCreateDataSegment => "UnableToCreateDataSegment",
            PublisherCreateError::FailedToDeployThreadsafetyPolicy => {
                "FailedToDeployThreadsafetyPolicy"
            }
            PublisherCreateError::UnableToCreatePortTag => "UnableToCreatePortTag",
        }
    }
}

impl fmt::Display for SubscriberCreateError {
    ghost output = { λ error. Some (subscriber_create_error_text error) };

    fn fmt<W: fmt::Write>(&self, f: &mut fmt::Formatter<W>) -> fmt::Result {
        write!(f, "SubscriberCreateError::{}", self.name())
    }
}

impl Error for SubscriberCreateError {}

impl SubscriberCreateError {
    fn name(&self) -> &'static str
        ensures { result.now ≡ subscriber_create_error_name self.now }
    {
        match self {
            SubscriberCreateError::ExceedsMaxSupportedSubscribers => {
                "ExceedsMaxSupportedSubscribers"
            }
            SubscriberCreateError::BufferSizeExceedsMaxSupportedBufferSizeOfService => {
                "BufferSizeExceedsMaxSupportedBufferSizeOfService"
            }
            SubscriberCreateError::FailedToDeployThreadsafetyPolicy => {
                "FailedToDeployThreadsafetyPolicy"
            }
            SubscriberCreateError::UnableToCreatePortTag => "UnableToCreatePortTag",
        }
    }
}

impl fmt::Display for DomainCreateError {
    ghost output = { λ error. Some (domain_create_error_text error) };

    fn fmt<W: fmt::Write>(&self, f: &mut fmt::Formatter<W>) -> fmt::Result {
        match self {
            DomainCreateError::OutOfMemory => write!(f, "DomainCreateError::OutOfMemory"),
        }
    }
}

impl Error for DomainCreateError {}
