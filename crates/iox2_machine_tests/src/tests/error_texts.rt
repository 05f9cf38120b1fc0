use iox2_machine::{
    ConnectionFailure, DomainCreateError, LoanError, PublisherCreateError, ReceiveError, SendError,
    SharedMemoryOpenError, SubscriberCreateError, ZeroCopyCreationError,
};
use std::alloc::Global;
use std::error::Error;

// Whether the error prints so.
fn prints<E: Error + Copy>(alloc: Global, error: E, expected: &str) -> bool {
    match error.to_string(alloc) {
        Ok(text) => text.as_str() == expected,
        Err(_) => false,
    }
}

// Whether the error prints so behind a word.
fn prints_behind<E: Error + Copy>(alloc: Global, error: E, expected: &str) -> bool {
    match format!(in alloc; "err {error}") {
        Ok(text) => text.as_str() == expected,
        Err(_) => false,
    }
}

#[test]
fn errors_print_their_types_and_variants(rt: HostRuntime) {
    let alloc = rt.alloc();
    let printed = [
        prints(
            alloc,
            LoanError::ExceedsMaxLoans,
            "LoanError::ExceedsMaxLoans",
        ),
        prints(
            alloc,
            SendError::UnableToDeliver,
            "SendError::UnableToDeliver",
        ),
        prints(
            alloc,
            ReceiveError::ExceedsMaxBorrows,
            "ReceiveError::ExceedsMaxBorrows",
        ),
        prints(
            alloc,
            PublisherCreateError::UnableToCreateDataSegment,
            "PublisherCreateError::UnableToCreateDataSegment",
        ),
        prints(
            alloc,
            SubscriberCreateError::FailedToDeployThreadsafetyPolicy,
            "SubscriberCreateError::FailedToDeployThreadsafetyPolicy",
        ),
        prints(
            alloc,
            DomainCreateError::OutOfMemory,
            "DomainCreateError::OutOfMemory",
        ),
    ];
    assert!(rt; printed == [true; 6]);
}

#[test]
fn errors_print_their_causes_in_parentheses(rt: HostRuntime) {
    let refused = SendError::LoanError(LoanError::OutOfMemory);
    let full = ConnectionFailure::FailedToEstablishConnection(
        ZeroCopyCreationError::ExpiredConnectionBufferFull,
    );
    let unmapped = ConnectionFailure::UnableToMapSendersDataSegment(
        SharedMemoryOpenError::InternalError,
    );
    let alloc = rt.alloc();
    let printed = [
        prints_behind(alloc, refused, "err SendError::LoanError(OutOfMemory)"),
        prints(
            alloc,
            full,
            "ConnectionFailure::FailedToEstablishConnection(ExpiredConnectionBufferFull)",
        ),
        prints(
            alloc,
            ReceiveError::ConnectionFailure(full),
            "ReceiveError::ConnectionFailure(FailedToEstablishConnection(ExpiredConnectionBufferFull))",
        ),
        prints(
            alloc,
            SendError::ConnectionError(unmapped),
            "SendError::ConnectionError(UnableToMapSendersDataSegment(InternalError))",
        ),
    ];
    assert!(rt; printed == [true; 4]);
}
