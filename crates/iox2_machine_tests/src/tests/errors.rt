ghost use Rattle.std.specs.Prelude.{◌≡◌, MatchOption};
ghost use Rattle.iox2_machine.specs.declared.errors.ConnectionFailure.TheVariants.{FailedToEstablishConnection, UnableToMapSendersDataSegment};
ghost use Rattle.iox2_machine.specs.declared.errors.SharedMemoryOpenError.TheVariants.{InternalError};

use iox2_machine::{
    BackpressureAction, BackpressureToReceiverAction, ConnectionFailure, LoanError, ReceiveError,
    SendError, SharedMemoryOpenError, ZeroCopyCreationError,
};
use std::alloc::Global;
use std::collections::HashMap;
use std::hash::Hash;
use std::process::Abort;

#[test]
fn a_connection_takes_a_handlers_answer(rt: HostRuntime) {
    let answers = [
        BackpressureAction::FollowBackpressureyStrategy,
        BackpressureAction::Retry,
        BackpressureAction::DiscardData,
        BackpressureAction::DiscardDataAndFail,
    ]
    .map(BackpressureToReceiverAction::from);
    let expected = [
        BackpressureToReceiverAction::FollowBackpressureyStrategy,
        BackpressureToReceiverAction::Retry,
        BackpressureToReceiverAction::DiscardPointerOffset,
        BackpressureToReceiverAction::DiscardPointerOffsetAndFail,
    ];
    assert!(rt; answers == expected);
}

// Why the connection could not be made, and none where the other end's memory could not be opened.
fn cause_of(failure: ConnectionFailure) -> Option<ZeroCopyCreationError>
    ensures { MatchOption result (failure ≡ UnableToMapSendersDataSegment InternalError) (λ cause. failure ≡ FailedToEstablishConnection cause) }
{
    match failure {
        ConnectionFailure::FailedToEstablishConnection(cause) => Some(cause),
        ConnectionFailure::UnableToMapSendersDataSegment(SharedMemoryOpenError::InternalError) => {
            None
        }
    }
}

#[test]
fn a_failed_connection_or_call_holds_its_cause(rt: HostRuntime) {
    let full = ZeroCopyCreationError::ExpiredConnectionBufferFull;
    let unmapped = SharedMemoryOpenError::InternalError;
    let failures = [
        ConnectionFailure::from(full),
        ConnectionFailure::from(unmapped),
    ];
    let expected = [
        ConnectionFailure::FailedToEstablishConnection(full),
        ConnectionFailure::UnableToMapSendersDataSegment(unmapped),
    ];
    assert!(rt; failures == expected);
    assert!(rt; failures.map(cause_of) == [Some(full), None]);
    let failure = failures[0];
    assert!(rt; ReceiveError::from(failure) == ReceiveError::ConnectionFailure(failure));
    assert!(rt; SendError::from(failure) == SendError::ConnectionError(failure));
}

// What `?` makes of a refused loan.
fn sent(loan: Result<u8, LoanError>) -> Result<u8, SendError> {
    Ok(loan?)
}

#[test]
fn a_refused_loan_is_a_refused_send(rt: HostRuntime) {
    let refused = sent(Err(LoanError::InternalFailure));
    let answers = [sent(Ok(4)), refused];
    let expected = [Ok(4), Err(SendError::LoanError(LoanError::InternalFailure))];
    let other = Err(SendError::LoanError(LoanError::OutOfMemory));
    assert!(rt; answers == expected && refused != other);
}

// Keeps the number under the error, and finds it there.
fn is_kept<K: Hash + Eq + Drop>(
    rt: &impl Abort,
    alloc: Global,
    error: K,
    same: &K,
    other: &K,
) -> bool {
    let mut map = HashMap::new(alloc);
    let kept: Result<_, _> = map.insert(error, 1);
    kept.expect(rt, "room");
    let found = [map.get(same).copied(), map.get(other).copied()];
    drop(map);
    found == [Some(1), None]
}

#[test]
fn errors_are_keys_of_a_map(rt: HostRuntime) {
    let full = LoanError::OutOfMemory;
    let has_loans = is_kept(&rt, rt.alloc(), full, &full, &LoanError::InternalFailure);
    let refused = ConnectionFailure::from(ZeroCopyCreationError::OutOfMemory);
    let unmapped = ConnectionFailure::from(SharedMemoryOpenError::InternalError);
    let has_failures = is_kept(&rt, rt.alloc(), refused, &refused, &unmapped);
    assert!(rt; has_loans && has_failures);
}
