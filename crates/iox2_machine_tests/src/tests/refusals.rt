//! What a caller does where a call is refused, which the comments of the errors show.
ghost use Rattle.std.specs.Prelude.{◌≡◌, IfSome, IsErr, IsTrue, MatchResult};
ghost use Rattle.std.specs.declared.result.Result.TheVariants.{Err, Ok};

use iox2_machine::{
    ConnectionFailure, LoanError, PublisherCreateError, ReceiveError, SendError, ServiceConfig,
    SubscriberCreateError, ZeroCopyCreationError,
};

// The loan, or none where one may be granted once a loan is sent or discarded, or a sample released.
fn loan_if_free<L: Drop>(lent: Result<L, LoanError>) -> Result<Option<L>, LoanError>
    ensures { MatchResult result (λ it. IfSome it (λ loan. lent ≡ Ok loan)) (λ error. lent ≡ Err error) }
{
    match lent {
        Ok(loan) => Ok(Some(loan)),
        Err(LoanError::ExceedsMaxLoans | LoanError::OutOfMemory) => Ok(None),
        Err(error) => Err(error),
    }
}

#[test]
fn a_full_publisher_may_lend_later(rt: HostRuntime) {
    let long: Result<Option<u8>, LoanError> = Err(LoanError::ExceedsMaxLoanSize);
    assert!(rt; loan_if_free(Ok(4u8)) == Ok(Some(4)));
    assert!(rt; loan_if_free(Err::<u8, LoanError>(LoanError::ExceedsMaxLoans)) == Ok(None));
    assert!(rt; loan_if_free(Err::<u8, LoanError>(LoanError::OutOfMemory)) == Ok(None));
    assert!(rt; loan_if_free(Err::<u8, LoanError>(LoanError::ExceedsMaxLoanSize)) == long);
}

// Whether nobody got the value, so that a caller who still has it may send it once more.
fn may_send_again(sent: Result<usize, SendError>) -> bool
    ensures { IsTrue result → IsErr sent }
{
    match sent {
        Ok(_) | Err(SendError::UnableToDeliver) => false,
        Err(SendError::LoanError(_) | SendError::ConnectionError(_)) => true,
        Err(_) => false,
    }
}

#[test]
fn what_nobody_got_may_be_sent_again(rt: HostRuntime) {
    let refused = ConnectionFailure::from(ZeroCopyCreationError::OutOfMemory);
    let again = [
        may_send_again(Err(SendError::LoanError(LoanError::ExceedsMaxLoans))),
        may_send_again(Err(SendError::ConnectionError(refused))),
    ];
    let never = [
        may_send_again(Ok(0)),
        may_send_again(Err(SendError::UnableToDeliver)),
        may_send_again(Err(SendError::ConnectionBrokenSinceSenderNoLongerExists)),
    ];
    assert!(rt; again == [true; 2] && never == [false; 3]);
}

// Whether the caller has to release a sample before it can receive another.
fn has_to_release(received: Result<Option<u8>, ReceiveError>) -> Result<bool, ConnectionFailure>
    ensures { IsErr result → IsErr received }
{
    match received {
        Ok(_) => Ok(false),
        Err(ReceiveError::ExceedsMaxBorrows) => Ok(true),
        Err(ReceiveError::ConnectionFailure(failure)) => Err(failure),
    }
}

#[test]
fn a_release_helps_a_subscriber_that_holds_too_much(rt: HostRuntime) {
    let full = ConnectionFailure::from(ZeroCopyCreationError::ExpiredConnectionBufferFull);
    assert!(rt; has_to_release(Ok(None)) == Ok(false));
    assert!(rt; has_to_release(Err(ReceiveError::ExceedsMaxBorrows)) == Ok(true));
    assert!(rt; has_to_release(Err(ReceiveError::ConnectionFailure(full))) == Err(full));
}

// Whether the update is done. A connection without memory is tried again when ports come or go.
fn is_updated(updated: Result<(), ConnectionFailure>) -> Result<bool, ConnectionFailure>
    ensures { IsErr result → IsErr updated }
{
    match updated {
        Ok(()) => Ok(true),
        Err(ConnectionFailure::FailedToEstablishConnection(ZeroCopyCreationError::OutOfMemory)) =>
            Ok(false),
        Err(failure) => Err(failure),
    }
}

// What helps where a connection isn't made or kept.
fn help_for(cause: ZeroCopyCreationError) -> &'static str {
    match cause {
        ZeroCopyCreationError::OutOfMemory => "it is tried again when ports come or go",
        ZeroCopyCreationError::ExpiredConnectionBufferFull => "release a closed publisher's sample",
        ZeroCopyCreationError::IncompatibleBufferSize => "no call returns it",
    }
}

#[test]
fn an_update_may_be_tried_again(rt: HostRuntime) {
    let full = ZeroCopyCreationError::ExpiredConnectionBufferFull;
    let refused = ConnectionFailure::from(ZeroCopyCreationError::OutOfMemory);
    assert!(rt; is_updated(Ok(())) == Ok(true));
    assert!(rt; is_updated(Err(refused)) == Ok(false));
    assert!(rt;
        is_updated(Err(ConnectionFailure::from(full))) == Err(ConnectionFailure::from(full))
    );
    assert!(rt; help_for(full) == "release a closed publisher's sample");
}

// With how many loans a publisher may find memory, if it found none with that many.
fn loans_to_try(created: Result<u8, PublisherCreateError>, loans: usize) -> Option<usize>
    ensures { IfSome result (λ _. IsErr created) }
{
    match created {
        Err(PublisherCreateError::UnableToCreateDataSegment) if loans > 1 => Some(loans / 2),
        _ => None,
    }
}

// With which buffer a subscriber may be made that wasn't with a larger one.
fn buffer_to_try(
    created: Result<u8, SubscriberCreateError>,
    config: &ServiceConfig,
) -> Option<usize>
    ensures { IfSome result (λ buffer. buffer ≡ config.now.subscriber_max_buffer_size) }
{
    match created {
        Err(SubscriberCreateError::BufferSizeExceedsMaxSupportedBufferSizeOfService) => {
            Some(config.subscriber_max_buffer_size)
        }
        _ => None,
    }
}

#[test]
fn a_port_may_be_made_with_less(rt: HostRuntime) {
    let segment = PublisherCreateError::UnableToCreateDataSegment;
    let publishers = PublisherCreateError::ExceedsMaxSupportedPublishers;
    let loans = [
        loans_to_try(Err(segment), 5),
        loans_to_try(Err(segment), 1),
        loans_to_try(Err(publishers), 5),
        loans_to_try(Ok(1), 5),
    ];
    let buffer = SubscriberCreateError::BufferSizeExceedsMaxSupportedBufferSizeOfService;
    let subscribers = SubscriberCreateError::ExceedsMaxSupportedSubscribers;
    let buffers = [
        buffer_to_try(Err(buffer), &ServiceConfig::new(7)),
        buffer_to_try(Err(subscribers), &ServiceConfig::new(7)),
    ];
    assert!(rt; loans == [Some(2), None, None, None]);
    assert!(rt; buffers == [Some(2), None]);
}
