//! Why a call of the library was refused.

mod texts;

/// Why a publisher lends no message.
///
/// Example (`crates/iox2_machine_tests/src/tests/refusals.rt`): `None` if a loan may be granted
/// later.
///
/// ```rust
/// match lent {
///     Ok(loan) => Ok(Some(loan)),
///     Err(LoanError::ExceedsMaxLoans | LoanError::OutOfMemory) => Ok(None),
///     Err(error) => Err(error),
/// }
/// ```
///
/// iceoryx2's `port::LoanError` (`src/port/mod.rs`).
#[derive(Debug, Clone, Copy, PartialEq, Eq, Hash)]
pub enum LoanError {
    /// Every slot that could hold the message is taken, or a publisher whose memory grows would need
    /// one segment more than it may make. It may pass when a sample is released.
    OutOfMemory,
    /// As many loans are out as the publisher may have at a time. It passes when one is sent or
    /// discarded.
    ExceedsMaxLoans,
    /// The slice has more elements than the publisher's slots have room for
    /// (`initial_max_slice_len` of its factory), and its memory doesn't grow.
    ExceedsMaxLoanSize,
    /// Memory for a new segment was refused, its size doesn't fit `usize`, or the domain has no
    /// message numbers left.
    InternalFailure,
}

/// Why a message wasn't sent, or not to everybody.
///
/// Example (`crates/iox2_machine_tests/src/tests/refusals.rt`): whether nobody got the value, so
/// that it may be sent again.
///
/// ```rust
/// match sent {
///     Ok(_) | Err(SendError::UnableToDeliver) => false,
///     Err(SendError::LoanError(_) | SendError::ConnectionError(_)) => true,
///     Err(_) => false,
/// }
/// ```
///
/// iceoryx2's `port::SendError` (`src/port/mod.rs`).
#[derive(Debug, Clone, Copy, PartialEq, Eq)]
pub enum SendError {
    /// The publisher that lent the message is closed. The message is lost.
    ConnectionBrokenSinceSenderNoLongerExists,
    /// Never returned: the connections are in memory that nobody else writes.
    ConnectionCorrupted,
    /// A call that lends and sends in one got no loan, for this reason.
    LoanError(LoanError),
    /// The update of the connections before the delivery failed, for this reason. Nobody got the
    /// message, and its loan is given back.
    ConnectionError(ConnectionFailure),
    /// A handler answered `BackpressureAction::DiscardDataAndFail` for some receiver. The others
    /// may have got the message.
    UnableToDeliver,
    /// Never returned.
    InternalError,
}

impl From<LoanError> for SendError {
    ghost use Rattle.std.specs.Prelude.{◌≡◌};
    ghost use Rattle.iox2_machine.specs.declared.errors.SendError.TheVariants.{LoanError as loan_error};

    ghost from_gives = { λ refusal error. error ≡ loan_error refusal };

    fn from(refusal: LoanError) -> Self {
        SendError::LoanError(refusal)
    }
}

impl From<ConnectionFailure> for SendError {
    ghost use Rattle.std.specs.Prelude.{◌≡◌};
    ghost use Rattle.iox2_machine.specs.declared.errors.SendError.TheVariants.{ConnectionError};

    ghost from_gives = { λ failure error. error ≡ ConnectionError failure };

    fn from(failure: ConnectionFailure) -> Self {
        SendError::ConnectionError(failure)
    }
}

/// Why a subscriber receives nothing though something may wait.
///
/// Example (`crates/iox2_machine_tests/src/tests/refusals.rt`): whether a sample has to be released
/// first.
///
/// ```rust
/// match received {
///     Ok(_) => Ok(false),
///     Err(ReceiveError::ExceedsMaxBorrows) => Ok(true),
///     Err(ReceiveError::ConnectionFailure(failure)) => Err(failure),
/// }
/// ```
///
/// iceoryx2's `port::ReceiveError` (`src/port/mod.rs`).
#[derive(Debug, Clone, Copy, PartialEq, Eq)]
pub enum ReceiveError {
    /// Messages wait, but the subscriber holds as many samples as it may of each publisher that
    /// sent them. A release helps.
    ExceedsMaxBorrows,
    /// The update of the connections before the receive failed, for this reason.
    ConnectionFailure(ConnectionFailure),
}

impl From<ConnectionFailure> for ReceiveError {
    ghost use Rattle.std.specs.Prelude.{◌≡◌};
    ghost use Rattle.iox2_machine.specs.declared.errors.ReceiveError.TheVariants.{ConnectionFailure as connection_failure};

    ghost from_gives = { λ failure error. error ≡ connection_failure failure };

    fn from(failure: ConnectionFailure) -> Self {
        ReceiveError::ConnectionFailure(failure)
    }
}

/// Why an update of the connections failed. The rest of it is done.
///
/// Example (`crates/iox2_machine_tests/src/tests/refusals.rt`): whether the update is done.
///
/// ```rust
/// match updated {
///     Ok(()) => Ok(true),
///     Err(ConnectionFailure::FailedToEstablishConnection(ZeroCopyCreationError::OutOfMemory)) =>
///         Ok(false),
///     Err(failure) => Err(failure),
/// }
/// ```
///
/// iceoryx2's `port::update_connections::ConnectionFailure` (`src/port/update_connections.rs`).
#[derive(Debug, Clone, Copy, PartialEq, Eq, Hash)]
pub enum ConnectionFailure {
    /// A connection could not be made, or a departed publisher's connection could not be put aside,
    /// for this reason. The reason also says when it is tried again.
    FailedToEstablishConnection(ZeroCopyCreationError),
    /// Never returned: there is no shared memory to map.
    UnableToMapSendersDataSegment(SharedMemoryOpenError),
}

impl From<ZeroCopyCreationError> for ConnectionFailure {
    ghost use Rattle.std.specs.Prelude.{◌≡◌};
    ghost use Rattle.iox2_machine.specs.declared.errors.ConnectionFailure.TheVariants.{FailedToEstablishConnection};

    ghost from_gives = { λ cause failure. failure ≡ FailedToEstablishConnection cause };

    fn from(cause: ZeroCopyCreationError) -> Self {
        ConnectionFailure::FailedToEstablishConnection(cause)
    }
}

impl From<SharedMemoryOpenError> for ConnectionFailure {
    ghost use Rattle.std.specs.Prelude.{◌≡◌};
    ghost use Rattle.iox2_machine.specs.declared.errors.ConnectionFailure.TheVariants.{UnableToMapSendersDataSegment};

    ghost from_gives = { λ cause failure. failure ≡ UnableToMapSendersDataSegment cause };

    fn from(cause: SharedMemoryOpenError) -> Self {
        ConnectionFailure::UnableToMapSendersDataSegment(cause)
    }
}

/// Why a connection could not be made or put aside.
///
/// Example (`crates/iox2_machine_tests/src/tests/refusals.rt`): what helps if a connection isn't
/// made.
///
/// ```rust
/// match cause {
///     ZeroCopyCreationError::OutOfMemory => "it is tried again when ports come or go",
///     ZeroCopyCreationError::ExpiredConnectionBufferFull => "release a closed publisher's sample",
///     ZeroCopyCreationError::IncompatibleBufferSize => "no call returns it",
/// }
/// ```
///
/// Named as iceoryx2's `iceoryx2_cal::zero_copy_connection::ZeroCopyCreationError`, which has
/// `IncompatibleBufferSize`; the other variants are this library's own.
#[derive(Debug, Clone, Copy, PartialEq, Eq, Hash)]
pub enum ZeroCopyCreationError {
    /// Never returned.
    IncompatibleBufferSize,
    /// Memory for the connection was refused, or its size doesn't fit `usize`, and the handler
    /// answered `DegradationAction::DegradeAndFail`. It is tried again when ports come or go.
    OutOfMemory,
    /// Connections to departed publishers fill the room for them
    /// (`subscriber_expired_connection_buffer`), and the subscriber holds samples of each of these
    /// publishers and of one more that departed. The next update tries again, and finds room once
    /// all samples of one of them are released.
    ExpiredConnectionBufferFull,
}

/// Why shared memory could not be opened.
///
/// Example (`crates/iox2_machine_tests/src/tests/errors.rt`): why a connection isn't made, and
/// `None` if memory isn't opened.
///
/// ```rust
/// match failure {
///     ConnectionFailure::FailedToEstablishConnection(cause) => Some(cause),
///     ConnectionFailure::UnableToMapSendersDataSegment(SharedMemoryOpenError::InternalError) => {
///         None
///     }
/// }
/// ```
///
/// Named as iceoryx2's `iceoryx2_cal::shared_memory::SharedMemoryOpenError`; its variant is this
/// library's own.
#[derive(Debug, Clone, Copy, PartialEq, Eq, Hash)]
pub enum SharedMemoryOpenError {
    /// Never returned: there is no shared memory to open.
    InternalError,
}

/// Why a publisher was not created. The domain is as it was.
///
/// Example (`crates/iox2_machine_tests/src/tests/refusals.rt`): with how many loans to try again.
///
/// ```rust
/// match created {
///     Err(PublisherCreateError::UnableToCreateDataSegment) if loans > 1 => Some(loans / 2),
///     _ => None,
/// }
/// ```
///
/// iceoryx2's `port::publisher::PublisherCreateError` (`src/port/publisher.rs`).
#[derive(Debug, Clone, Copy, PartialEq, Eq)]
pub enum PublisherCreateError {
    /// As many publishers are open as the service allows (`max_publishers`).
    ExceedsMaxSupportedPublishers,
    /// Memory for the messages was refused, or the number of slots or their size doesn't fit `usize`.
    UnableToCreateDataSegment,
    /// Memory for the publisher's own state was refused. (There are no threads; the name is the
    /// original's.)
    FailedToDeployThreadsafetyPolicy,
    /// The domain has no port ids left.
    UnableToCreatePortTag,
}

/// Why a subscriber was not created. The domain is as it was.
///
/// Example (`crates/iox2_machine_tests/src/tests/refusals.rt`): with which buffer to try again.
///
/// ```rust
/// match created {
///     Err(SubscriberCreateError::BufferSizeExceedsMaxSupportedBufferSizeOfService) => {
///         Some(config.subscriber_max_buffer_size)
///     }
///     _ => None,
/// }
/// ```
///
/// iceoryx2's `port::subscriber::SubscriberCreateError` (`src/port/subscriber.rs`).
#[derive(Debug, Clone, Copy, PartialEq, Eq)]
pub enum SubscriberCreateError {
    /// There are as many subscribers as the service allows (`max_subscribers`). A closed one counts
    /// until its last sample is released.
    ExceedsMaxSupportedSubscribers,
    /// The buffer asked for is larger than the service allows (`subscriber_max_buffer_size`).
    BufferSizeExceedsMaxSupportedBufferSizeOfService,
    /// Memory for the subscriber's own state was refused. (There are no threads; the name is the
    /// original's.)
    FailedToDeployThreadsafetyPolicy,
    /// The domain has no port ids left.
    UnableToCreatePortTag,
}

/// Why a domain was not made. There is one reason, so a caller may ask only whether there is a domain.
///
/// Example (`crates/list_runner/src/lists.rt`):
///
/// ```rust
/// let Ok(mut domain) = Domain::<u64, ()>::new(alloc, sizes.config) else {
///     return Err(Failure::OutOfMemory(AllocError));
/// };
/// ```
///
/// This library's own.
#[derive(Debug, Clone, Copy, PartialEq, Eq)]
pub enum DomainCreateError {
    /// Memory for its lists was refused.
    OutOfMemory,
}
