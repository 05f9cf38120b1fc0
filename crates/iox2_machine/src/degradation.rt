//! What happens when a port can't make one of its connections.
ghost use Rattle.iox2_machine.specs.declared.degradation.DegradationAction.{DegradationAction};
ghost use Rattle.iox2_machine.specs.declared.degradation.DegradationCause.{DegradationCause};
ghost use Rattle.iox2_machine.specs.declared.degradation.DegradationInfo.{DegradationInfo};

/// A handler's answer when a connection can't be made.
///
/// Example (`crates/iox2_slice_tests/src/tests/slices.rt`): a publisher whose calls fail if a
/// connection finds no memory.
///
/// ```rust
/// let handler = DegradationHandler::new_with(DegradationAction::DegradeAndFail);
/// let factory = slice_factory(&domain).set_degradation_handler(handler);
/// let publisher = factory.create(&mut domain).expect(&rt, "a publisher");
/// ```
///
/// iceoryx2's `port::DegradationAction` (`src/port/mod.rs`).
#[derive(Debug, Clone, Copy, PartialEq, Eq)]
pub enum DegradationAction {
    /// Go on without the connection. `Domain::refused_connections` counts it, and nothing else
    /// happens. It is tried again when ports come or go.
    Ignore,
    /// The same, and add `Warning::ConnectionNotMade` to the domain's warnings. So does a port that has
    /// no handler.
    Warn,
    /// Let the call fail, with `ConnectionFailure::FailedToEstablishConnection`. The creation of a port
    /// doesn't fail: the port is made, and the domain has `Warning::PublisherPartlyConnected` or
    /// `Warning::SubscriberPartlyConnected`.
    DegradeAndFail,
}

/// Why a handler is asked about a connection.
///
/// Example (`crates/iox2_machine_tests/src/tests/handlers.rt`):
///
/// ```rust
/// fn call(&self, cause: DegradationCause, _: &DegradationInfo) -> DegradationAction {
///     match cause {
///         DegradationCause::FailedToEstablishConnection => DegradationAction::Warn,
///         DegradationCause::ConnectionCorrupted => DegradationAction::DegradeAndFail,
///     }
/// }
/// ```
///
/// iceoryx2's `port::DegradationCause` (`src/port/mod.rs`).
#[derive(Drop)]
pub enum DegradationCause {
    /// There is no memory for the connection, or its size doesn't fit `usize`.
    FailedToEstablishConnection,
    /// No handler of this library is ever asked with it: the connections are in memory that nobody
    /// else writes.
    ConnectionCorrupted,
}

/// What a handler is told of a connection that can't be made.
///
/// Example (`crates/iox2_tests/src/tests/degradation_boxes.rt`): a handler that does without
/// connections from a port to one that was made later.
///
/// ```rust
/// fn call(&self, _: DegradationCause, info: &DegradationInfo) -> DegradationAction {
///     if info.sender_port_id < info.receiver_port_id {
///         DegradationAction::Ignore
///     } else {
///         DegradationAction::DegradeAndFail
///     }
/// }
/// ```
///
/// iceoryx2's `port::DegradationInfo` (`src/port/mod.rs`).
#[derive(Drop)]
pub struct DegradationInfo {
    /// The number of the service that both ports belong to.
    pub service_id: u128,
    /// The number of the id of the publisher at one end of the connection.
    pub sender_port_id: u128,
    /// The number of the id of the subscriber at its other end.
    pub receiver_port_id: u128,
}

/// What a port asks when it can't make a connection. `allows` says which answers it may give.
///
/// Example (`crates/iox2_run_tests/src/tests/degradations.rt`):
///
/// ```rust
/// impl DegradationFn for Unneeded {
///     ghost allows = { λ unneeded cause info action. action ≡ cond (eqb info.receiver_port_id unneeded.subscriber) Ignore DegradeAndFail };
///
///     fn call(&self, _: DegradationCause, info: &DegradationInfo) -> DegradationAction {
///         if info.receiver_port_id == self.subscriber {
///             DegradationAction::Ignore
///         } else {
///             DegradationAction::DegradeAndFail
///         }
///     }
/// }
/// ```
///
/// iceoryx2's `port::DegradationFn` (`src/port/mod.rs`), there a trait of closures.
pub trait DegradationFn: Drop {
    ghost allows: { Self → DegradationCause → DegradationInfo → DegradationAction → Type 0 };

    /// What to do without this connection.
    fn call(&self, cause: DegradationCause, info: &DegradationInfo) -> DegradationAction
        ensures { allows self.now cause info.now result };
}

/// A box answers what is in it.
impl DegradationFn for Box<dyn DegradationFn> {
    ghost allows = { λ b. (DegradationFn-box b).allows b.value };

    fn call(&self, cause: DegradationCause, info: &DegradationInfo) -> DegradationAction {
        (**self).call(cause, info)
    }
}
