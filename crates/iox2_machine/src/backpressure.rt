//! What happens when a message finds a receiver's buffer full, in a service without safe overflow.
ghost use Rattle.iox2_machine.specs.declared.backpressure.BackpressureAction.{BackpressureAction};
ghost use Rattle.iox2_machine.specs.declared.backpressure.BackpressureInfo.{BackpressureInfo};

use std::time::Duration;

/// What a publisher does at a full buffer if it has no handler, or if its handler leaves it to the
/// strategy.
///
/// Example (`crates/calling/src/closing.rt`):
///
/// ```rust
/// let publisher = domain
///     .publisher_builder()
///     .backpressure_strategy(BackpressureStrategy::DiscardData)
///     .create(domain)?;
/// ```
///
/// iceoryx2's `port::backpressure_strategy::BackpressureStrategy`
/// (`src/port/backpressure_strategy.rs`).
#[derive(Debug, Clone, Copy, PartialEq, Eq)]
pub enum BackpressureStrategy {
    /// The send blocks: it is handed back as `SendOutcome::Blocked`. The caller tries it again or
    /// gives it up.
    RetryUntilDelivered,
    /// The receiver doesn't get the message, and the send goes on to the others.
    DiscardData,
}

/// A handler's answer to a full buffer.
///
/// Example (`crates/iox2_tests/src/tests/connection_sends.rt`): a handler that fails a send at a
/// full buffer.
///
/// ```rust
/// let handler = BackpressureHandler::Fixed(BackpressureAction::DiscardDataAndFail);
/// let factory = domain.publisher_builder().set_backpressure_handler(handler);
/// let publisher = factory.create(&mut domain).expect(&rt, "a publisher");
/// let message = message_of(&rt, &mut domain, &publisher, 2);
/// let failed = send_there(&rt, &mut domain, message, 1, 0);
/// let is_failed = matches!(failed, Err(SendError::UnableToDeliver));
/// ```
///
/// iceoryx2's `port::BackpressureAction` (`src/port/mod.rs`).
#[derive(Debug, Clone, Copy, PartialEq, Eq)]
pub enum BackpressureAction {
    /// Do as the publisher's strategy says. The spelling is the original's.
    FollowBackpressureyStrategy,
    /// Block the send. When it is tried again and the buffer is still full, the handler is asked
    /// once more.
    Retry,
    /// Skip this receiver and go on to the others.
    DiscardData,
    /// Skip this receiver and go on to the others. When it has gone over all, the send returns
    /// `SendError::UnableToDeliver`.
    DiscardDataAndFail,
}

/// A handler's answer, as the connection to one receiver takes it. `from` makes it of a
/// `BackpressureAction`; no other call takes or returns one.
///
/// Example (`crates/iox2_machine_tests/src/tests/errors.rt`):
///
/// ```rust
/// let answers = [
///     BackpressureAction::FollowBackpressureyStrategy,
///     BackpressureAction::Retry,
///     BackpressureAction::DiscardData,
///     BackpressureAction::DiscardDataAndFail,
/// ]
/// .map(BackpressureToReceiverAction::from);
/// ```
///
/// iceoryx2's `port::BackpressureToReceiverAction` (exported by `src/port/mod.rs`, from
/// `iceoryx2_cal::zero_copy_connection`). It has one variant for each of `BackpressureAction`, in
/// the same order.
#[derive(Debug, Clone, Copy, PartialEq, Eq)]
pub enum BackpressureToReceiverAction {
    /// Do as the publisher's strategy says. The spelling is the original's.
    FollowBackpressureyStrategy,
    /// Block the send at this receiver.
    Retry,
    /// Leave this receiver without the message.
    DiscardPointerOffset,
    /// Leave this receiver without the message, and let the send fail at its end.
    DiscardPointerOffsetAndFail,
}

impl From<BackpressureAction> for BackpressureToReceiverAction {
    ghost use Rattle.std.specs.Prelude.{◌≡◌};
    ghost use Rattle.iox2_machine.specs.Backpressure.{to_receiver_action};

    ghost from_gives = { λ action answer. answer ≡ to_receiver_action action };

    fn from(action: BackpressureAction) -> Self {
        match action {
            BackpressureAction::FollowBackpressureyStrategy => {
                BackpressureToReceiverAction::FollowBackpressureyStrategy
            }
            BackpressureAction::Retry => BackpressureToReceiverAction::Retry,
            BackpressureAction::DiscardData => BackpressureToReceiverAction::DiscardPointerOffset,
            BackpressureAction::DiscardDataAndFail => {
                BackpressureToReceiverAction::DiscardPointerOffsetAndFail
            }
        }
    }
}

/// What a handler is told of a full buffer.
///
/// Example (`crates/iox2_machine_tests/src/tests/handlers.rt`): a handler that waits for a number
/// of milliseconds.
///
/// ```rust
/// fn call(&self, info: &BackpressureInfo) -> BackpressureAction {
///     if info.elapsed_time.as_millis() < self.milliseconds {
///         BackpressureAction::Retry
///     } else {
///         BackpressureAction::DiscardData
///     }
/// }
/// ```
///
/// iceoryx2's `port::BackpressureInfo` (`src/port/mod.rs`).
#[derive(Drop)]
pub struct BackpressureInfo {
    /// The number of the service that both ports belong to.
    pub service_id: u128,
    /// The number of the id of the publisher that sends.
    pub sender_port_id: u128,
    /// The number of the id of the subscriber whose buffer is full.
    pub receiver_port_id: u128,
    /// How often this delivery was tried again: 0 when the handler is first asked, then one more
    /// each time. It stays at the greatest `u64`.
    pub retries: u64,
    /// The time since the handler was first asked about this delivery. It is zero then. Later it is
    /// what the caller who tries again says, since the library reads no clock.
    pub elapsed_time: Duration,
}

/// What a publisher asks at a full buffer. `allows` says which answers it may give.
///
/// Example (`crates/slow_display/src/patience.rt`):
///
/// ```rust
/// impl BackpressureFn for Patience {
///     ghost allows = { λ patience info action. action ≡ cond (nat_lt info.retries patience.retries) Retry DiscardData };
///
///     fn call(&self, info: &BackpressureInfo) -> BackpressureAction {
///         if info.retries < self.retries {
///             BackpressureAction::Retry
///         } else {
///             BackpressureAction::DiscardData
///         }
///     }
/// }
/// ```
///
/// iceoryx2's `port::BackpressureFn` (`src/port/mod.rs`), there a trait of closures.
pub trait BackpressureFn: Drop {
    ghost allows: { Self → BackpressureInfo → BackpressureAction → Type 0 };

    /// What to do at this buffer.
    fn call(&self, info: &BackpressureInfo) -> BackpressureAction
        ensures { allows self.now info.now result };
}

/// A box answers what is in it.
impl BackpressureFn for Box<dyn BackpressureFn> {
    ghost allows = { λ b. (BackpressureFn-box b).allows b.value };

    fn call(&self, info: &BackpressureInfo) -> BackpressureAction {
        (**self).call(info)
    }
}
