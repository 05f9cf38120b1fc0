//! A subscriber enters a domain.
ghost use Rattle.std.specs.Prelude.{◌≡◌, ◌≢◌, ℕ, None, Some, cond, nat_lt, slice_index_or, IfOk, MatchResult};
ghost use Rattle.iox2_machine.specs.machine.Limits.{warning_limit};
ghost use Rattle.iox2_machine.specs.machine.Ports.{with_new_subscriber, CreateSubscriber};
ghost use Rattle.iox2_machine.specs.machine.State.{State, warned};
ghost use Rattle.iox2_machine.specs.declared.errors.SubscriberCreateError.TheVariants.{FailedToDeployThreadsafetyPolicy};
ghost use Rattle.iox2_machine.specs.declared.warning.Warning.TheVariants.{ExpiredBufferRaised, SubscriberPartlyConnected};
ghost use Rattle.iox2_domain.specs.Boxes.{answers_of, boxes_of, degradation_box_of};
ghost use Rattle.iox2_domain.specs.Ports.{SubscriberFields};
ghost use Rattle.iox2_domain.specs.WarningRing.{warning_ring};
ghost use Rattle.iox2_domain.specs.Kept.{state_of};
ghost use Rattle.iox2_domain.specs.Fields.{kept_of};
ghost use Rattle.iox2_domain.specs.Invariant.{IsDomain};
ghost use Rattle.iox2_domain.specs.Reaches.{Reaches};
ghost use Rattle.iox2_domain.specs.FirstUpdates.{SubscriberFirstUpdates, failure_warned};
ghost use Rattle.iox2_domain.specs.SubscriberEntry.{asked_for, place_for_subscriber};

use crate::given_handlers::{keep_boxes, reserve_for};
use iox2_domain::{
    Boxes, DomainState, PortAt, PortBoxes, SubscriberOptions, SubscriberState, Warnings,
    free_place, make_all_due, put_at_place,
};
use iox2_machine::{
    BackpressureFn, ConnectionFailure, DegradationFn, ServiceConfig, SubscriberCreateError,
    UniqueSubscriberId, Warning,
};
use iox2_updates::update_subscriber;

// It is warned where the setting for expired publishers is too small for what may be borrowed.
fn warn_of_expired_buffer(
    warnings: &mut Warnings,
    config: &ServiceConfig,
    subscriber: UniqueSubscriberId,
)
    requires { warnings.old.capacity ≡ warning_limit }
    ensures { warnings.new ≡ warning_ring
        (cond (nat_lt (config.now).subscriber_expired_connection_buffer (config.now).subscriber_max_borrowed_samples)
        (warned warnings.old.items (ExpiredBufferRaised subscriber)) warnings.old.items) warning_limit }
{
    if config.subscriber_expired_connection_buffer < config.subscriber_max_borrowed_samples {
        warnings.warn(Warning::ExpiredBufferRaised { subscriber });
    }
}

// It is warned where the first update of a new subscriber failed.
fn warn_of_failure(
    warnings: &mut Warnings,
    subscriber: UniqueSubscriberId,
    failure: Option<ConnectionFailure>,
)
    requires { warnings.old.capacity ≡ warning_limit }
    ensures { warnings.new ≡ warning_ring (failure_warned (SubscriberPartlyConnected subscriber) failure warnings.old.items) warning_limit }
{
    if let Some(failure) = failure {
        warnings.warn(Warning::SubscriberPartlyConnected {
            subscriber,
            failure,
        });
    }
}

// The new subscriber at a place is updated for the first time, and it is warned if that fails.
fn update_first<T: Drop, U: Default + Drop, F: BackpressureFn, G: DegradationFn>(
    state: &mut DomainState<T, U>,
    boxes: &Boxes<F, G>,
    place: usize,
    subscriber: UniqueSubscriberId,
)
    requires agrees { IsDomain state.old }
    requires stands { (y : SubscriberFields) × (slice_index_or state.old.subscribers place None ≡ Some y) × (y.id ≡ subscriber) }
    ensures { (y : SubscriberFields) → slice_index_or state.old.subscribers place None ≡ Some y
        → SubscriberFirstUpdates (answers_of F.allows G.allows (boxes.now).boxes) state.old place y state.new }
{
    let failure = update_subscriber(state, boxes, place);
    warn_of_failure(&mut state.warnings, subscriber, failure);
}

// The place for a subscriber with these options, or why it is refused.
fn place_for_subscriber<T: Drop, U: Default + Drop>(
    state: &DomainState<T, U>,
    given: &SubscriberOptions,
) -> Result<usize, SubscriberCreateError>
    ensures { result ≡ place_for_subscriber state.now (asked_for given.now) }
{
    if state.next_port == u128::MAX {
        return Err(SubscriberCreateError::UnableToCreatePortTag);
    }
    if given.buffer_size.max(1) > state.config.subscriber_max_buffer_size.max(1) {
        return Err(SubscriberCreateError::BufferSizeExceedsMaxSupportedBufferSizeOfService);
    }
    match free_place(&state.subscribers, state.config.max_subscribers) {
        Some(place) => Ok(place),
        None => Err(SubscriberCreateError::ExceedsMaxSupportedSubscribers),
    }
}

// A subscriber with these options enters at the place that it has, and every publisher is due for
// an update. Returns its id, which was the next.
//
// If memory is refused nothing changes.
fn admit_subscriber<T: Drop, U: Default + Drop>(
    state: &mut DomainState<T, U>,
    place: usize,
    given: &SubscriberOptions,
) -> Result<UniqueSubscriberId, SubscriberCreateError>
    requires agrees { IsDomain state.old }
    requires has_place { place_for_subscriber state.old (asked_for given.now) ≡ Ok place }
    ensures id { IfOk result (λ id. id ≡ state.old.next_port) }
    ensures step { MatchResult result
        (λ _. Reaches state.old state.new
        (with_new_subscriber (state_of (kept_of state.old)) (asked_for given.now) place) × (y : SubscriberFields)
        × (slice_index_or state.new.subscribers place None ≡ Some y) × (y.id ≡ state.old.next_port))
        (λ e. (state.new ≡ state.old) × (e ≡ FailedToDeployThreadsafetyPolicy)) }
{
    let id = UniqueSubscriberId::new(state.next_port);
    let subscriber = SubscriberState::new(
        state.alloc,
        id,
        place,
        given.buffer_size.max(1),
        given.degradation,
    );
    let Ok(()) = state.subscribers.try_reserve(1) else {
        return Err(SubscriberCreateError::FailedToDeployThreadsafetyPolicy);
    };
    warn_of_expired_buffer(&mut state.warnings, &state.config, id);
    make_all_due(&mut state.publishers);
    put_at_place(&mut state.subscribers, place, subscriber);
    state.next_port += 1;
    Ok(id)
}

/// Makes a subscriber with these options, and connects it with the publishers that there are; it is
/// warned if that fails. If a connection can't be made, its options say what answers, or the
/// box does that is handed in, which is kept among the boxes. Returns its id, which was the next, and
/// its place.
///
/// `UnableToCreatePortTag` if no id is left, then
/// `BufferSizeExceedsMaxSupportedBufferSizeOfService`, then `ExceedsMaxSupportedSubscribers`
/// if no place is free, then `FailedToDeployThreadsafetyPolicy` if memory for the port or its
/// box is refused. Nothing changes then.
pub fn create_subscriber<T: Drop, U: Default + Drop, F: BackpressureFn, G: DegradationFn>(
    state: &mut DomainState<T, U>,
    boxes: &mut Boxes<F, G>,
    given: &SubscriberOptions,
    degradation: Option<G>,
) -> Result<PortAt<UniqueSubscriberId>, SubscriberCreateError>
    requires { IsDomain state.old }
    ensures id { IfOk result (λ port. port.id ≡ state.old.next_port) }
    ensures stands { IfOk result (λ port. (y : SubscriberFields) × (slice_index_or state.new.subscribers port.place None ≡ Some y) × (y.id ≡ port.id)) }
    ensures degrades { IfOk result (λ port. degradation_box_of port.id (boxes.new).boxes ≡ degradation) }
    ensures others { (port : ℕ) → port ≢ state.old.next_port → boxes_of port (boxes.new).boxes ≡ boxes_of port (boxes.old).boxes }
    ensures step { MatchResult result
        (λ _. (s' : State T U) × CreateSubscriber (answers_of F.allows G.allows (boxes.new).boxes)
        (state_of (kept_of state.old)) (asked_for given.now) s' None × Reaches state.old state.new s')
        (λ e. CreateSubscriber (answers_of F.allows G.allows (boxes.new).boxes) (state_of (kept_of state.old))
        (asked_for given.now) (state_of (kept_of state.old)) (Some e) × (state.new ≡ state.old)) }
{
    let place = place_for_subscriber(state, given)?;
    let its = PortBoxes {
        backpressure: None,
        degradation,
    };
    let Ok(()) = reserve_for(boxes, &its) else {
        return Err(SubscriberCreateError::FailedToDeployThreadsafetyPolicy);
    };
    let id = admit_subscriber(state, place, given)?;
    keep_boxes(boxes, id.value(), its);
    update_first(state, boxes, place, id);
    Ok(PortAt { id, place })
}
