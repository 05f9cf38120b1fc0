//! A publisher enters a domain.
ghost use Rattle.std.specs.Prelude.{◌≡◌, ◌≢◌, ◌⊎◌, ℕ, true, None, Some, slice_index_or, IfOk, MatchResult, OnOk};
ghost use Rattle.iox2_machine.specs.machine.Limits.{segment_fits, warning_limit};
ghost use Rattle.iox2_machine.specs.machine.Ports.{CreatePublisher, slots_for, with_new_publisher};
ghost use Rattle.iox2_machine.specs.declared.errors.PublisherCreateError.TheVariants.{UnableToCreateDataSegment, FailedToDeployThreadsafetyPolicy};
ghost use Rattle.iox2_machine.specs.machine.State.{State};
ghost use Rattle.iox2_domain.specs.Ports.{PublisherFields};
ghost use Rattle.iox2_domain.specs.Kept.{state_of};
ghost use Rattle.iox2_domain.specs.Fields.{kept_of};
ghost use Rattle.iox2_domain.specs.Boxes.{answers_of, box_of, boxes_of, degradation_box_of};
ghost use Rattle.iox2_domain.specs.Handlers.{handler_if_any};
ghost use Rattle.iox2_connections.specs.Handlers.{marks_of};
ghost use Rattle.iox2_ports.specs.Handlers.{custom_box};
ghost use Rattle.iox2_ports.specs.Settings.{settings_with};
ghost use Rattle.iox2_machine.specs.declared.warning.Warning.TheVariants.{PublisherPartlyConnected};
ghost use Rattle.iox2_domain.specs.FirstUpdates.{PublisherFirstUpdates, failure_warned};
ghost use Rattle.iox2_domain.specs.WarningRing.{warning_ring};
ghost use Rattle.iox2_domain.specs.Invariant.{IsDomain};
ghost use Rattle.iox2_domain.specs.NewPublisher.{place_for_publisher};
ghost use Rattle.iox2_domain.specs.Reaches.{Reaches};

use crate::given_handlers::{box_in, keep_boxes, mark_of, reserve_for};
use crate::segments::{Segment, SegmentOptions, add_segment, first_segment, room_for};
use iox2_domain::{
    Boxes, DomainState, HandlerMark, PortAt, PortBoxes, PublisherOptions, PublisherState, Warnings,
    free_place, lists_wanted, make_all_due, put_at_place,
};
use iox2_machine::{
    BackpressureAction, BackpressureFn, BackpressureHandler, ConnectionFailure, DegradationFn,
    PublisherCreateError, UniqueNodeId, UniquePublisherId, Warning,
};
use iox2_updates::update_publisher;

// It is warned where the first update of a new publisher failed.
fn warn_of_failure(
    warnings: &mut Warnings,
    publisher: UniquePublisherId,
    failure: Option<ConnectionFailure>,
)
    requires { warnings.old.capacity ≡ warning_limit }
    ensures { warnings.new ≡ warning_ring (failure_warned (PublisherPartlyConnected publisher) failure warnings.old.items) warning_limit }
{
    if let Some(failure) = failure {
        warnings.warn(Warning::PublisherPartlyConnected { publisher, failure });
    }
}

// The new publisher at a place is updated for the first time, and it is warned if that fails.
fn update_first<T: Drop, U: Default + Drop, F: BackpressureFn, G: DegradationFn>(
    state: &mut DomainState<T, U>,
    boxes: &Boxes<F, G>,
    place: usize,
    publisher: UniquePublisherId,
)
    requires agrees { IsDomain state.old }
    requires stands { (x : PublisherFields) × (slice_index_or state.old.publishers place None ≡ Some x) × (x.id ≡ publisher) × (x.blocked ≡ None) }
    ensures { (x : PublisherFields) → slice_index_or state.old.publishers place None ≡ Some x
        → PublisherFirstUpdates (answers_of F.allows G.allows (boxes.now).boxes) state.old place x state.new }
{
    let failure = update_publisher(state, boxes, place);
    warn_of_failure(&mut state.warnings, publisher, failure);
}

// The place for a new publisher, or why it is refused.
fn place_for_publisher<T: Drop, U: Default + Drop>(
    state: &DomainState<T, U>,
) -> Result<usize, PublisherCreateError>
    ensures { result ≡ place_for_publisher state.now }
{
    if state.next_port == u128::MAX {
        return Err(PublisherCreateError::UnableToCreatePortTag);
    }
    match free_place(&state.publishers, state.config.max_publishers) {
        Some(place) => Ok(place),
        None => Err(PublisherCreateError::ExceedsMaxSupportedPublishers),
    }
}

// A publisher with these options and this first segment of slots enters at the place that it has,
// and every subscriber is due for an update. Returns its id, which was the next.
//
// If memory is refused it doesn't enter, and no id is used.
fn admit_publisher<T: Drop, U: Default + Drop>(
    state: &mut DomainState<T, U>,
    place: usize,
    given: &PublisherOptions,
    handler: Option<HandlerMark<BackpressureAction>>,
    segments: SegmentOptions,
    slots: usize,
) -> Result<UniquePublisherId, PublisherCreateError>
    requires agrees { IsDomain state.old }
    requires has_place { place_for_publisher state.old ≡ Ok place }
    requires slots { slots ≡ slots_for (state.old).config (settings_with given.now None segments) }
    requires size { segment_fits (state.old).config slots given.now.initial_max_slice_len ≡ true }
    ensures stands { OnOk result ((x : PublisherFields) × (slice_index_or state.new.publishers place None ≡ Some x)
        × (x.id ≡ state.old.next_port) × (x.blocked ≡ None)) }
    ensures id { IfOk result (λ id. id ≡ state.old.next_port) }
    ensures step { MatchResult result
        (λ _. Reaches state.old state.new (with_new_publisher (state_of (kept_of state.old)) (settings_with given.now (handler_if_any handler) segments) place))
        (λ e. Reaches state.old state.new (state_of (kept_of state.old)) × ((e ≡ UnableToCreateDataSegment) ⊎ (e ≡ FailedToDeployThreadsafetyPolicy))) }
{
    let id = UniquePublisherId::new(state.next_port);
    let key = state.books.vacant_key();
    let room = room_for(&state.config, slots, given.initial_max_slice_len);
    let in_lists = !state.config.is_single_valued();
    let lists = lists_wanted(&state.config, given.max_loaned_samples);
    let node = UniqueNodeId::new(state.config.node_id);
    let Ok(segment) = Segment::new(state.alloc, node, id, slots, room, in_lists, lists) else {
        return Err(PublisherCreateError::UnableToCreateDataSegment);
    };
    let entering = PublisherState::new(
        state.alloc,
        &state.config,
        id,
        place,
        key,
        given,
        handler,
        segments.allocation,
        slots,
    );
    let Ok(publisher) = entering else {
        return Err(PublisherCreateError::FailedToDeployThreadsafetyPolicy);
    };
    let Ok(()) = state.publishers.try_reserve(1) else {
        return Err(PublisherCreateError::FailedToDeployThreadsafetyPolicy);
    };
    let Ok(()) = add_segment(&mut state.books, &mut state.contents, segment) else {
        return Err(PublisherCreateError::UnableToCreateDataSegment);
    };
    make_all_due(&mut state.subscribers);
    put_at_place(&mut state.publishers, place, publisher);
    state.next_port += 1;
    Ok(id)
}

/// Makes a publisher with these options, and connects it with the subscribers that there are; it is
/// warned if that fails. If a receiver is full, the handler answers, or without one it follows
/// the strategy. If a connection can't be made, its options say what answers, or the box does that
/// is handed in. Boxes are kept among the boxes. Returns its id, which was the next, and its place.
///
/// `UnableToCreatePortTag` if no id is left, then `ExceedsMaxSupportedPublishers` if no
/// place is free, then `UnableToCreateDataSegment` if the segment's size doesn't fit `usize`.
/// After that `UnableToCreateDataSegment` or `FailedToDeployThreadsafetyPolicy` if memory for
/// the segment or for the port and its boxes is refused. No id is used then, and nothing changes that
/// can be seen.
pub fn create_publisher<T: Drop, U: Default + Drop, F: BackpressureFn, G: DegradationFn>(
    state: &mut DomainState<T, U>,
    boxes: &mut Boxes<F, G>,
    given: &PublisherOptions,
    handler: Option<BackpressureHandler<F>>,
    degradation: Option<G>,
    segments: SegmentOptions,
) -> Result<PortAt<UniquePublisherId>, PublisherCreateError>
    requires { IsDomain state.old }
    ensures id { IfOk result (λ port. port.id ≡ state.old.next_port) }
    ensures stands { IfOk result (λ port. (x : PublisherFields) × (slice_index_or state.new.publishers port.place None ≡ Some x) × (x.id ≡ port.id)) }
    ensures boxed { IfOk result (λ port. box_of port.id (boxes.new).boxes ≡ custom_box handler) }
    ensures degrades { IfOk result (λ port. degradation_box_of port.id (boxes.new).boxes ≡ degradation) }
    ensures others { (port : ℕ) → port ≢ state.old.next_port → boxes_of port (boxes.new).boxes ≡ boxes_of port (boxes.old).boxes }
    ensures step { MatchResult result
        (λ _. (s' : State T U) × CreatePublisher (answers_of F.allows G.allows (boxes.new).boxes)
        (state_of (kept_of state.old)) (settings_with given.now (marks_of handler) segments) s' None
        × Reaches state.old state.new s')
        (λ e. CreatePublisher (answers_of F.allows G.allows (boxes.new).boxes) (state_of (kept_of state.old))
        (settings_with given.now (marks_of handler) segments) (state_of (kept_of state.old)) (Some e)
        × Reaches state.old state.new (state_of (kept_of state.old))) }
{
    let place = place_for_publisher(state)?;
    let Some(slots) = first_segment(&state.config, given, segments) else {
        return Err(PublisherCreateError::UnableToCreateDataSegment);
    };
    let mark = mark_of(&handler);
    let its = PortBoxes {
        backpressure: box_in(handler),
        degradation,
    };
    let Ok(()) = reserve_for(boxes, &its) else {
        return Err(PublisherCreateError::FailedToDeployThreadsafetyPolicy);
    };
    let id = admit_publisher(state, place, given, mark, segments, slots)?;
    keep_boxes(boxes, id.value(), its);
    update_first(state, boxes, place, id);
    Ok(PortAt { id, place })
}
