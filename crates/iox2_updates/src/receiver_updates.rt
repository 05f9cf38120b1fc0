//! A subscriber's update, whichever publishers were closed.
ghost use Rattle.std.specs.Prelude.{◌≡◌, ◌<◌, ◌==◌, true, None, Some, length, slice_index_or, MatchOption};
ghost use Rattle.std.specs.Option.{option_map};
ghost use Rattle.slab.specs.Slab.{get, ContainsKey};
ghost use Rattle.iox2_connections.specs.Link.{Link};
ghost use Rattle.iox2_machine.specs.machine.Connections.{expired_buffer_full};
ghost use Rattle.iox2_machine.specs.machine.Environments.{fixed_handlers};
ghost use Rattle.iox2_domain.specs.Boxes.{answers_of};
ghost use Rattle.iox2_domain.specs.Ports.{PublisherFields, SubscriberFields};
ghost use Rattle.iox2_domain.specs.Invariant.{IsDomain};
ghost use Rattle.iox2_updates.specs.Ends.{IsReceiverDue, MeetAt};
ghost use Rattle.iox2_domain.specs.ReceiverSteps.{NotJoined, JoinsAt, ConnectsEnd, ConnectsAt, DisconnectsAt, UpdatesReceiver};

use crate::connects::{make_between, ports_at};
use crate::failures::{ask, degrade, first_of};
use crate::places::Places;
use crate::retirements::retire;
use iox2_domain::{
    Boxes, DomainState, PublisherState, clear_due, degradation_at, is_due_at, key_at, set_key_at,
};
use iox2_machine::{BackpressureFn, ConnectionFailure, DegradationFn, ZeroCopyCreationError};

// The id of the publisher at a place.
fn publisher_at(publishers: &[Option<PublisherState>], place: usize) -> Option<u128>
    requires { place < length publishers.now }
    ensures { result ≡ option_map (λ (x : PublisherFields). x.id) (slice_index_or publishers.now place None) }
{
    match &publishers[place] {
        Some(publisher) => Some(publisher.id.value()),
        None => None,
    }
}

// The failure of an update that couldn't retire a departed publisher.
fn expired_full() -> ConnectionFailure
    ensures { result ≡ expired_buffer_full }
{
    ConnectionFailure::FailedToEstablishConnection(
        ZeroCopyCreationError::ExpiredConnectionBufferFull,
    )
}

// At a place where no publisher is, the one that the subscriber has its end to is retired.
fn disconnect_at<T: Drop, U: Default + Drop>(
    state: &mut DomainState<T, U>,
    at: Places,
) -> Option<ConnectionFailure>
    requires agrees { IsDomain state.old }
    requires publisher { at.publisher < length state.old.publishers }
    ensures { (y : SubscriberFields) → slice_index_or state.old.subscribers at.subscriber None ≡ Some y
        → DisconnectsAt fixed_handlers state.old at.subscriber at.publisher y state.new result }
{
    if publisher_at(&state.publishers, at.publisher).is_some() {
        return None;
    }
    let Some(key) = key_at(&state.subscribers, at.subscriber, at.publisher) else {
        return None;
    };
    if retire(state, at, key) {
        None
    } else {
        Some(expired_full())
    }
}

// The key of the connection with the subscriber at a place that the publisher at another has, if it
// has one.
fn joined_key<T: Drop, U: Default + Drop>(
    state: &DomainState<T, U>,
    at: Places,
    subscriber: u128,
) -> Option<usize>
    requires agrees { IsDomain state.now }
    ensures { (x : PublisherFields) → slice_index_or state.now.publishers at.publisher None ≡ Some x
        → MatchOption result (NotJoined state.now x at.subscriber subscriber) (λ key. JoinsAt state.now x at.subscriber subscriber key) }
{
    let key = key_at(&state.publishers, at.publisher, at.subscriber)?;
    if state.connections[key].home().subscriber == subscriber {
        Some(key)
    } else {
        None
    }
}

// The subscriber at a place gets its end to the publisher at another, at whose place it has none.
// If memory for a connection is refused, its handler is asked, and the failure is returned that it
// makes of this, if any.
fn connect_end<T: Drop, U: Default + Drop, F: BackpressureFn, G: DegradationFn>(
    state: &mut DomainState<T, U>,
    boxes: &Boxes<F, G>,
    at: Places,
) -> Option<ConnectionFailure>
    requires { MeetAt state.old at None }
    ensures { (meet : MeetAt state.old at None)
        → ConnectsEnd (answers_of F.allows G.allows (boxes.now).boxes) state.old at.subscriber at.publisher
        meet.subscriber meet.publisher.id state.new result }
{
    let (home, buffer) = ports_at(state, at);
    if let Some(key) = joined_key(state, at, home.subscriber) {
        set_key_at(&mut state.subscribers, at.subscriber, at.publisher, key);
        return None;
    }
    let mark = degradation_at(&state.subscribers, at.subscriber);
    let service_id = state.config.service_id;
    let Ok(key) = make_between(state, at, home, buffer) else {
        let answer = ask(mark, boxes, home.subscriber, service_id, home);
        return degrade(&mut state.warnings, answer, home);
    };
    set_key_at(&mut state.subscribers, at.subscriber, at.publisher, key);
    None
}

// Whether the connection at a key is the publisher's.
fn is_publishers<T: Drop, U: Default + Drop>(
    state: &DomainState<T, U>,
    key: usize,
    publisher: u128,
) -> bool
    requires { ContainsKey state.now.connections key }
    ensures { (c : Link) → get state.now.connections key ≡ Some c → result ≡ (c.home.publisher == publisher) }
{
    state.connections[key].home().publisher == publisher
}

// The subscriber at a place, which has its end at this key at a publisher's place, keeps it if it
// leads to the publisher that is there, and else gets one in its place.
fn replace_end<T: Drop, U: Default + Drop, F: BackpressureFn, G: DegradationFn>(
    state: &mut DomainState<T, U>,
    boxes: &Boxes<F, G>,
    at: Places,
    key: usize,
    publisher: u128,
) -> Option<ConnectionFailure>
    requires meet { MeetAt state.old at (Some key) }
    requires publisher { (meet : MeetAt state.old at (Some key)) → meet.publisher.id ≡ publisher }
    ensures { (meet : MeetAt state.old at (Some key))
        → ConnectsAt (answers_of F.allows G.allows (boxes.now).boxes) state.old at.subscriber at.publisher
        meet.subscriber state.new result }
{
    if is_publishers(state, key, publisher) {
        return None;
    }
    if retire(state, at, key) {
        connect_end(state, boxes, at)
    } else {
        Some(expired_full())
    }
}

// At a place where a publisher is, the subscriber keeps its end to it or gets one, after the one
// that it has to another was retired.
fn connect_at<T: Drop, U: Default + Drop, F: BackpressureFn, G: DegradationFn>(
    state: &mut DomainState<T, U>,
    boxes: &Boxes<F, G>,
    at: Places,
) -> Option<ConnectionFailure>
    requires agrees { IsDomain state.old }
    requires publisher { at.publisher < length state.old.publishers }
    requires subscriber { (y : SubscriberFields) × (slice_index_or state.old.subscribers at.subscriber None ≡ Some y) }
    ensures { (y : SubscriberFields) → slice_index_or state.old.subscribers at.subscriber None ≡ Some y
        → ConnectsAt (answers_of F.allows G.allows (boxes.now).boxes) state.old at.subscriber at.publisher y state.new result }
{
    let Some(publisher) = publisher_at(&state.publishers, at.publisher) else {
        return None;
    };
    match key_at(&state.subscribers, at.subscriber, at.publisher) {
        Some(key) => replace_end(state, boxes, at, key, publisher),
        None => connect_end(state, boxes, at),
    }
}

/// Updates the subscriber at a place, if it is due: it gets its connection with each publisher, by
/// rising place, and the publishers that departed are retired from their places. If memory for a
/// connection is refused, its handler is asked, which may fail the update. If a retirement is
/// refused, the update fails, and the subscriber is due again.
///
/// iceoryx2's `Subscriber::force_update_connections` (`src/port/subscriber.rs`).
pub fn update_subscriber<T: Drop, U: Default + Drop, F: BackpressureFn, G: DegradationFn>(
    state: &mut DomainState<T, U>,
    boxes: &Boxes<F, G>,
    place: usize,
) -> Option<ConnectionFailure>
    requires agrees { IsDomain state.old }
    requires stands { (y : SubscriberFields) × (slice_index_or state.old.subscribers place None ≡ Some y) }
    ensures { (y : SubscriberFields) → slice_index_or state.old.subscribers place None ≡ Some y
        → UpdatesReceiver (answers_of F.allows G.allows (boxes.now).boxes) state.old place y state.new result }
{
    if is_due_at(&state.subscribers, place) {
        walk_places(state, boxes, place)
    } else {
        None
    }
}

// The subscriber at a place, which is due, goes over the publishers' places, and then over the empty
// ones.
#[inline(never)]
fn walk_places<T: Drop, U: Default + Drop, F: BackpressureFn, G: DegradationFn>(
    state: &mut DomainState<T, U>,
    boxes: &Boxes<F, G>,
    place: usize,
) -> Option<ConnectionFailure>
    requires { IsReceiverDue state.old place }
    ensures { (due : IsReceiverDue state.old place)
        → UpdatesReceiver (answers_of F.allows G.allows (boxes.now).boxes) state.old place due.subscriber state.new
        result }
{
    clear_due(&mut state.subscribers, place);
    let mut first = None;
    for other in 0..state.publishers.len() {
        let at = Places {
            publisher: other,
            subscriber: place,
        };
        let failure = connect_at(state, boxes, at);
        first = first_of(first, failure);
    }
    let mut later = None;
    for empty in 0..state.publishers.len() {
        let at = Places {
            publisher: empty,
            subscriber: place,
        };
        let failure = disconnect_at(state, at);
        later = first_of(later, failure);
    }
    first_of(first, later)
}
