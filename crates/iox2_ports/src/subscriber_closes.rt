//! A subscriber closes.
ghost use Rattle.std.specs.Prelude.{◌≡◌, ◌<◌, ◌↔◌, None, Some, length, map, slice_index_or, IsSome, IsSomeAnd, IsTrue};
ghost use Rattle.slab.specs.Slab.{get};
ghost use Rattle.iox2_connections.specs.Link.{Link};
ghost use Rattle.iox2_machine.specs.machine.Ports.{subscriber_closed};
ghost use Rattle.iox2_domain.specs.Departures.{KnowsKey};
ghost use Rattle.iox2_domain.specs.Ports.{SubscriberFields};
ghost use Rattle.iox2_domain.specs.Kept.{state_of};
ghost use Rattle.iox2_domain.specs.Fields.{kept_of, subscriber_of};
ghost use Rattle.iox2_domain.specs.Invariant.{IsDomain};
ghost use Rattle.iox2_domain.specs.OpenMarks.{IsUnmarkedReceiver};
ghost use Rattle.iox2_domain.specs.Reaches.{Reaches};
ghost use Rattle.iox2_domain.specs.Updates.{changed_at};
ghost use Rattle.iox2_steps.specs.Agreement.{HasOwnedParts};
ghost use Rattle.iox2_steps.specs.Closes.{shut_subscriber, HasNoPublisher, IsBusy, IsStanding, ConnectionLosesWaiting, LosesIfLeft};

use iox2_connections::drops::drop_waiting_at;
use iox2_domain::{DomainState, SubscriberState, key_at, make_all_due, stands_at};
use iox2_updates::{forget_if_empty, leave_if_unused};

// The subscriber at a place takes no messages any more.
fn set_closed(subscribers: &mut [Option<SubscriberState>], place: usize)
    requires { IsSome (slice_index_or subscribers.old place None) }
    ensures { subscribers.new ≡ changed_at shut_subscriber subscribers.old place }
{
    if let Some(subscriber) = &mut subscribers[place] {
        subscriber.is_open = false;
    }
}

// How many expired keys the subscriber at a place has.
fn expired_count(subscribers: &[Option<SubscriberState>], place: usize) -> usize
    ensures { (y : SubscriberFields) → slice_index_or subscribers.now place None ≡ Some y → result ≡ length y.expired }
{
    match subscribers.get(place) {
        Some(Some(subscriber)) => subscriber.expired.len(),
        _ => 0,
    }
}

// The expired key at an index of the subscriber at a place.
fn expired_at(subscribers: &[Option<SubscriberState>], place: usize, index: usize) -> Option<usize>
    ensures { (y : SubscriberFields) → slice_index_or subscribers.now place None ≡ Some y → result ≡ slice_index_or (map Some y.expired) index None }
{
    match subscribers.get(place) {
        Some(Some(subscriber)) => subscriber.expired.get(index).copied(),
        _ => None,
    }
}

// At how many places of publishers the subscriber at a place may have keys.
fn key_count(subscribers: &[Option<SubscriberState>], place: usize) -> usize
    ensures { (y : SubscriberFields) → slice_index_or subscribers.now place None ≡ Some y → result ≡ length y.keys }
{
    match subscribers.get(place) {
        Some(Some(subscriber)) => subscriber.keys.len(),
        _ => 0,
    }
}

// Whether a connection is at the key, and its publisher is gone.
fn is_left<T: Drop, U: Default + Drop>(state: &DomainState<T, U>, key: usize) -> bool
    ensures { IsTrue result ↔ IsSomeAnd (get state.now.connections key) (λ c. IsStanding state.now.publishers c.home → ⊥) }
{
    match state.connections.get(key) {
        Some(connection) => {
            let home = connection.home();
            !stands_at(&state.publishers, home.publisher_place, home.publisher)
        }
        None => false,
    }
}

// What waits in the connection at a key, whose publisher is gone, is lost.
fn drop_waiting<T: Drop, U: Default + Drop>(state: &mut DomainState<T, U>, key: usize)
    requires parts { HasOwnedParts state.old }
    requires departed { IsSomeAnd (get state.old.connections key) (HasNoPublisher state.old.publishers) }
    ensures { (c : Link) → get state.old.connections key ≡ Some c → ConnectionLosesWaiting state.old key c state.new }
{
    let book = state.connections[key].home().book;
    drop_waiting_at(&mut state.connections, key, &mut state.books[book]);
}

// What waits for the subscriber at a place in its connection at a key is lost, if the publisher is
// gone. It forgets the connection then, if it has borrowed nothing from it.
fn drop_waiting_if_left<T: Drop, U: Default + Drop>(
    state: &mut DomainState<T, U>,
    place: usize,
    key: Option<usize>,
)
    requires parts { HasOwnedParts state.old }
    requires known { (k : _) → key ≡ Some k → (y : SubscriberFields) × (slice_index_or state.old.subscribers place None ≡ Some y) × KnowsKey y k }
    requires busy { (k : _) (c : Link) → get state.old.connections k ≡ Some c → HasNoPublisher state.old.publishers c → IsBusy c }
    ensures { LosesIfLeft state.old place key state.new }
{
    let Some(key) = key else {
        return;
    };
    if is_left(state, key) {
        let home = state.connections[key].home();
        drop_waiting(state, key);
        forget_if_empty(state, key, home);
        state.settle_book(home.book);
    }
}

/// Closes the subscriber at a place. None of its connections is marked as open.
pub(crate) fn close_subscriber<T: Drop, U: Default + Drop>(
    state: &mut DomainState<T, U>,
    place: usize,
)
    requires agrees { IsDomain state.old }
    requires stands { IsSome (slice_index_or state.old.subscribers place None) }
    requires unmarked { IsUnmarkedReceiver state.old.connections place }
    ensures { (y : SubscriberFields) → slice_index_or state.old.subscribers place None ≡ Some y
        → Reaches state.old state.new (subscriber_closed (state_of (kept_of state.old)) y.id ((subscriber_of state.old.books state.old.connections y).port)) }
{
    set_closed(&mut state.subscribers, place);
    for index in (0..expired_count(&state.subscribers, place)).rev() {
        let key = expired_at(&state.subscribers, place, index);
        drop_waiting_if_left(state, place, key);
    }
    for publisher_place in 0..key_count(&state.subscribers, place) {
        let key = key_at(&state.subscribers, place, publisher_place);
        drop_waiting_if_left(state, place, key);
    }
    make_all_due(&mut state.publishers);
    leave_if_unused(state, place);
}
