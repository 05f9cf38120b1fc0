//! Ports that were closed leave, and with them what nobody else needs.
ghost use Rattle.std.specs.Prelude.{◌≡◌, ◌<◌, ◌↔◌, ℕ, false, Some, None, length, map, slice_index_or, IsTrue, IsSomeAnd};
ghost use Rattle.slab.specs.Slab.{get};
ghost use Rattle.iox2_connections.specs.Link.{Link, has_borrowed_slots, load};
ghost use Rattle.iox2_machine.specs.machine.Releases.{freed_if_unused};
ghost use Rattle.iox2_machine.specs.machine.WellFormed.{IsWellFormed, MailboxIsWellFormed};
ghost use Rattle.iox2_domain.specs.Departures.{BorrowsNothing, BorrowsSome, DropsUnshared, ForgetsConnection, HasKey, IsUnshared, KnowsKey};
ghost use Rattle.iox2_domain.specs.Fields.{kept_of};
ghost use Rattle.iox2_domain.specs.Invariant.{SenderHas, HasParts};
ghost use Rattle.iox2_domain.specs.Kept.{state_of};
ghost use Rattle.iox2_domain.specs.Reaches.{Reaches};
ghost use Rattle.iox2_domain.specs.Midway.{ChangesBooks, IsMidway};
ghost use Rattle.iox2_domain.specs.Ports.{SubscriberFields};

use iox2_connections::{Connection, Home, ListedKey};
use iox2_domain::{
    DomainState, PublisherState, SubscriberState, forget_at, key_at, make_all_due, stands_at,
};
use slab::Slab;

// The publisher of the connection at a key has it.
fn has_sender(publishers: &[Option<PublisherState>], key: usize, connection: &Connection) -> bool
    ensures { IsTrue result ↔ SenderHas publishers.now key connection.now }
{
    let home = connection.home();
    stands_at(publishers, home.publisher_place, home.publisher)
        && key_at(publishers, home.publisher_place, home.subscriber_place) == Some(key)
}

// The connection at a key is the subscriber's alone.
fn is_unshared(
    connections: &Slab<Connection>,
    publishers: &[Option<PublisherState>],
    subscriber: u128,
    key: usize,
) -> bool
    ensures unshared { IsTrue result → IsSomeAnd (get connections.now key) (IsUnshared publishers.now subscriber key) }
    ensures shared { result ≡ false → (c : Link) → get connections.now key ≡ Some c → c.home.subscriber ≡ subscriber → SenderHas publishers.now key c }
{
    match connections.get(key) {
        Some(connection) => {
            connection.home().subscriber == subscriber && !has_sender(publishers, key, connection)
        }
        None => false,
    }
}

// The connection at a key goes, if it is the subscriber's alone.
fn remove_if_unshared(
    connections: &mut Slab<Connection>,
    publishers: &[Option<PublisherState>],
    subscriber: u128,
    key: Option<usize>,
)
    ensures { DropsUnshared publishers.now subscriber (λ k. key ≡ Some k) connections.old connections.new }
{
    let Some(key) = key else {
        return;
    };
    if is_unshared(connections, publishers, subscriber, key) {
        connections.remove(key);
    }
}

// The connections at these keys go that are the subscriber's alone.
fn remove_at_keys<K: ListedKey>(
    connections: &mut Slab<Connection>,
    publishers: &[Option<PublisherState>],
    subscriber: u128,
    keys: &[K],
)
    ensures { DropsUnshared publishers.now subscriber (HasKey (map K.key_of keys.now)) connections.old connections.new }
{
    for index in 0..keys.len() {
        remove_if_unshared(connections, publishers, subscriber, keys[index].key());
    }
}

// The connections go that are the subscriber's alone.
fn remove_unshared(
    connections: &mut Slab<Connection>,
    publishers: &[Option<PublisherState>],
    subscriber: &SubscriberState,
)
    ensures { DropsUnshared publishers.now subscriber.now.id (KnowsKey subscriber.now) connections.old connections.new }
{
    let id = subscriber.id.value();
    remove_at_keys(connections, publishers, id, &subscriber.keys);
    remove_at_keys(connections, publishers, id, &subscriber.expired);
}

// The subscriber has borrowed something in the connection at a key.
fn borrows_at(connections: &Slab<Connection>, subscriber: u128, key: usize) -> bool
    ensures { IsTrue result ↔ IsSomeAnd (get connections.now key) (λ c. (c.home.subscriber ≡ subscriber) × IsTrue (has_borrowed_slots c)) }
{
    match connections.get(key) {
        Some(connection) => {
            connection.home().subscriber == subscriber && connection.has_borrowed()
        }
        None => false,
    }
}

// The same, if there is a key.
fn borrows_if_any(connections: &Slab<Connection>, subscriber: u128, key: Option<usize>) -> bool
    ensures some { IsTrue result → BorrowsSome connections.now subscriber }
    ensures nothing { result ≡ false → BorrowsNothing connections.now subscriber (λ k. key ≡ Some k) }
{
    match key {
        Some(key) => borrows_at(connections, subscriber, key),
        None => false,
    }
}

// The subscriber has borrowed something in a connection at these keys.
fn borrows_at_keys<K: ListedKey>(
    connections: &Slab<Connection>,
    subscriber: u128,
    keys: &[K],
) -> bool
    ensures some { IsTrue result → BorrowsSome connections.now subscriber }
    ensures nothing { result ≡ false → BorrowsNothing connections.now subscriber (HasKey (map K.key_of keys.now)) }
{
    for index in 0..keys.len() {
        if borrows_if_any(connections, subscriber, keys[index].key()) {
            return true;
        }
    }
    false
}

// The subscriber has borrowed something.
fn has_borrowed(connections: &Slab<Connection>, subscriber: &SubscriberState) -> bool
    ensures some { IsTrue result → BorrowsSome connections.now subscriber.now.id }
    ensures nothing { result ≡ false → BorrowsNothing connections.now subscriber.now.id (KnowsKey subscriber.now) }
{
    let id = subscriber.id.value();
    borrows_at_keys(connections, id, &subscriber.expired)
        || borrows_at_keys(connections, id, &subscriber.keys)
}

/// The subscriber at a place leaves if it was closed and has borrowed nothing any more. Then
/// its place is free, and every publisher is due. Its connections stay at the ends of publishers.
///
/// iceoryx2's `SubscriberSharedState`, which goes with the last sample (`src/port/subscriber.rs`).
pub fn leave_if_unused<T: Drop, U: Default + Drop>(state: &mut DomainState<T, U>, place: usize)
    requires consistent { HasParts state.old }
    requires stands { (y : SubscriberFields) × (slice_index_or state.old.subscribers place None ≡ Some y)
        × ((p : ℕ) → MailboxIsWellFormed (state_of (kept_of state.old)) p y.id) }
    ensures freed { (y : SubscriberFields) → slice_index_or state.old.subscribers place None ≡ Some y
        → (before : _) (s : _) (book : ℕ) → IsMidway before state.old s book → IsMidway before state.new (freed_if_unused s y.id) book }
{
    let Some(subscriber) = &state.subscribers[place] else {
        unreachable!()
    };
    if subscriber.is_open || has_borrowed(&state.connections, subscriber) {
        return;
    }
    remove_unshared(&mut state.connections, &state.publishers, subscriber);
    state.subscribers[place] = None;
    make_all_due(&mut state.publishers);
}

/// The subscriber of the connection at a key, whose publisher is gone, forgets the connection if
/// no slot is in it, and the connection goes.
///
/// iceoryx2's `Receiver::release_offset` (`src/port/details/receiver.rs`).
pub fn forget_if_empty<T: Drop, U: Default + Drop>(
    state: &mut DomainState<T, U>,
    key: usize,
    home: Home,
)
    requires home { IsSomeAnd (get state.old.connections key) (λ c. c.home ≡ home) }
    requires stands { home.subscriber_place < length state.old.subscribers }
    requires only { (y : SubscriberFields) → slice_index_or state.old.subscribers home.subscriber_place None ≡ Some y
        → (i : ℕ) → slice_index_or y.keys i None ≡ Some key → i ≡ home.publisher_place }
    ensures empty { (c : Link) → get state.old.connections key ≡ Some c → load c ≡ 0 → ForgetsConnection state.old home.subscriber_place key state.new }
    ensures full { (c : Link) → get state.old.connections key ≡ Some c → (load c ≡ 0 → ⊥) → state.new ≡ state.old }
{
    if state.connections[key].is_empty() {
        state.connections.remove(key);
        forget_at(
            &mut state.subscribers,
            home.subscriber_place,
            home.publisher_place,
            key,
        );
    }
}

/// The book at a key goes, with its contents, if its publisher is gone and no slot of it has a
/// holder any more.
pub fn settle_book_if_left<T: Drop, U: Default + Drop>(state: &mut DomainState<T, U>, key: usize)
    requires { HasParts state.old }
    ensures kept { (before : _) (s : _) → IsMidway before state.old s key → state_of (kept_of state.old) ≡ s → IsWellFormed s → Reaches before state.new s }
    ensures books { ChangesBooks state.old state.new }
{
    let Some(book) = state.books.get(key) else {
        return;
    };
    if book.is_unused() && state.find_publisher(book.publisher(), 0).is_none() {
        state.remove_book(key);
    }
}
