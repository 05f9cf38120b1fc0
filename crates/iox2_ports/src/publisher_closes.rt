//! A publisher closes.
ghost use Rattle.std.specs.Prelude.{◌≡◌, ◌↔◌, ◌<◌, None, Some, length, map, slice_index_or, IsSomeAnd, IsTrue};
ghost use Rattle.std.specs.Option.{option_map, option_and_then};
ghost use Rattle.slab.specs.Slab.{get, Updates};
ghost use Rattle.iox2_machine.specs.machine.Ports.{publisher_closed};
ghost use Rattle.iox2_connections.specs.Counters.{IsCovered, CountersFollow, with_counters};
ghost use Rattle.iox2_connections.specs.Leaves.{holds_slots};
ghost use Rattle.iox2_domain.specs.Ports.{PublisherFields};
ghost use Rattle.iox2_domain.specs.Kept.{state_of};
ghost use Rattle.iox2_domain.specs.Fields.{kept_of, publisher_of};
ghost use Rattle.iox2_domain.specs.Invariant.{IsDomain};
ghost use Rattle.iox2_domain.specs.OpenMarks.{IsUnmarkedSender};
ghost use Rattle.iox2_domain.specs.Updates.{IsUnblockedAt};
ghost use Rattle.iox2_domain.specs.Reaches.{ReachesBut, Reaches};
ghost use Rattle.iox2_domain.specs.Departures.{HasKey};
ghost use Rattle.iox2_ports.specs.Leaves.{LeavesCounted};
ghost use Rattle.iox2_domain.specs.Closes.{is_awaited, after_close, left_subscriber, FindsAll, LeavesConnections, SomeHasKey};

use iox2_connections::Connection;
use iox2_connections::leaving::{leave, let_go_of_history};
use iox2_domain::{DomainState, Port, PublisherState, SubscriberState, key_at};
use iox2_slots::SlotBook;
use iox2_updates::settle_book_if_left;
use slab::Slab;

// Whether the subscriber of a connection, which is at a key, is open and has it there.
fn is_awaited(subscribers: &[Option<SubscriberState>], key: usize, connection: &Connection) -> bool
    ensures { result ≡ is_awaited subscribers.now key connection.now }
{
    let home = connection.home();
    match subscribers.get(home.subscriber_place) {
        Some(Some(subscriber)) => {
            subscriber.id.value() == home.subscriber
                && subscriber.is_open
                && subscriber.key(home.publisher_place) == Some(key)
        }
        _ => false,
    }
}

// Whether some slot waits in a connection, in whatever channel, or is borrowed.
fn holds_slots(connection: &Connection) -> bool
    ensures { result ≡ holds_slots connection.now }
{
    connection.has_data() || connection.has_borrowed() || connection.has_other_data()
}

// Whether a connection of the publisher is at a key.
fn is_publishers(connections: &Slab<Connection>, key: usize, publisher: u128) -> bool
    ensures { IsTrue result ↔ IsSomeAnd (get connections.now key) (λ c. c.home.publisher ≡ publisher) }
{
    match connections.get(key) {
        Some(connection) => connection.home().publisher == publisher,
        None => false,
    }
}

// The publisher leaves its connection at a key, which goes if no slot waits or is borrowed.
fn leave_own(
    publisher: u128,
    subscribers: &[Option<SubscriberState>],
    connections: &mut Slab<Connection>,
    book: &mut SlotBook,
    key: usize,
)
    requires own { IsSomeAnd (get connections.old key) (λ c. c.home.publisher ≡ publisher) }
    requires covered { IsCovered publisher book.old.holders connections.old.slots }
    ensures connections { Updates connections.old connections.new key (option_and_then (after_close publisher subscribers.now key) (get connections.old key)) }
    ensures book { book.new ≡ with_counters book.old book.new.holders }
    ensures counters { CountersFollow publisher book.old.holders connections.old.slots book.new.holders connections.new.slots }
    ensures slots { length book.new.holders ≡ length book.old.holders }
{
    let awaited = is_awaited(subscribers, key, &connections[key]);
    leave(&mut connections[key], book, awaited);
    if !holds_slots(&connections[key]) {
        let _ = connections.remove(key);
    }
}

// The publisher leaves its connection at a key, if it has one there.
fn leave_at(
    publisher: u128,
    subscribers: &[Option<SubscriberState>],
    connections: &mut Slab<Connection>,
    book: &mut SlotBook,
    key: Option<usize>,
)
    requires covered { IsCovered publisher book.old.holders connections.old.slots }
    ensures { LeavesCounted publisher subscribers.now (λ k. key ≡ Some k) connections.old book.old connections.new book.new }
{
    let Some(key) = key else {
        return;
    };
    if is_publishers(connections, key, publisher) {
        leave_own(publisher, subscribers, connections, book, key);
    }
}

// The publisher leaves its connections at its own keys.
fn leave_keys(
    publisher: u128,
    keys: &[Option<usize>],
    subscribers: &[Option<SubscriberState>],
    connections: &mut Slab<Connection>,
    book: &mut SlotBook,
)
    requires covered { IsCovered publisher book.old.holders connections.old.slots }
    ensures { LeavesCounted publisher subscribers.now (HasKey keys.now) connections.old book.old connections.new book.new }
{
    for index in 0..keys.len() {
        leave_at(publisher, subscribers, connections, book, keys[index]);
    }
}

// The publisher leaves its connections that subscribers have at its place.
fn leave_subscribers(
    publisher: u128,
    place: usize,
    subscribers: &[Option<SubscriberState>],
    connections: &mut Slab<Connection>,
    book: &mut SlotBook,
)
    requires covered { IsCovered publisher book.old.holders connections.old.slots }
    ensures { LeavesCounted publisher subscribers.now (SomeHasKey subscribers.now place) connections.old book.old connections.new book.new }
{
    for index in 0..subscribers.len() {
        let key = key_at(subscribers, index, place);
        leave_at(publisher, subscribers, connections, book, key);
    }
}

// The publisher leaves each of its connections: those at its keys, and those that a subscriber
// alone has.
fn leave_connections(
    publisher: &PublisherState,
    place: usize,
    subscribers: &[Option<SubscriberState>],
    connections: &mut Slab<Connection>,
    book: &mut SlotBook,
)
    requires covered { IsCovered publisher.now.id book.old.holders connections.old.slots }
    requires found { FindsAll publisher.now place subscribers.now connections.old }
    ensures connections { LeavesConnections publisher.now.id subscribers.now connections.old connections.new }
    ensures book { book.new ≡ with_counters book.old book.new.holders }
    ensures counters { CountersFollow publisher.now.id book.old.holders connections.old.slots book.new.holders connections.new.slots }
    ensures slots { length book.new.holders ≡ length book.old.holders }
{
    let id = publisher.id.value();
    leave_keys(id, &publisher.keys, subscribers, connections, book);
    leave_subscribers(id, place, subscribers, connections, book);
}

// Takes away the subscriber's key at a publisher's place, if its connection is gone, and makes it
// due for an update.
fn forget(subscriber: &mut SubscriberState, connections: &Slab<Connection>, place: usize)
    ensures { subscriber.new ≡ left_subscriber connections.now place subscriber.old }
{
    let is_there = match subscriber.key(place) {
        Some(key) => connections.contains(key),
        None => true,
    };
    if !is_there {
        subscriber.keys[place] = None;
    }
    subscriber.is_due = true;
}

fn forget_if_any(
    subscriber: &mut Option<SubscriberState>,
    connections: &Slab<Connection>,
    place: usize,
)
    ensures { subscriber.new ≡ option_map (left_subscriber connections.now place) subscriber.old }
{
    if let Some(subscriber) = subscriber {
        forget(subscriber, connections, place);
    }
}

// Each subscriber forgets the publisher at a place, if its connection is gone.
fn forget_everywhere(
    subscribers: &mut [Option<SubscriberState>],
    connections: &Slab<Connection>,
    place: usize,
)
    ensures { subscribers.new ≡ map (option_map (left_subscriber connections.now place)) subscribers.old }
{
    for index in 0..subscribers.len() {
        forget_if_any(&mut subscribers[index], connections, place);
    }
}

// The publisher at a place leaves, with its connections, its history and its place. Returns the key
// of its book.
fn leave_domain<T: Drop, U: Default + Drop>(state: &mut DomainState<T, U>, place: usize) -> usize
    requires agrees { IsDomain state.old }
    requires stands { (x : PublisherFields) × (slice_index_or state.old.publishers place None ≡ Some x) }
    requires unmarked { IsUnmarkedSender state.old.connections place }
    requires unblocked { IsUnblockedAt state.old.publishers place }
    ensures { (x : PublisherFields) → slice_index_or state.old.publishers place None ≡ Some x
        → (result ≡ x.book) × ReachesBut x.book state.old state.new
        (publisher_closed (state_of (kept_of state.old)) x.id (publisher_of (state.old).books (state.old).connections x).port) }
{
    let Some(publisher) = state.publishers[place].take() else {
        unreachable!();
    };
    let book = &mut state.books[publisher.book];
    leave_connections(
        &publisher,
        place,
        &state.subscribers,
        &mut state.connections,
        book,
    );
    let_go_of_history(&publisher.history, book);
    forget_everywhere(&mut state.subscribers, &state.connections, place);
    publisher.book
}

/// Closes the publisher at a place. None of its connections is marked as open, and it has no blocked
/// delivery.
pub(crate) fn close_publisher<T: Drop, U: Default + Drop>(
    state: &mut DomainState<T, U>,
    place: usize,
)
    requires agrees { IsDomain state.old }
    requires stands { (x : PublisherFields) × (slice_index_or state.old.publishers place None ≡ Some x) }
    requires unmarked { IsUnmarkedSender state.old.connections place }
    requires unblocked { IsUnblockedAt state.old.publishers place }
    ensures { (x : PublisherFields) → slice_index_or state.old.publishers place None ≡ Some x
        → Reaches state.old state.new
        (publisher_closed (state_of (kept_of state.old)) x.id (publisher_of (state.old).books (state.old).connections x).port) }
{
    let key = leave_domain(state, place);
    settle_book_if_left(state, key);
}
