//! Ports get their connections, one place after the other.
ghost use Rattle.std.specs.Prelude.{◌≡◌, ℕ, ◌<◌, ◌≤◌, true, Some, None, length, slice_index_or, [], IsSomeAnd, IfOk, OnOk, OnErr, MatchResult};
ghost use Rattle.slab.specs.Slab.{get};
ghost use Rattle.iox2_machine.specs.machine.Limits.{channel_count};
ghost use Rattle.iox2_connections.specs.Link.{Link};
ghost use Rattle.iox2_domain.specs.Boxes.{answers_of};
ghost use Rattle.iox2_domain.specs.Ports.{PublisherFields, SubscriberFields};
ghost use Rattle.iox2_domain.specs.Updates.{MakesConnection, StandApart, home_of, is_open_subscriber, key_from, sender_key};
ghost use Rattle.iox2_domain.specs.Invariant.{IsDomain, ReceiverHas, connection_count};
ghost use Rattle.iox2_domain.specs.Connects.{MakesRoom, MakesSenderEnd, ConnectsSender};
ghost use Rattle.iox2_domain.specs.Drops.{HasEnd, LosesSenderEnd, LosesWaiting, StandsElsewhere};
ghost use Rattle.iox2_domain.specs.Histories.{HasNewEnd, HandsOut};
ghost use Rattle.iox2_updates.specs.Ends.{IsSettledAt};
ghost use Rattle.iox2_updates.specs.Holders.{GainsHolders, HasCountRoom};

use crate::failures::{ask, degrade};
use crate::marks::mark_end;
use crate::places::Places;
use iox2_connections::sender::{deliver_history, drop_all, remove_connection};
use iox2_connections::{Connection, Home};
use iox2_domain::{
    Boxes, DomainState, PublisherState, SubscriberState, clear_key_at, degradation_at, is_open_at,
    key_at, reserve_connection_at, reserve_key_at, set_key_at, stands_at,
};
use iox2_machine::{BackpressureFn, ConnectionFailure, DegradationFn, ServiceConfig};
use slab::Slab;
use std::alloc::{AllocError, Global};

fn home_of(at: Places, publisher: &PublisherState, subscriber: &SubscriberState) -> Home
    ensures { result ≡ home_of at.publisher at.subscriber publisher.now subscriber.now }
{
    Home {
        publisher: publisher.id.value(),
        subscriber: subscriber.id.value(),
        publisher_place: at.publisher,
        subscriber_place: at.subscriber,
        book: publisher.book,
    }
}

// Makes a connection with `channels` channels and no slot in it, and returns its key.
fn make_connection(
    alloc: Global,
    connections: &mut Slab<Connection>,
    home: Home,
    buffer: usize,
    limit: usize,
    channels: usize,
) -> Result<usize, AllocError>
    requires buffer { 0 < buffer }
    requires channels { 0 < channels }
    ensures made { IfOk result (λ key. MakesConnection connections.old home buffer limit channels key connections.new) }
    ensures refused { OnErr result (connections.new ≡ record connections.old { capacity = connections.new.capacity }) }
{
    let connection = Connection::new(alloc, home, buffer, limit, channels)?;
    match connections.insert(connection) {
        Ok(key) => Ok(key),
        Err(_) => Err(AllocError),
    }
}

// Where the connection of the ports at these places stands, and how many slots may wait there.
pub(crate) fn ports_at<T: Drop, U: Default + Drop>(
    state: &DomainState<T, U>,
    at: Places,
) -> (Home, usize)
    requires publisher { (x : PublisherFields) × (slice_index_or state.now.publishers at.publisher None ≡ Some x) }
    requires subscriber { (y : SubscriberFields) × (slice_index_or state.now.subscribers at.subscriber None ≡ Some y) }
    ensures { StandApart state.now.publishers state.now.subscribers at.publisher at.subscriber result.0 result.1 }
{
    let (Some(publisher), Some(subscriber)) = (
        &state.publishers[at.publisher],
        &state.subscribers[at.subscriber],
    ) else {
        unreachable!()
    };
    (home_of(at, publisher, subscriber), subscriber.buffer)
}

// How many channels each connection has.
fn channel_count(config: &ServiceConfig) -> usize
    ensures count { result ≡ channel_count config.now }
    ensures some { 0 < result }
{
    config.number_of_channels.max(1)
}

// How many connections the subscriber at a place has at most: the key of each is one of its own, an
// expired one, or a publisher's for its place. So they needn't be counted.
fn most_connections<T: Drop, U: Default + Drop>(state: &DomainState<T, U>, place: usize) -> usize
    requires agrees { IsDomain state.now }
    requires subscriber { (y : SubscriberFields) × (slice_index_or state.now.subscribers place None ≡ Some y) }
    ensures { (y : SubscriberFields) → slice_index_or state.now.subscribers place None ≡ Some y → connection_count state.now.connections y.id ≤ result }
{
    let Some(subscriber) = &state.subscribers[place] else {
        unreachable!();
    };
    let known = subscriber.keys.len() + subscriber.expired.len();
    known
        .saturating_add(state.publishers.len())
        .min(state.connections.len())
}

// Makes a connection with no slot in it, and with room for its key in the ports at these places, also
// where it is to expire. Returns its key.
pub(crate) fn make_between<T: Drop, U: Default + Drop>(
    state: &mut DomainState<T, U>,
    at: Places,
    home: Home,
    buffer: usize,
) -> Result<usize, AllocError>
    requires agrees { IsDomain state.old }
    requires apart { StandApart state.old.publishers state.old.subscribers at.publisher at.subscriber home buffer }
    requires buffer { 0 < buffer }
    ensures grows { MakesRoom state.old at.publisher at.subscriber state.new }
    ensures sender_room { OnOk result ((x : PublisherFields) → slice_index_or state.new.publishers at.publisher None ≡ Some x → at.subscriber < x.key_room) }
    ensures receiver_room { OnOk result ((y : SubscriberFields)
        → slice_index_or state.new.subscribers at.subscriber None ≡ Some y → at.publisher < y.key_room) }
    ensures expired_room { OnOk result ((y : SubscriberFields)
        → slice_index_or state.new.subscribers at.subscriber None ≡ Some y
        → connection_count (state.old).connections home.subscriber < y.expired_room) }
    ensures made { IfOk result (λ key. MakesConnection (state.old).connections home buffer
        (state.old).config.subscriber_max_borrowed_samples (channel_count (state.old).config) key
        (state.new).connections) }
    ensures refused { OnErr result ((state.new).connections ≡ record (state.old).connections { capacity = (state.new).connections.capacity }) }
{
    let most = most_connections(state, at.subscriber);
    reserve_key_at(&mut state.publishers, at.publisher, at.subscriber)?;
    reserve_connection_at(&mut state.subscribers, at.subscriber, at.publisher, most)?;
    let limit = state.config.subscriber_max_borrowed_samples;
    let channels = channel_count(&state.config);
    make_connection(
        state.alloc,
        &mut state.connections,
        home,
        buffer,
        limit,
        channels,
    )
}

// The key, if it leads to a connection of the publisher.
fn key_from(connections: &Slab<Connection>, publisher: u128, key: Option<usize>) -> Option<usize>
    ensures { result ≡ key_from connections.now publisher key }
{
    let found = key?;
    match connections.get(found) {
        Some(connection) if connection.home().publisher == publisher => Some(found),
        _ => None,
    }
}

// The publisher at a place that isn't due gets its end at the place of an open subscriber, if it
// has none. Returns the key of its connection, with no slot in it: the one that the subscriber
// has with this very publisher, or a new one. If memory for a new one is refused, the publisher's
// handler is asked, and the failure is returned that it makes of this, if any.
fn make_sender_end<T: Drop, U: Default + Drop, F: BackpressureFn, G: DegradationFn>(
    state: &mut DomainState<T, U>,
    boxes: &Boxes<F, G>,
    at: Places,
) -> Result<usize, Option<ConnectionFailure>>
    requires settled { IsSettledAt state.old at }
    requires opened { is_open_subscriber state.old.subscribers at.subscriber ≡ true }
    requires none { sender_key state.old.publishers at.publisher at.subscriber ≡ None }
    ensures made { (settled : IsSettledAt state.old at)
        → MatchResult result (λ key. MakesSenderEnd (answers_of F.allows G.allows (boxes.now).boxes) state.old
        at.publisher at.subscriber settled.publisher key state.new)
        (λ failure. ConnectsSender (answers_of F.allows G.allows (boxes.now).boxes) state.old at.publisher at.subscriber settled.publisher state.new failure) }
    ensures books { (state.new).books ≡ (state.old).books }
{
    let (home, buffer) = ports_at(state, at);
    let other = key_at(&state.subscribers, at.subscriber, at.publisher);
    if let Some(key) = key_from(&state.connections, home.publisher, other) {
        set_key_at(&mut state.publishers, at.publisher, at.subscriber, key);
        return Ok(key);
    }
    let mark = degradation_at(&state.publishers, at.publisher);
    let service_id = state.config.service_id;
    let Ok(key) = make_between(state, at, home, buffer) else {
        let answer = ask(mark, boxes, home.publisher, service_id, home);
        return Err(degrade(&mut state.warnings, answer, home));
    };
    set_key_at(&mut state.publishers, at.publisher, at.subscriber, key);
    Ok(key)
}

// Puts the last messages of the history of the publisher at a place into its connection at a key, in
// which no slot is.
fn hand_out_history<T: Drop, U: Default + Drop>(
    state: &mut DomainState<T, U>,
    publisher_place: usize,
    key: usize,
)
    requires agrees { IsDomain state.old }
    requires new_end { HasNewEnd state.old publisher_place key }
    requires few { (end : HasNewEnd state.old publisher_place key) → HasCountRoom (state.old).books end.publisher.book }
    ensures out { (end : HasNewEnd state.old publisher_place key) → HandsOut state.old end.publisher end.link state.new }
    ensures gains { GainsHolders 1 (state.old).books (state.new).books }
{
    let Some(publisher) = &state.publishers[publisher_place] else {
        unreachable!();
    };
    deliver_history(
        &publisher.history,
        &mut state.connections[key],
        &mut state.books[publisher.book],
    );
}

// The publisher at a place that isn't due, with no end at a subscriber's place, gets one if an open
// subscriber is there. The last messages of its history wait in it, as many as fit, unless its
// channel is closed. If memory for a connection is refused, its handler is asked.
fn connect_sender<T: Drop, U: Default + Drop, F: BackpressureFn, G: DegradationFn>(
    state: &mut DomainState<T, U>,
    boxes: &Boxes<F, G>,
    at: Places,
) -> Option<ConnectionFailure>
    requires settled { IsSettledAt state.old at }
    requires none { sender_key state.old.publishers at.publisher at.subscriber ≡ None }
    requires few { (settled : IsSettledAt state.old at) → HasCountRoom (state.old).books settled.publisher.book }
    ensures connects { (settled : IsSettledAt state.old at)
        → ConnectsSender (answers_of F.allows G.allows (boxes.now).boxes) state.old at.publisher at.subscriber
        settled.publisher state.new result }
    ensures gains { GainsHolders 1 (state.old).books (state.new).books }
{
    if !is_open_at(&state.subscribers, at.subscriber) {
        return None;
    }
    match make_sender_end(state, boxes, at) {
        Ok(key) => {
            if state.connections[key].is_closed(0) {
                return None;
            }
            hand_out_history(state, at.publisher, key);
            mark_end(state, at.publisher, at.subscriber);
            None
        }
        Err(failure) => failure,
    }
}

// What waits in the connection at a key, an end of the publisher at a place, is lost.
fn drop_waiting_at<T: Drop, U: Default + Drop>(
    state: &mut DomainState<T, U>,
    publisher_place: usize,
    key: usize,
)
    requires agrees { IsDomain state.old }
    requires end { (subscriber_place : ℕ) × HasEnd state.old publisher_place subscriber_place key }
    ensures gains { GainsHolders 0 (state.old).books (state.new).books }
    ensures loses { (x : PublisherFields) → slice_index_or state.old.publishers publisher_place None ≡ Some x
        → (c : Link) → get state.old.connections key ≡ Some c → LosesWaiting state.old x c state.new }
{
    let Some(publisher) = &state.publishers[publisher_place] else {
        unreachable!();
    };
    let book = &mut state.books[publisher.book];
    drop_all(publisher.id.value(), &mut state.connections, book, key);
}

// The publisher at a place loses its end at a subscriber's place. Nothing is borrowed from that
// connection, and no subscriber has it. The connection goes, and what waited there is lost.
fn disconnect_sender<T: Drop, U: Default + Drop>(
    state: &mut DomainState<T, U>,
    at: Places,
    key: usize,
)
    requires agrees { IsDomain state.old }
    requires subscriber { at.subscriber < length state.old.subscribers }
    requires end { HasEnd state.old at.publisher at.subscriber key }
    requires unused { IsSomeAnd (get state.old.connections key) (λ c. c.borrowed ≡ []) }
    requires alone { (c : Link) → get state.old.connections key ≡ Some c → ReceiverHas state.old.subscribers key c → ⊥ }
    requires elsewhere { (c : Link) → get state.old.connections key ≡ Some c → StandsElsewhere state.old.subscribers at.subscriber c.home.subscriber }
    ensures gains { GainsHolders 0 (state.old).books (state.new).books }
    ensures loses { (x : PublisherFields) → slice_index_or state.old.publishers at.publisher None ≡ Some x
        → LosesSenderEnd state.old at.publisher at.subscriber x state.new }
{
    let Some(publisher) = &state.publishers[at.publisher] else {
        unreachable!();
    };
    let book = &mut state.books[publisher.book];
    remove_connection(publisher.id.value(), &mut state.connections, book, key);
    clear_key_at(&mut state.publishers, at.publisher, at.subscriber);
}

/// What the update of the publisher at a place, which isn't due, does at a subscriber's place. An end
/// to the subscriber that is there stays; if it is closed, what waits for it is lost. Any
/// other end goes, and one to an open subscriber is made, in which the last messages of the history
/// wait. If memory for one is refused, its handler is asked.
pub(crate) fn update_sender_place<T: Drop, U: Default + Drop, F: BackpressureFn, G: DegradationFn>(
    state: &mut DomainState<T, U>,
    boxes: &Boxes<F, G>,
    at: Places,
) -> Option<ConnectionFailure>
    requires settled { IsSettledAt state.old at }
    requires few { (settled : IsSettledAt state.old at) → HasCountRoom (state.old).books settled.publisher.book }
    ensures connects { (settled : IsSettledAt state.old at)
        → ConnectsSender (answers_of F.allows G.allows (boxes.now).boxes) state.old at.publisher at.subscriber
        settled.publisher state.new result }
    ensures gains { GainsHolders 1 (state.old).books (state.new).books }
{
    let Some(key) = key_at(&state.publishers, at.publisher, at.subscriber) else {
        return connect_sender(state, boxes, at);
    };
    let subscriber = state.connections[key].home().subscriber;
    if !stands_at(&state.subscribers, at.subscriber, subscriber) {
        disconnect_sender(state, at, key);
        connect_sender(state, boxes, at)
    } else if !is_open_at(&state.subscribers, at.subscriber) {
        drop_waiting_at(state, at.publisher, key);
        None
    } else {
        None
    }
}
