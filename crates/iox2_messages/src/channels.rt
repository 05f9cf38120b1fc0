//! What ports are told of the channels of their connections. Nothing changes by it.
ghost use Rattle.std.specs.Prelude.{◌≡◌, None, Some, map, slice_index_or};
ghost use Rattle.std.specs.List.{list_all};
ghost use Rattle.iox2_machine.specs.machine.Channel.{is_in_state as is_channel_in};
ghost use Rattle.iox2_machine.specs.machine.ChannelCalls.{connection_place, has_channel_state, has_disconnect_hint};
ghost use Rattle.iox2_machine.specs.machine.ChannelCalls.{place_from, receiver_at, senders_of};
ghost use Rattle.iox2_machine.specs.machine.ChannelCalls.{some_channel_has_state};
ghost use Rattle.iox2_machine.specs.machine.Places.{is_port};
ghost use Rattle.iox2_connections.specs.Mailboxes.{sender_ends, subscriber_of_key};
ghost use Rattle.iox2_domain.specs.Fields.{kept_of};
ghost use Rattle.iox2_domain.specs.Invariant.{IsDomain};
ghost use Rattle.iox2_domain.specs.Kept.{state_of};
ghost use Rattle.iox2_domain.specs.Ports.{PublisherFields, SubscriberFields};
ghost use Rattle.iox2_messages.specs.KeyChannels.{all_in_state, key_hinted, key_in_no_other, key_in_state, some_in_state};

use iox2_connections::{Connection, ListedKey};
use iox2_domain::{DomainState, key_at};
use slab::Slab;

// What is asked of a connection: whether its channel with this number is in this state.
#[derive(Clone, Copy)]
struct Asked {
    channel: usize,
    state: u64,
}

// Whether a key leads to a connection whose channel with that number is in that state.
fn is_in_state(connections: &Slab<Connection>, key: Option<usize>, asked: Asked) -> bool
    ensures { result ≡ key_in_state connections.now asked.channel asked.state key }
{
    let Some(key) = key else {
        return false;
    };
    match connections.get(key) {
        Some(connection) => connection.channel_state(asked.channel) == asked.state,
        None => false,
    }
}

// The same, and a disconnect was hinted there.
fn is_hinted(connections: &Slab<Connection>, key: Option<usize>, asked: Asked) -> bool
    ensures { result ≡ key_hinted connections.now asked.channel asked.state key }
{
    let Some(key) = key else {
        return false;
    };
    match connections.get(key) {
        Some(connection) => connection.channel_state(asked.channel) == asked.state
            && connection.has_disconnect_hint(asked.channel),
        None => false,
    }
}

// Whether a key leads to no connection whose channel with that number is in another state.
fn is_in_no_other(connections: &Slab<Connection>, key: Option<usize>, asked: Asked) -> bool
    ensures { result ≡ key_in_no_other connections.now asked.channel asked.state key }
{
    let Some(key) = key else {
        return true;
    };
    let Some(connection) = connections.get(key) else {
        return true;
    };
    connection.channel_state(asked.channel) == asked.state
}

// Whether one of these keys leads to a connection whose channel with that number is in that state.
fn some_at_keys<K: ListedKey>(connections: &Slab<Connection>, keys: &[K], asked: Asked) -> bool
    ensures { result ≡ some_in_state connections.now asked.channel asked.state (map K.key_of keys.now) }
{
    for index in 0..keys.len() {
        if is_in_state(connections, keys[index].key(), asked) {
            return true;
        }
    }
    false
}

// Whether none of these keys leads to a connection whose channel with that number is in another state.
fn all_at_keys<K: ListedKey>(connections: &Slab<Connection>, keys: &[K], asked: Asked) -> bool
    ensures { result ≡ all_in_state connections.now asked.channel asked.state (map K.key_of keys.now) }
{
    for index in 0..keys.len() {
        if !is_in_no_other(connections, keys[index].key(), asked) {
            return false;
        }
    }
    true
}

/// Whether a channel of some connection of the subscriber at a place is in that state.
///
/// iceoryx2's `Receiver::at_least_one_channel_has_state` (`src/port/details/receiver.rs`).
pub fn some_received_in<T: Drop, U: Default + Drop>(
    state: &DomainState<T, U>,
    place: usize,
    channel: usize,
    channel_state: u64,
) -> bool
    requires agrees { IsDomain state.now }
    requires stands { (y : SubscriberFields) × (slice_index_or state.now.subscribers place None ≡ Some y) }
    ensures { (y : SubscriberFields) → slice_index_or state.now.subscribers place None ≡ Some y
        → result ≡ some_channel_has_state (state_of (kept_of state.now)) y.id channel channel_state }
{
    let Some(subscriber) = &state.subscribers[place] else {
        unreachable!()
    };
    let asked = Asked {
        channel,
        state: channel_state,
    };
    some_at_keys(&state.connections, &subscriber.expired, asked)
        || some_at_keys(&state.connections, &subscriber.keys, asked)
}

/// Whether a channel of each connection of the subscriber at a place is in that state. This holds if
/// the subscriber has none.
///
/// What iceoryx2's `Receiver::set_channel_state` (`src/port/details/receiver.rs`) returns.
pub fn all_received_in<T: Drop, U: Default + Drop>(
    state: &DomainState<T, U>,
    place: usize,
    channel: usize,
    channel_state: u64,
) -> bool
    requires agrees { IsDomain state.now }
    requires stands { (y : SubscriberFields) × (slice_index_or state.now.subscribers place None ≡ Some y) }
    ensures { (y : SubscriberFields) → slice_index_or state.now.subscribers place None ≡ Some y
        → result ≡ list_all (λ p. is_channel_in channel_state
        ((state_of (kept_of state.now)).channels p y.id channel)) (senders_of (state_of (kept_of state.now)) y.id) }
{
    let Some(subscriber) = &state.subscribers[place] else {
        unreachable!()
    };
    let asked = Asked {
        channel,
        state: channel_state,
    };
    all_at_keys(&state.connections, &subscriber.expired, asked)
        && all_at_keys(&state.connections, &subscriber.keys, asked)
}

// Whether a key leads to a connection with that subscriber.
fn leads_to(connections: &Slab<Connection>, key: Option<usize>, subscriber: u128) -> bool
    ensures { result ≡ is_port (subscriber_of_key connections.now key) subscriber }
{
    let Some(key) = key else {
        return false;
    };
    match connections.get(key) {
        Some(connection) => connection.home().subscriber == subscriber,
        None => false,
    }
}

// The first place whose key leads to a connection with that subscriber.
fn place_in(
    connections: &Slab<Connection>,
    keys: &[Option<usize>],
    subscriber: u128,
) -> Option<usize>
    ensures { result ≡ place_from 0 (sender_ends connections.now keys.now) subscriber }
{
    for place in 0..keys.len() {
        if leads_to(connections, keys[place], subscriber) {
            return Some(place);
        }
    }
    None
}

/// The place at which the publisher at another has a connection to a subscriber.
///
/// iceoryx2's `Sender::get_connection_id_of` (`src/port/details/sender.rs`).
pub fn place_of_receiver<T: Drop, U: Default + Drop>(
    state: &DomainState<T, U>,
    place: usize,
    subscriber: u128,
) -> Option<usize>
    requires agrees { IsDomain state.now }
    requires stands { (x : PublisherFields) × (slice_index_or state.now.publishers place None ≡ Some x) }
    ensures { (x : PublisherFields) → slice_index_or state.now.publishers place None ≡ Some x
        → result ≡ connection_place (state_of (kept_of state.now)) x.id subscriber }
{
    let Some(publisher) = &state.publishers[place] else {
        unreachable!()
    };
    place_in(&state.connections, &publisher.keys, subscriber)
}

// The subscriber whose connection a key leads to.
fn subscriber_at_key(connections: &Slab<Connection>, key: Option<usize>) -> Option<u128>
    ensures { result ≡ subscriber_of_key connections.now key }
{
    let Some(key) = key else {
        return None;
    };
    match connections.get(key) {
        Some(connection) => Some(connection.home().subscriber),
        None => None,
    }
}

/// The subscriber to which the publisher at a place has its connection at another.
pub fn receiver_at<T: Drop, U: Default + Drop>(
    state: &DomainState<T, U>,
    place: usize,
    connection: usize,
) -> Option<u128>
    requires agrees { IsDomain state.now }
    ensures { (x : PublisherFields) → slice_index_or state.now.publishers place None ≡ Some x
        → result ≡ receiver_at (state_of (kept_of state.now)) x.id connection }
{
    let key = key_at(&state.publishers, place, connection);
    subscriber_at_key(&state.connections, key)
}

/// Whether the publisher at a place has a connection at another, at which a channel is in that state.
///
/// iceoryx2's `Sender::has_channel_state` (`src/port/details/sender.rs`).
pub fn is_sent_in<T: Drop, U: Default + Drop>(
    state: &DomainState<T, U>,
    place: usize,
    channel: usize,
    connection: usize,
    channel_state: u64,
) -> bool
    requires agrees { IsDomain state.now }
    ensures { (x : PublisherFields) → slice_index_or state.now.publishers place None ≡ Some x
        → result ≡ has_channel_state (state_of (kept_of state.now)) x.id channel connection channel_state }
{
    let key = key_at(&state.publishers, place, connection);
    let asked = Asked {
        channel,
        state: channel_state,
    };
    is_in_state(&state.connections, key, asked)
}

/// The same, and a disconnect was hinted there.
///
/// iceoryx2's `Sender::has_disconnect_hint` (`src/port/details/sender.rs`).
pub fn is_sent_hinted<T: Drop, U: Default + Drop>(
    state: &DomainState<T, U>,
    place: usize,
    channel: usize,
    connection: usize,
    channel_state: u64,
) -> bool
    requires agrees { IsDomain state.now }
    ensures { (x : PublisherFields) → slice_index_or state.now.publishers place None ≡ Some x
        → result ≡ has_disconnect_hint (state_of (kept_of state.now)) x.id channel connection channel_state }
{
    let key = key_at(&state.publishers, place, connection);
    let asked = Asked {
        channel,
        state: channel_state,
    };
    is_hinted(&state.connections, key, asked)
}
