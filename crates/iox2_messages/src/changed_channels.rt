//! How ports change the channels of their connections. No message moves by it, and no memory is
//! taken.
ghost use Rattle.std.specs.Prelude.{◌≡◌, ◌<◌, ℕ, None, Some, map, slice_index_or};
ghost use Rattle.slab.specs.Slab.{ContainsKey};
ghost use Rattle.iox2_machine.specs.machine.ChannelCalls.{received_changed, sent_closed};
ghost use Rattle.iox2_machine.specs.machine.Limits.{channel_count};
ghost use Rattle.iox2_connections.specs.Link.{IsBounded};
ghost use Rattle.iox2_connections.specs.Finds.{HasConnections};
ghost use Rattle.iox2_domain.specs.ChannelChanges.{ChangesLinks};
ghost use Rattle.iox2_domain.specs.Departures.{HasKey, KnowsKey};
ghost use Rattle.iox2_domain.specs.Fields.{kept_of};
ghost use Rattle.iox2_domain.specs.Invariant.{IsDomain};
ghost use Rattle.iox2_domain.specs.Kept.{state_of};
ghost use Rattle.iox2_domain.specs.OpenMarks.{ChangesMarks};
ghost use Rattle.iox2_domain.specs.Ports.{PublisherFields, SubscriberFields};
ghost use Rattle.iox2_domain.specs.Reaches.{Reaches};
ghost use Rattle.iox2_messages.specs.ChannelChanges.{changed_channel, changed_link};

use iox2_connections::{CHANNEL_STATE_CLOSED, Connection, ListedKey};
use iox2_domain::{DomainState, SubscriberState, key_at};
use iox2_updates::mark_end;
use slab::Slab;

/// What becomes of a channel.
#[derive(Debug, Clone, Copy, PartialEq, Eq)]
pub enum ChannelChange {
    /// It comes into this state. Its hint goes, if that is another one.
    SetState(u64),
    /// A disconnect is hinted there.
    SetHint,
}

// A channel of a connection is changed, if it is in the state `expected`.
fn change_channel(connection: &mut Connection, channel: usize, expected: u64, change: ChannelChange)
    ensures changed { connection.new ≡ changed_link change channel expected connection.old }
    ensures bounded { IsBounded connection.new }
{
    match change {
        ChannelChange::SetState(state) => connection.change_state(channel, expected, state),
        ChannelChange::SetHint => connection.set_disconnect_hint(channel, expected),
    }
}

// The same, at the connection to which a key leads, if there is a key.
fn change_at(
    connections: &mut Slab<Connection>,
    key: Option<usize>,
    channel: usize,
    expected: u64,
    change: ChannelChange,
)
    requires { (k : ℕ) → key ≡ Some k → ContainsKey connections.old k }
    ensures { ChangesLinks (changed_link change channel expected) (λ k. key ≡ Some k) connections.old connections.new }
{
    if let Some(key) = key {
        change_channel(&mut connections[key], channel, expected, change);
    }
}

// The same, at the connections to which these keys lead.
fn change_at_keys<K: ListedKey>(
    connections: &mut Slab<Connection>,
    keys: &[K],
    channel: usize,
    expected: u64,
    change: ChannelChange,
)
    requires { HasConnections connections.old (map K.key_of keys.now) }
    ensures { ChangesLinks (changed_link change channel expected) (HasKey (map K.key_of keys.now)) connections.old connections.new }
{
    for index in 0..keys.len() {
        change_at(connections, keys[index].key(), channel, expected, change);
    }
}

// The same, at each connection that the subscriber knows.
fn change_known(
    connections: &mut Slab<Connection>,
    subscriber: &SubscriberState,
    channel: usize,
    expected: u64,
    change: ChannelChange,
)
    requires places { HasConnections connections.old subscriber.now.keys }
    requires expired { HasConnections connections.old (map Some subscriber.now.expired) }
    ensures { ChangesLinks (changed_link change channel expected) (KnowsKey subscriber.now) connections.old connections.new }
{
    change_at_keys(connections, &subscriber.keys, channel, expected, change);
    change_at_keys(connections, &subscriber.expired, channel, expected, change);
}

// The connections of the subscriber at a place are marked as open where they are, as those are whose
// channels are open again.
fn mark_received<T: Drop, U: Default + Drop>(state: &mut DomainState<T, U>, place: usize)
    requires { IsDomain state.old }
    ensures { ChangesMarks state.old state.new }
{
    for publisher_place in 0..state.publishers.len() {
        mark_end(state, publisher_place, place);
    }
}

/// A channel of each connection of the subscriber at a place is changed, where it is in the state
/// `expected`.
///
/// iceoryx2's `Receiver::set_channel_state`, `close_channel` and `set_disconnect_hint`
/// (`src/port/details/receiver.rs`).
pub fn change_received<T: Drop, U: Default + Drop>(
    state: &mut DomainState<T, U>,
    place: usize,
    channel: usize,
    expected: u64,
    change: ChannelChange,
)
    requires agrees { IsDomain state.old }
    requires channel { channel < channel_count (state.old).config }
    requires stands { (y : SubscriberFields) × (slice_index_or state.old.subscribers place None ≡ Some y) }
    ensures { (y : SubscriberFields) → slice_index_or state.old.subscribers place None ≡ Some y
        → Reaches state.old state.new (received_changed (state_of (kept_of state.old)) y.id channel expected (changed_channel change)) }
{
    let Some(subscriber) = &state.subscribers[place] else {
        unreachable!()
    };
    change_known(
        &mut state.connections,
        subscriber,
        channel,
        expected,
        change,
    );
    mark_received(state, place);
}

/// A channel of the connection that the publisher at a place has at another, if there is one, is
/// closed, if it is in the state `expected`.
///
/// iceoryx2's `Sender::close_channel` (`src/port/details/sender.rs`).
pub fn close_sent<T: Drop, U: Default + Drop>(
    state: &mut DomainState<T, U>,
    place: usize,
    channel: usize,
    connection: usize,
    expected: u64,
)
    requires agrees { IsDomain state.old }
    requires channel { channel < channel_count (state.old).config }
    ensures { (x : PublisherFields) → slice_index_or state.old.publishers place None ≡ Some x
        → Reaches state.old state.new (sent_closed (state_of (kept_of state.old)) x.id channel connection expected) }
{
    let key = key_at(&state.publishers, place, connection);
    let change = ChannelChange::SetState(CHANNEL_STATE_CLOSED);
    change_at(&mut state.connections, key, channel, expected, change);
}
