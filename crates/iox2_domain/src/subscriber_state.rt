//! What a domain has of a subscriber.
ghost use Rattle.std.specs.Prelude.{◌≡◌, ◌<◌, ◌≤◌, ℕ, None, Some, length, slice_index_or, OnOk};
ghost use Rattle.iox2_machine.specs.machine.Places.{vacated};
ghost use Rattle.iox2_domain.specs.Departures.{key_forgotten};
ghost use Rattle.iox2_domain.specs.Ports.{SubscriberFields};
ghost use Rattle.iox2_domain.specs.ReceiverSteps.{with_expired, replacing_expired};
ghost use Rattle.iox2_domain.specs.Updates.{changed_at, is_open_subscriber, with_receiver_rooms, receiver_room, expired_room_at};

use crate::handlers::HandlerMark;
use crate::places::{clear_in, put_at_place, reserve_place};
use crate::ports::Port;
use iox2_connections::receiver::key_in;
use iox2_connections::sender::{Receiver, ReceiverDetails};
use iox2_machine::{DegradationAction, UniqueSubscriberId};
use std::alloc::{AllocError, Global};
use std::marker::Model;

/// A subscriber that wasn't closed, or that was closed and has borrowed messages. It knows its
/// connections by their keys.
///
/// The small fields are side by side: if one of them had a word of its own, a subscriber would take
/// 128 bytes in place of 112, and each receive one instruction more.
///
/// iceoryx2's `SubscriberSharedState` (`src/port/subscriber.rs`) and `Receiver`
/// (`src/port/details/receiver.rs`).
#[derive(Drop)]
pub struct SubscriberState {
    pub id: UniqueSubscriberId,
    pub place: usize,
    pub is_open: bool,
    pub is_due: bool,
    // What answers for it when it can't make a connection.
    pub degradation: HandlerMark<DegradationAction>,
    pub buffer: usize,
    // At each publisher's place the key of the connection with it.
    pub keys: Vec<Option<usize>>,
    // The keys of the connections with departed publishers, in order of entry.
    pub expired: Vec<usize>,
    // The place of the publisher from which it received last, at which it looks first. It may be
    // any number.
    pub last_place: usize,
}

impl Model for SubscriberState {
    ghost use Rattle.std.specs.Prelude.{vec_capacity};
    ghost use Rattle.iox2_domain.specs.Handlers.{handler_of};
    ghost use Rattle.iox2_domain.specs.Ports.{SubscriberFields};

    ghost Value = { SubscriberFields };

    ghost view = { λ y. record {
      id = y.id;
      place = y.place;
      is_open = y.is_open;
      buffer = y.buffer;
      degradation_handler = handler_of y.degradation;
      keys = y.keys.items;
      key_room = vec_capacity y.keys;
      expired = y.expired.items;
      expired_room = vec_capacity y.expired;
      is_due = y.is_due;
    } };
}

impl Receiver for SubscriberState {
    ghost use Rattle.iox2_domain.specs.Invariant.{details_of as details_of_subscriber};

    ghost details_of = { details_of_subscriber };

    fn details(&self) -> ReceiverDetails {
        ReceiverDetails {
            port_id: self.id.value(),
            buffer_size: self.buffer,
            is_open: self.is_open,
        }
    }
}

impl SubscriberState {
    ghost use Rattle.iox2_domain.specs.Departures.{key_forgotten};
    ghost use Rattle.iox2_domain.specs.Handlers.{handler_of};
    ghost use Rattle.iox2_domain.specs.Ports.{entering};

    /// A subscriber that enters at a place.
    pub fn new(
        alloc: Global,
        id: UniqueSubscriberId,
        place: usize,
        buffer: usize,
        degradation: HandlerMark<DegradationAction>,
    ) -> Self
        ensures { result ≡ entering id place buffer (handler_of degradation) result.key_room result.expired_room }
    {
        SubscriberState {
            id,
            place,
            is_open: true,
            is_due: true,
            buffer,
            degradation,
            keys: Vec::new(alloc),
            expired: Vec::new(alloc),
            last_place: 0,
        }
    }

    // Makes room for the key of its connection with the publisher at a place, and for `count + 1`
    // expired keys.
    fn reserve_connection(&mut self, place: usize, count: usize) -> Result<(), AllocError>
        ensures same { self.new ≡ with_receiver_rooms self.new.key_room self.new.expired_room self.old }
        ensures grows { self.old.key_room ≤ self.new.key_room }
        ensures expired_grows { self.old.expired_room ≤ self.new.expired_room }
        ensures room { OnOk result (place < self.new.key_room) }
        ensures expired_room { OnOk result (count < self.new.expired_room) }
    {
        reserve_place(&mut self.keys, place)?;
        reserve_place(&mut self.expired, count)
    }

    /// Forgets the connection at a key, which it has for a publisher's place or among the expired
    /// ones.
    pub fn forget(&mut self, place: usize, key: usize)
        requires { (i : ℕ) → slice_index_or self.old.keys i None ≡ Some key → i ≡ place }
        ensures { self.new ≡ key_forgotten key self.old }
    {
        clear_key(&mut self.keys, place, key);
        self.forget_expired(key);
    }
}

// Clears the key at a place, if it is this one.
fn clear_key(keys: &mut [Option<usize>], place: usize, key: usize)
    requires { (i : ℕ) → slice_index_or keys.old i None ≡ Some key → i ≡ place }
    ensures { keys.new ≡ vacated key keys.old }
{
    if key_in(keys, place) == Some(key) {
        keys[place] = None;
    }
}

/// The subscriber at a place forgets the connection at a key, which it has for a publisher's place
/// or among the expired ones.
pub fn forget_at(
    subscribers: &mut [Option<SubscriberState>],
    place: usize,
    other: usize,
    key: usize,
)
    requires stands { place < length subscribers.old }
    requires only { (y : SubscriberFields) → slice_index_or subscribers.old place None ≡ Some y → (i : ℕ)
        → slice_index_or y.keys i None ≡ Some key → i ≡ other }
    ensures { subscribers.new ≡ changed_at (key_forgotten key) subscribers.old place }
{
    if let Some(subscriber) = &mut subscribers[place] {
        subscriber.forget(other, key);
    }
}

impl SubscriberState {
    ghost use Rattle.iox2_domain.specs.ReceiverSteps.{with_expired, without_expired};

    // Keeps the key of its connection with the publisher at a place among the expired ones.
    fn expire(&mut self, place: usize, key: usize)
        requires within { place < length self.old.keys }
        requires room { length self.old.expired < self.old.expired_room }
        ensures { self.new ≡ with_expired place key self.old }
    {
        self.keys[place] = None;
        self.expired.push_reserved(key);
    }

    // Forgets an expired key.
    fn forget_expired(&mut self, key: usize)
        ensures { self.new ≡ without_expired key self.old }
    {
        self.expired.retain(|other| *other != key);
    }
}

/// The subscriber at a place keeps the key of its connection with the publisher at another place
/// among the expired ones.
pub fn expire_at(
    subscribers: &mut [Option<SubscriberState>],
    place: usize,
    other: usize,
    key: usize,
)
    requires stands { place < length subscribers.old }
    requires within { (y : SubscriberFields) → slice_index_or subscribers.old place None ≡ Some y → other < length y.keys }
    requires room { (y : SubscriberFields) → slice_index_or subscribers.old place None ≡ Some y → length y.expired < y.expired_room }
    ensures { subscribers.new ≡ changed_at (with_expired other key) subscribers.old place }
{
    if let Some(subscriber) = &mut subscribers[place] {
        subscriber.expire(other, key);
    }
}

/// The same, and an expired key goes to make room.
pub fn replace_expired_at(
    subscribers: &mut [Option<SubscriberState>],
    place: usize,
    other: usize,
    key: usize,
    first: usize,
)
    requires stands { place < length subscribers.old }
    requires within { (y : SubscriberFields) → slice_index_or subscribers.old place None ≡ Some y → other < length y.keys }
    requires room { (y : SubscriberFields) → slice_index_or subscribers.old place None ≡ Some y → length y.expired < y.expired_room }
    ensures { subscribers.new ≡ changed_at (replacing_expired other key first) subscribers.old place }
{
    if let Some(subscriber) = &mut subscribers[place] {
        subscriber.forget_expired(first);
        subscriber.expire(other, key);
    }
}

/// Makes room in the subscriber at a place for the key of its connection with the publisher at
/// another place, and for `count + 1` expired keys.
pub fn reserve_connection_at(
    subscribers: &mut [Option<SubscriberState>],
    place: usize,
    other: usize,
    count: usize,
) -> Result<(), AllocError>
    requires stands { place < length subscribers.old }
    ensures same { subscribers.new ≡ changed_at
        (with_receiver_rooms (receiver_room subscribers.new place) (expired_room_at subscribers.new place))
        subscribers.old place }
    ensures grows { receiver_room subscribers.old place ≤ receiver_room subscribers.new place }
    ensures expired_grows { expired_room_at subscribers.old place ≤ expired_room_at subscribers.new place }
    ensures room { OnOk result ((y : SubscriberFields) → slice_index_or subscribers.new place None ≡ Some y → other < y.key_room) }
    ensures expired_room { OnOk result ((y : SubscriberFields) → slice_index_or subscribers.new place None ≡ Some y → count < y.expired_room) }
{
    match &mut subscribers[place] {
        Some(subscriber) => subscriber.reserve_connection(other, count),
        None => Ok(()),
    }
}

/// Whether an open subscriber is at the place.
pub fn is_open_at(subscribers: &[Option<SubscriberState>], place: usize) -> bool
    requires { place < length subscribers.now }
    ensures { result ≡ is_open_subscriber subscribers.now place }
{
    match &subscribers[place] {
        Some(subscriber) => subscriber.is_open,
        None => false,
    }
}

impl Port for SubscriberState {
    ghost use Rattle.iox2_domain.specs.Updates.{with_receiver_key, with_receiver_room, without_receiver_key};

    ghost number = { λ y. y.id };

    ghost keys = { λ y. y.keys };

    ghost key_room = { λ y. y.key_room };

    ghost is_due = { λ y. y.is_due };

    ghost degradation = { λ y. y.degradation_handler };

    ghost with_key = { with_receiver_key };

    ghost without_key = { without_receiver_key };

    ghost with_room = { with_receiver_room };

    ghost with_due = { λ due y. record y { is_due = due } };

    fn number(&self) -> u128 {
        self.id.value()
    }

    fn key(&self, place: usize) -> Option<usize> {
        key_in(&self.keys, place)
    }

    fn reserve_key(&mut self, place: usize) -> Result<(), AllocError> {
        reserve_place(&mut self.keys, place)
    }

    fn set_key(&mut self, place: usize, key: usize) {
        put_at_place(&mut self.keys, place, key);
    }

    fn clear_key(&mut self, place: usize) {
        clear_in(&mut self.keys, place);
    }

    fn is_due(&self) -> bool {
        self.is_due
    }

    fn set_due(&mut self, due: bool) {
        self.is_due = due;
    }

    fn degradation(&self) -> HandlerMark<DegradationAction> {
        self.degradation
    }
}
