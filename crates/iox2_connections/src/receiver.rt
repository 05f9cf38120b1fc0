//! A subscriber's end: it takes messages from connections and gives them back.
ghost use Rattle.std.specs.Prelude.{◌≡◌, ◌<◌, None, Some, true, map, length, slice_index, slice_index_or, Contains, IsTrue, IsSomeAnd};
ghost use Rattle.std.specs.Option.{ForSome};
ghost use Rattle.slab.specs.Slab.{get, ContainsKey};
ghost use Rattle.iox2_connections.specs.Link.{can_borrow, with_returned, without_borrowed};
ghost use Rattle.iox2_machine.specs.machine.Numbers.{IsOnce};
ghost use Rattle.iox2_slots.specs.SlotBook.{IsInUse};
ghost use Rattle.iox2_connections.specs.Counters.{one_holder_less, with_counters};
ghost use Rattle.iox2_connections.specs.Recounts.{Recounts};
ghost use Rattle.iox2_connections.specs.Homes.{IsApart, SameHomes};
ghost use Rattle.iox2_connections.specs.Finds.{offer_at, offer_of, search, is_something, Finds, HasConnections};
ghost use Rattle.iox2_connections.specs.declared.receiver.Found.{Found};
ghost use Rattle.iox2_connections.specs.Takes.{HasItsSlots, KeepsOtherKeys, KeepsReturned, SameStands, BorrowsSlot};
ghost use Rattle.iox2_connections.specs.Takes.{IsLastAt, ReceivesSlot, ReleasesIfLast, ReleasesSlot};

use crate::connection::{Connection, Home};
use crate::listed_key::ListedKey;
use iox2_machine::ReceiveError;
use iox2_slots::SlotBook;
use slab::Slab;

/// A message that was taken from a connection.
#[derive(Clone, Copy)]
pub struct Taken {
    /// The key of the connection.
    pub connection: usize,
    /// Which ports the connection joins.
    pub home: Home,
    /// The slot of the message.
    pub slot: usize,
}

/// Names a message that a subscriber has borrowed, and says in which slot it is looked for.
#[derive(Clone, Copy)]
pub struct BorrowedMessage {
    /// The subscriber.
    pub subscriber: u128,
    /// The key of its publisher's book.
    pub book: usize,
    /// Its slot in that book.
    pub slot: usize,
    /// Its number.
    pub number: u128,
}

/// What one connection offers, or several.
#[derive(Clone, Copy)]
pub enum Found {
    /// A message may be taken from the connection at this key.
    Ready(usize),
    /// Messages wait, but only in connections that have as many borrowed as they may.
    AtLimit,
    /// No message waits.
    Nothing,
}

impl Found {
    // Whether this says that messages wait.
    fn is_something(self) -> bool
        ensures { result ≡ is_something self }
    {
        !matches!(self, Found::Nothing)
    }
}

// What the connection offers. It is the one at the key.
fn offer(connection: &Connection, key: usize) -> Found
    ensures { result ≡ offer_of key (Some connection.now) }
{
    if connection.can_receive() {
        Found::Ready(key)
    } else if connection.has_data() {
        Found::AtLimit
    } else {
        Found::Nothing
    }
}

// What the connection at a key offers, if there is a key.
fn look(connections: &Slab<Connection>, key: Option<usize>) -> Found
    requires { ForSome key (ContainsKey connections.now) }
    ensures { result ≡ offer_at connections.now key }
{
    match key {
        Some(key) => offer(&connections[key], key),
        None => Found::Nothing,
    }
}

// The same. A look-up in connections that may be written tests less, and nothing is written
// (docs/DECISIONS.md, "Look-ups that can't fail go through `&mut`").
fn look_to_take(connections: &mut Slab<Connection>, key: Option<usize>) -> Found
    requires { ForSome key (ContainsKey connections.old) }
    ensures offers { result ≡ offer_at connections.old key }
    ensures same { connections.new ≡ connections.old }
{
    match key {
        Some(key) => offer(&mut connections[key], key),
        None => Found::Nothing,
    }
}

// What the connections at these keys offer.
fn search_keys<K: ListedKey>(connections: &Slab<Connection>, keys: &[K]) -> Found
    requires { HasConnections connections.now (map K.key_of keys.now) }
    ensures { result ≡ search connections.now (map K.key_of keys.now) }
{
    let mut found = Found::Nothing;
    for index in 0..keys.len() {
        match look(connections, keys[index].key()) {
            Found::Ready(key) => return Found::Ready(key),
            Found::AtLimit => found = Found::AtLimit,
            Found::Nothing => {}
        }
    }
    found
}

// Borrows the message that has waited longest in the connection at a key.
//
// iceoryx2's `Receiver::receive_from_connection` (`src/port/details/receiver.rs`).
fn take(connections: &mut Slab<Connection>, key: usize) -> Taken
    requires ready { IsSomeAnd (get connections.old key) (λ c. IsTrue (can_borrow c)) }
    requires apart { IsApart connections.old }
    ensures from { result.connection ≡ key }
    ensures home { IsSomeAnd (get connections.old key) (λ c. result.home ≡ c.home) }
    ensures waited { IsSomeAnd (get connections.old key) (λ c. Contains c.waiting result.slot) }
    ensures takes { BorrowsSlot connections.old key result.slot connections.new }
    ensures homes { SameHomes connections.old connections.new }
    ensures others { KeepsOtherKeys key connections.old connections.new }
    ensures returned { KeepsReturned key connections.old connections.new }
    ensures stands { SameStands connections.old connections.new }
{
    let connection = &mut connections[key];
    Taken {
        connection: key,
        home: connection.home(),
        slot: connection.take().unwrap(),
    }
}

/// The key at a place, and `None` past the end of the list.
pub fn key_in(keys: &[Option<usize>], place: usize) -> Option<usize>
    ensures { result ≡ slice_index_or keys.now place None }
{
    match keys.get(place) {
        Some(key) => *key,
        None => None,
    }
}

/// Borrows the message that has waited longest in the first connection with a message that may be
/// borrowed. First come the expired connections, whose publishers are gone, in their order, then
/// the one at `last_place`, and then the others by rising place. If it is one of these others,
/// `last_place` is its place afterwards. `None` if no message waits.
///
/// `ExceedsMaxBorrows` if messages wait, but only in connections that have as many borrowed as they
/// may.
///
/// iceoryx2's `Receiver::receive` (`src/port/details/receiver.rs`).
#[inline(always)]
pub fn receive(
    connections: &mut Slab<Connection>,
    expired: &[usize],
    keys: &[Option<usize>],
    last_place: &mut usize,
) -> Result<Option<Taken>, ReceiveError>
    requires expired { HasConnections connections.old (map Some expired.now) }
    requires keys { HasConnections connections.old keys.now }
    requires apart { IsApart connections.old }
    ensures { ReceivesSlot connections.old expired.now keys.now result connections.new }
{
    let mut found = search_keys(connections, expired);
    if let Found::Ready(key) = found {
        return Ok(Some(take(connections, key)));
    }
    if let Found::Ready(key) = look_to_take(connections, key_in(keys, *last_place)) {
        return Ok(Some(take(connections, key)));
    }
    for place in 0..keys.len() {
        match look(connections, keys[place]) {
            Found::Ready(key) => {
                *last_place = place;
                return Ok(Some(take(connections, key)));
            }
            Found::AtLimit => found = Found::AtLimit,
            Found::Nothing => {}
        }
    }
    match found {
        Found::AtLimit => Err(ReceiveError::ExceedsMaxBorrows),
        _ => Ok(None),
    }
}

/// Whether a message waits in one of these connections, also one that may not be borrowed yet.
///
/// iceoryx2's `Receiver::has_samples` (`src/port/details/receiver.rs`).
pub fn has_samples(
    connections: &Slab<Connection>,
    expired: &[usize],
    keys: &[Option<usize>],
) -> bool
    requires expired { HasConnections connections.now (map Some expired.now) }
    requires keys { HasConnections connections.now keys.now }
    ensures { (found : Found) × Finds connections.now expired.now keys.now found × (result ≡ is_something found) }
{
    search_keys(connections, expired).is_something()
        || search_keys(connections, keys).is_something()
}

// Whether the slot may be given back at once: the connection is this subscriber's, is for slots of
// the book at the key, and is marked as open, and the slot is the one that was last borrowed from
// it.
fn is_last_borrowed(connection: &Connection, subscriber: u128, book: usize, slot: usize) -> bool
    ensures subscriber { IsTrue result → connection.now.home.subscriber ≡ subscriber }
    ensures book { IsTrue result → connection.now.home.book ≡ book }
    ensures borrowed { IsTrue result → Contains connection.now.borrowed slot }
    ensures open { IsTrue result → connection.now.is_open ≡ true }
{
    let home = connection.home();
    home.subscriber == subscriber
        && home.book == book
        && connection
            .borrowed()
            .last()
            .is_some_and(|last| *last == slot)
        && connection.is_open()
}

// Whether a slot of the book has the number.
fn has_number(book: &SlotBook, slot: usize, number: u128) -> bool
    requires { slot < length book.now.holders }
    ensures { IsTrue result → slice_index book.now.numbers slot ≡ number }
{
    book.number(slot) == number
}

/// Whether a message is where it says: the connection at the key is this subscriber's, is for slots
/// of this book, and is marked as open, and the slot was last borrowed from it and has this number.
/// Mostly it is. No holders are counted for that. A look-up in books that may be written tests
/// less, and nothing is written
/// (docs/DECISIONS.md, "Look-ups that can't fail go through `&mut`").
#[inline(always)]
pub fn is_last_at(
    connections: &Slab<Connection>,
    books: &mut Slab<SlotBook>,
    key: usize,
    message: BorrowedMessage,
) -> bool
    requires slots { ForSome (get connections.now key) (HasItsSlots books.old) }
    ensures last { IsTrue result → IsLastAt connections.now books.old key message }
    ensures same_books { books.new ≡ books.old }
{
    match connections.get(key) {
        Some(connection) => {
            is_last_borrowed(connection, message.subscriber, message.book, message.slot)
                && has_number(&mut books[message.book], message.slot, message.number)
        }
        None => false,
    }
}

/// Gives a message back to its publisher if it is where it says ([`is_last_at`]), and returns
/// whether it is. If it isn't, nothing changes. The slot keeps its holder until the publisher
/// reclaims it.
///
/// [`release`] does the same with a slot that is known to be borrowed.
#[inline(always)]
pub fn release_if_last(
    connections: &mut Slab<Connection>,
    books: &mut Slab<SlotBook>,
    key: usize,
    message: BorrowedMessage,
) -> bool
    requires once { ForSome (get connections.old key) (λ c. IsOnce c.borrowed) }
    requires slots { ForSome (get connections.old key) (HasItsSlots books.old) }
    requires apart { IsApart connections.old }
    ensures releases { ReleasesIfLast connections.old books.old key message result connections.new }
    ensures same_books { books.new ≡ books.old }
{
    if !is_last_at(connections, books, key, message) {
        return false;
    }
    // The compiler does this look-up with the first (docs/DECISIONS.md, "A release looks its
    // connection up twice").
    release(connections, key, message.slot);
    true
}

/// Gives a message back to its publisher. Its slot is borrowed from the connection at a key. The
/// slot keeps its holder until the publisher reclaims it.
///
/// iceoryx2's `Receiver::release_offset` (`src/port/details/receiver.rs`).
pub fn release(connections: &mut Slab<Connection>, key: usize, slot: usize)
    requires borrowed { IsSomeAnd (get connections.old key) (λ c. Contains c.borrowed slot) }
    requires once { IsSomeAnd (get connections.old key) (λ c. IsOnce c.borrowed) }
    requires apart { IsApart connections.old }
    ensures releases { ReleasesSlot connections.old key slot connections.new }
    ensures returned { IsSomeAnd (get connections.old key) (λ c. get connections.new key ≡ Some (with_returned slot c)) }
    ensures homes { SameHomes connections.old connections.new }
    ensures others { KeepsOtherKeys key connections.old connections.new }
    ensures stands { SameStands connections.old connections.new }
{
    connections[key].release(slot);
}

/// Gives a message back to the book of its publisher, which is gone. Its slot is borrowed from the
/// connection at a key, and has one holder less at once.
///
/// iceoryx2's `Receiver::release_offset` (`src/port/details/receiver.rs`). There the segment of the
/// publisher goes with its last message.
pub fn let_go(connections: &mut Slab<Connection>, book: &mut SlotBook, key: usize, slot: usize)
    requires borrowed { IsSomeAnd (get connections.old key) (λ c. Contains c.borrowed slot) }
    requires once { IsSomeAnd (get connections.old key) (λ c. IsOnce c.borrowed) }
    requires apart { IsApart connections.old }
    requires in_use { IsInUse book.old slot }
    ensures releases { ReleasesSlot connections.old key slot connections.new }
    ensures book { book.new ≡ with_counters book.old (one_holder_less slot book.old.holders) }
    ensures recounts { IsSomeAnd (get connections.old key)
        (λ c. Recounts c.home.publisher book.old.holders connections.old (one_holder_less slot book.old.holders)
        connections.new) }
    ensures left { IsSomeAnd (get connections.old key) (λ c. get connections.new key ≡ Some (without_borrowed slot c)) }
    ensures others { KeepsOtherKeys key connections.old connections.new }
{
    connections[key].let_go(slot);
    book.release(slot);
}
