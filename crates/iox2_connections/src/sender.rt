//! A publisher's end: its messages go to the connections at its places.
ghost use Rattle.std.specs.Prelude.{◌≡◌, ℕ, ◌+◌, ◌≤◌, ◌<◌, ◌^◌, [], ◌∷◌, ◌++◌, true, None, Some, length, slice_index_or, IsSomeAnd, map};
ghost use Rattle.std.specs.Option.{option_map};
ghost use Rattle.iox2_connections.specs.Link.{load, IsBounded};
ghost use Rattle.iox2_machine.specs.declared.backpressure.BackpressureAction.{BackpressureAction};
ghost use Rattle.iox2_slots.specs.SlotBook.{holders_at, IsInUse};
ghost use Rattle.iox2_machine.specs.machine.Numbers.{last_n};
ghost use Rattle.iox2_machine.specs.machine.Delivery.{by_action, is_blocking, is_failed, accepted_count};
ghost use Rattle.slab.specs.Slab.{get};
ghost use Rattle.iox2_connections.specs.Homes.{IsApart, IsSenderLinked};
ghost use Rattle.iox2_connections.specs.Receivers.{is_open_at, takes_at, HasReclaimed, HaveChannel, IsReadyToDeliver};
ghost use Rattle.iox2_connections.specs.Counters.{times, IsCovered, HoldsItself, GrowsAlone, recounted, CanLeave, with_counters, one_holder_more};
ghost use Rattle.iox2_connections.specs.Recounts.{Recounts, returned_count};
ghost use Rattle.iox2_connections.specs.Reclaims.{IsHeld, Reclaims, ReclaimsFrom};
ghost use Rattle.iox2_connections.specs.Drops.{DropsAll, RemovesConnection};
ghost use Rattle.iox2_connections.specs.Handlers.{asked};
ghost use Rattle.iox2_connections.specs.Deliveries.{result_of, Answers, ComesTo, PutsSlot, DeliversSlot};

use crate::connection::{Connection, PutOutcome};
use crate::drops;
use circular_buffer::HeapCircularBuffer;
use iox2_machine::{
    BackpressureAction, BackpressureFn, BackpressureHandler, BackpressureInfo,
    BackpressureStrategy, ServiceConfig,
};
use iox2_slots::SlotBook;
use slab::Slab;
use std::time::Duration;

/// A subscriber, as a publisher that delivers sees it.
///
/// iceoryx2's `ReceiverDetails` (`src/port/details/sender.rs`).
#[derive(Clone, Copy)]
pub struct ReceiverDetails {
    /// The subscriber's id.
    pub port_id: u128,
    /// How many messages of one publisher may wait for it.
    pub buffer_size: usize,
    /// Whether it takes messages. A closed one keeps its place until its last sample is released.
    pub is_open: bool,
}

/// What is at a subscriber's place, as a publisher that delivers sees it.
///
/// This library's own: iceoryx2 copies the details of each receiver to its senders.
pub trait Receiver {
    ghost use Rattle.iox2_connections.specs.declared.sender.ReceiverDetails.{ReceiverDetails};

    ghost details_of: { Self → ReceiverDetails };

    /// What a publisher that delivers needs to know.
    fn details(&self) -> ReceiverDetails
        ensures { result ≡ details_of self.now };
}

impl Receiver for ReceiverDetails {
    ghost details_of = { λ receiver. receiver };

    fn details(&self) -> ReceiverDetails {
        *self
    }
}

/// How far a delivery has come. By default every place remains.
#[derive(Clone, Copy, Default)]
pub struct Progress {
    /// The first place that remains. Those at lower places are done with.
    pub place: usize,
    /// How often the receiver at that place was asked again.
    pub retries: u64,
    /// How many receivers have taken the message so far.
    pub count: usize,
    /// Whether the handler failed the delivery at a receiver so far.
    pub has_failed: bool,
}

/// A message that a publisher delivers to the places that remain.
#[derive(Clone, Copy)]
pub struct Delivery {
    /// The publisher's id.
    pub publisher: u128,
    /// The publisher's slot with the message.
    pub slot: usize,
    /// The channel of each connection that it goes into.
    pub channel: usize,
    /// What happens at a full receiver, if no handler says otherwise.
    pub strategy: BackpressureStrategy,
    /// Where the delivery is taken up.
    pub start: Progress,
    /// The time since the handler was first asked about the receiver at the first of these places.
    pub elapsed: Duration,
}

impl Delivery {
    ghost use Rattle.iox2_connections.specs.Deliveries.{retries_at, elapsed_at};

    // How often the receiver at a place was asked again. Only the first was asked before; the
    // others are asked anew.
    fn retries_at(&self, place: usize) -> u64
        ensures { result ≡ retries_at self.now place }
    {
        if place == self.start.place {
            self.start.retries
        } else {
            0
        }
    }

    // The time since the receiver at a place was first asked.
    fn elapsed_at(&self, place: usize) -> Duration
        ensures { result ≡ elapsed_at self.now place }
    {
        if place == self.start.place {
            self.elapsed
        } else {
            Duration::ZERO
        }
    }
}

/// How a delivery ended.
#[derive(Clone, Copy)]
pub enum DeliveryOutcome {
    /// It went over all receivers.
    Complete {
        /// How many receivers took the message.
        count: usize,
        /// Whether the handler failed the delivery at some receiver.
        has_failed: bool,
    },
    /// It waits for the full receiver at the first place that remains.
    Suspended(Progress),
}

/// What became of a message at one receiver.
#[derive(Clone, Copy)]
enum Reception {
    Accepted,
    Skipped,
    Failed,
    WouldBlock,
}

impl Reception {
    fn is_blocking(self) -> bool
        ensures { result ≡ is_blocking (result_of self) }
    {
        matches!(self, Reception::WouldBlock)
    }

    fn is_failed(self) -> bool
        ensures { result ≡ is_failed (result_of self) }
    {
        matches!(self, Reception::Failed)
    }
}

// One place more. It is a function of its own, so that nothing is counted at a receiver that takes
// the message.
#[cold]
#[inline(never)]
fn one_more(missed: usize) -> usize
    requires fits { missed + 1 < 2 ^ 64 }
    ensures { result ≡ missed + 1 }
{
    missed + 1
}

// How many places have missed the message, with one more place that has this outcome
// (docs/DECISIONS.md, "A delivery counts the places that missed it").
fn count_missed(missed: usize, reception: Reception) -> usize
    requires fits { missed + 1 < 2 ^ 64 }
    ensures { result + accepted_count (result_of reception) ≡ missed + 1 }
{
    match reception {
        Reception::Accepted => missed,
        Reception::Skipped | Reception::Failed | Reception::WouldBlock => one_more(missed),
    }
}

// What a strategy does with a full receiver.
fn by_strategy(strategy: BackpressureStrategy) -> Reception
    ensures { result_of result ≡ by_action strategy BackpressureAction.FollowBackpressureyStrategy }
{
    match strategy {
        BackpressureStrategy::RetryUntilDelivered => Reception::WouldBlock,
        BackpressureStrategy::DiscardData => Reception::Skipped,
    }
}

// What an action does with a full receiver.
fn by_action(strategy: BackpressureStrategy, action: BackpressureAction) -> Reception
    ensures { result_of result ≡ by_action strategy action }
{
    match action {
        BackpressureAction::FollowBackpressureyStrategy => by_strategy(strategy),
        BackpressureAction::Retry => Reception::WouldBlock,
        BackpressureAction::DiscardData => Reception::Skipped,
        BackpressureAction::DiscardDataAndFail => Reception::Failed,
    }
}

// Asks the handler about a full receiver. The delivery is copied here: if its address were handed
// on, it would have to be in memory at each send.
#[cold]
#[inline(never)]
fn ask<F: BackpressureFn>(
    config: &ServiceConfig,
    delivery: Delivery,
    handler: &BackpressureHandler<F>,
    place: usize,
    receiver: u128,
) -> Reception
    ensures { Answers (asked F.allows (Some handler.now)) config.now delivery (Some handler.now) place receiver (result_of result) }
{
    let info = BackpressureInfo {
        service_id: config.service_id,
        sender_port_id: delivery.publisher,
        receiver_port_id: receiver,
        retries: delivery.retries_at(place),
        elapsed_time: delivery.elapsed_at(place),
    };
    by_action(delivery.strategy, handler.call(&info))
}

// What becomes of the message after this put into the connection.
fn reception_of<F: BackpressureFn>(
    config: &ServiceConfig,
    delivery: &Delivery,
    handler: &Option<BackpressureHandler<F>>,
    place: usize,
    connection: &Connection,
    outcome: PutOutcome,
) -> Reception
    ensures { ComesTo (asked F.allows handler.now) config.now delivery.now handler.now place connection.now.home.subscriber outcome (result_of result) }
{
    match outcome {
        PutOutcome::Taken | PutOutcome::Overwrote(_) => Reception::Accepted,
        PutOutcome::Full => match handler {
            Some(handler) => ask(
                config,
                *delivery,
                handler,
                place,
                connection.home().subscriber,
            ),
            None => by_strategy(delivery.strategy),
        },
    }
}

// Whether the subscriber with that id is at the place, and is open.
#[cold]
#[inline(never)]
fn stands_open<R: Receiver>(receivers: &Vec<Option<R>>, place: usize, id: u128) -> bool
    ensures { result ≡ is_open_at (map (option_map R.details_of) receivers.now.items) place id }
{
    match receivers.get(place) {
        Some(Some(receiver)) => {
            let receiver = receiver.details();
            receiver.port_id == id && receiver.is_open
        }
        _ => false,
    }
}

// Whether a channel of a connection takes messages: the subscriber that the publisher knows at the
// place is open, and so is the channel. For channel 0 the mark of the connection mostly says so.
fn is_open<R: Receiver>(
    connection: &Connection,
    receivers: &Vec<Option<R>>,
    place: usize,
    channel: usize,
) -> bool
    requires { connection.now.is_open ≡ true → is_open_at (map (option_map R.details_of) receivers.now.items) place connection.now.home.subscriber ≡ true }
    ensures value { result ≡ takes_at (map (option_map R.details_of) receivers.now.items) place channel connection.now }
    ensures bounded { IsBounded connection.now }
{
    if channel == 0 && connection.is_open() {
        return true;
    }
    stands_open(receivers, place, connection.home().subscriber) && !connection.is_closed(channel)
}

// Counts the holders after a put.
fn recount(book: &mut SlotBook, outcome: PutOutcome, slot: usize)
    requires in_use { IsInUse book.old slot }
    requires fits { holders_at book.old slot + 1 < 2 ^ 64 }
    requires overwritten { CanLeave outcome book.old.holders }
    ensures { book.new ≡ with_counters book.old (recounted outcome slot book.old.holders) }
{
    match outcome {
        PutOutcome::Taken => book.hold(slot),
        PutOutcome::Overwrote(oldest) => {
            book.hold(slot);
            book.release(oldest);
        }
        PutOutcome::Full => {}
    }
}

// Reclaims what was given back in the connection at one place, if there is one, and puts the slot
// into it if its subscriber and its channel are open.
#[inline(always)]
fn deliver_at<R: Receiver, F: BackpressureFn>(
    config: &ServiceConfig,
    delivery: &Delivery,
    handler: &Option<BackpressureHandler<F>>,
    connections: &mut Slab<Connection>,
    book: &mut SlotBook,
    keys: &[Option<usize>],
    receivers: &Vec<Option<R>>,
    place: usize,
) -> Reception
    requires at { place < length keys.now }
    requires known { HaveChannel delivery.now.channel connections.old }
    requires ready { IsReadyToDeliver delivery.now.publisher connections.old keys.now (map (option_map R.details_of) receivers.now.items) }
    requires own { HoldsItself delivery.now.publisher delivery.now.slot book.old.holders connections.old.slots }
    requires fits { holders_at book.old delivery.now.slot + 1 < 2 ^ 64 }
    requires covered { IsCovered delivery.now.publisher book.old.holders connections.old.slots }
    ensures puts { PutsSlot (asked F.allows handler.now) config.now delivery.now handler.now
        (map (option_map R.details_of) receivers.now.items) place (slice_index_or keys.now place None)
        connections.old result connections.new }
    ensures book { book.new ≡ with_counters book.old book.new.holders }
    ensures recounts { Recounts delivery.now.publisher book.old.holders connections.old book.new.holders connections.new }
    ensures grows { holders_at book.new delivery.now.slot ≤ holders_at book.old delivery.now.slot + 1 }
    ensures alone { GrowsAlone delivery.now.slot book.old.holders book.new.holders }
{
    let Some(key) = keys[place] else {
        return Reception::Skipped;
    };
    let connection = &mut connections[key];
    reclaim_from(connection, book);
    if !is_open(connection, receivers, place, delivery.channel) {
        return Reception::Skipped;
    }
    let outcome = connection.put(delivery.channel, delivery.slot, config.enable_safe_overflow);
    recount(book, outcome, delivery.slot);
    reception_of(config, delivery, handler, place, connection, outcome)
}

/// Delivers a message into a channel of the connections at the places that remain, one after the
/// other, until a receiver blocks it. What each gave back is reclaimed first. A receiver is skipped
/// if it is closed or its channel is. One with room takes the message, and with safe overflow each
/// does. At any other the handler decides, or the strategy if there is no handler.
///
/// A send starts at the first place. A send that was blocked goes on where it blocked, or behind
/// that receiver, with what it has counted so far.
///
/// At each subscriber's place `keys` has the key of the publisher's connection to it, and
/// `receivers` the subscriber that is there now. It is the vector itself, which is read only for a
/// subscriber that may be closed. The count of holders of each slot in `book` follows: it grows
/// with each connection that takes the slot, and shrinks if the slot is overwritten or reclaimed.
///
/// iceoryx2's `Sender::deliver_offset` (`src/port/details/sender.rs`).
#[inline(always)]
pub fn deliver<R: Receiver, F: BackpressureFn>(
    config: &ServiceConfig,
    delivery: &Delivery,
    handler: &Option<BackpressureHandler<F>>,
    connections: &mut Slab<Connection>,
    book: &mut SlotBook,
    keys: &[Option<usize>],
    receivers: &Vec<Option<R>>,
) -> DeliveryOutcome
    requires known { HaveChannel delivery.now.channel connections.old }
    requires ready { IsReadyToDeliver delivery.now.publisher connections.old keys.now (map (option_map R.details_of) receivers.now.items) }
    requires own { HoldsItself delivery.now.publisher delivery.now.slot book.old.holders connections.old.slots }
    requires start { delivery.now.start.place ≤ length keys.now }
    requires counted { delivery.now.start.count ≤ delivery.now.start.place }
    requires fits { holders_at book.old delivery.now.slot + length keys.now < 2 ^ 64 + delivery.now.start.place }
    requires covered { IsCovered delivery.now.publisher book.old.holders connections.old.slots }
    ensures delivers { DeliversSlot (asked F.allows handler.now) config.now delivery.now handler.now
        (map (option_map R.details_of) receivers.now.items) keys.now
        connections.old result connections.new }
    ensures book { book.new ≡ with_counters book.old book.new.holders }
    ensures recounts { Recounts delivery.now.publisher book.old.holders connections.old book.new.holders connections.new }
    ensures grows { holders_at book.new delivery.now.slot + delivery.now.start.place ≤ holders_at book.old delivery.now.slot + length keys.now }
    ensures alone { GrowsAlone delivery.now.slot book.old.holders book.new.holders }
{
    let start = delivery.start;
    let mut missed = start.place - start.count;
    let mut has_failed = start.has_failed;
    for place in start.place..keys.len() {
        let reception = deliver_at(
            config,
            delivery,
            handler,
            connections,
            book,
            keys,
            receivers,
            place,
        );
        if reception.is_blocking() {
            return DeliveryOutcome::Suspended(Progress {
                place,
                retries: delivery.retries_at(place),
                count: place - missed,
                has_failed,
            });
        }
        missed = count_missed(missed, reception);
        has_failed |= reception.is_failed();
    }
    DeliveryOutcome::Complete {
        count: keys.len() - missed,
        has_failed,
    }
}

// Reclaims all slots that were given back in a connection. Mostly that is one, and then nothing is
// looked at again (docs/DECISIONS.md, "A delivery mostly reclaims one slot").
pub(crate) fn reclaim_from(connection: &mut Connection, book: &mut SlotBook)
    requires { IsHeld book.old.holders connection.old }
    ensures book { book.new ≡ with_counters book.old book.new.holders }
    ensures reclaims { ReclaimsFrom book.old.holders connection.old book.new.holders connection.new }
    ensures all { connection.new.returned ≡ [] }
{
    let Some(slot) = connection.reclaim() else {
        return;
    };
    book.release(slot);
    if connection.has_returned() {
        reclaim_rest(connection, book);
    }
}

// The same, however many they are.
#[cold]
#[inline(never)]
fn reclaim_rest(connection: &mut Connection, book: &mut SlotBook)
    requires { IsHeld book.old.holders connection.old }
    ensures book { book.new ≡ with_counters book.old book.new.holders }
    ensures reclaims { ReclaimsFrom book.old.holders connection.old book.new.holders connection.new }
    ensures all { connection.new.returned ≡ [] }
{
    while let Some(slot) = connection.reclaim() {
        book.release(slot);
    }
}

// Reclaims all slots from the connection at a key.
fn reclaim_at(publisher: u128, connections: &mut Slab<Connection>, book: &mut SlotBook, key: usize)
    requires own { IsSomeAnd (get connections.old key) (λ c. c.home.publisher ≡ publisher) }
    requires apart { IsApart connections.old }
    requires covered { IsCovered publisher book.old.holders connections.old.slots }
    ensures book { book.new ≡ with_counters book.old book.new.holders }
    ensures reclaims { Reclaims publisher book.old.holders connections.old book.new.holders connections.new }
    ensures all { returned_count connections.new key ≡ 0 }
{
    reclaim_from(&mut connections[key], book);
}

/// Reclaims every slot that was given back in the publisher's connections at these keys. Each time
/// the slot has one holder less. A publisher calls this when none of its slots is free.
///
/// iceoryx2's `Sender::retrieve_returned_samples` (`src/port/details/sender.rs`).
pub fn reclaim_all(
    publisher: u128,
    connections: &mut Slab<Connection>,
    book: &mut SlotBook,
    keys: &[Option<usize>],
)
    requires linked { IsSenderLinked publisher connections.old keys.now }
    requires apart { IsApart connections.old }
    requires covered { IsCovered publisher book.old.holders connections.old.slots }
    ensures book { book.new ≡ with_counters book.old book.new.holders }
    ensures reclaims { Reclaims publisher book.old.holders connections.old book.new.holders connections.new }
    ensures all { HasReclaimed connections.new keys.now }
{
    for index in 0..keys.len() {
        if let Some(key) = keys[index] {
            reclaim_at(publisher, connections, book, key);
        }
    }
}

/// What waits in the publisher's connection at a key is lost, and what was given back there is
/// reclaimed: each of these slots has one holder less. What is borrowed stays.
///
/// iceoryx2's `Sender::remove_connection` (`src/port/details/sender.rs`) reclaims them so.
pub fn drop_all(
    publisher: u128,
    connections: &mut Slab<Connection>,
    book: &mut SlotBook,
    key: usize,
)
    requires own { IsSomeAnd (get connections.old key) (λ c. c.home.publisher ≡ publisher) }
    requires apart { IsApart connections.old }
    requires covered { IsCovered publisher book.old.holders connections.old.slots }
    ensures book { book.new ≡ with_counters book.old book.new.holders }
    ensures drops { DropsAll publisher book.old.holders connections.old key book.new.holders connections.new }
{
    let emptied = &mut connections[key];
    drops::drop_waiting(emptied, book);
    reclaim_from(emptied, book);
}

/// Takes out the publisher's connection at a key, from which nothing is borrowed. Each slot that
/// was in it has one holder less.
///
/// iceoryx2's `Sender::remove_connection` (`src/port/details/sender.rs`).
pub fn remove_connection(
    publisher: u128,
    connections: &mut Slab<Connection>,
    book: &mut SlotBook,
    key: usize,
)
    requires own { IsSomeAnd (get connections.old key) (λ c. c.home.publisher ≡ publisher) }
    requires unused { IsSomeAnd (get connections.old key) (λ c. c.borrowed ≡ []) }
    requires apart { IsApart connections.old }
    requires covered { IsCovered publisher book.old.holders connections.old.slots }
    ensures book { book.new ≡ with_counters book.old book.new.holders }
    ensures removes { RemovesConnection publisher book.old.holders connections.old key book.new.holders connections.new }
{
    drop_all(publisher, connections, book, key);
    connections.remove(key);
}

// Puts a slot into a connection with room for it, and counts one holder more.
fn put_in_room(connection: &mut Connection, book: &mut SlotBook, slot: usize)
    requires room { length connection.old.waiting < connection.old.buffer }
    requires alone { load connection.old ≡ length connection.old.waiting }
    requires in_use { 0 < holders_at book.old slot }
    requires fits { holders_at book.old slot + 1 < 2 ^ 64 }
    ensures connection { connection.new ≡ record connection.old { waiting = connection.old.waiting ++ slot ∷ [] } }
    ensures book { book.new ≡ with_counters book.old (one_holder_more slot book.old.holders) }
{
    if let PutOutcome::Taken = connection.put(0, slot, false) {
        book.hold(slot);
    }
}

/// Puts the last messages of a publisher's history into a connection that has no slots: as many as
/// may wait there, the oldest first. Each of them has one holder more.
///
/// iceoryx2's `PublisherSharedState::deliver_sample_history` (`src/port/publisher.rs`).
pub fn deliver_history(
    history: &HeapCircularBuffer<usize>,
    connection: &mut Connection,
    book: &mut SlotBook,
)
    requires empty { load connection.old ≡ 0 }
    requires in_use { (slot : ℕ) → 0 < times slot history.now.items → 0 < holders_at book.old slot }
    requires fits { (slot : ℕ) → holders_at book.old slot + times slot history.now.items < 2 ^ 64 }
    ensures connection { connection.new ≡ record connection.old { waiting = last_n connection.old.buffer history.now.items } }
    ensures book { book.new ≡ with_counters book.old book.new.holders }
    ensures slots { length book.new.holders ≡ length book.old.holders }
    ensures counters { (slot : ℕ) → holders_at book.new slot ≡ holders_at book.old slot + times slot (last_n connection.old.buffer history.now.items) }
{
    let first = history.len().saturating_sub(connection.buffer());
    for index in first..history.len() {
        if let Some(slot) = history.get(index) {
            put_in_room(connection, book, *slot);
        }
    }
}
