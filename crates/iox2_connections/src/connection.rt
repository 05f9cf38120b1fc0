//! What is between one publisher and one subscriber: numbers of the publisher's slots.
ghost use Rattle.std.specs.Prelude.{◌≡◌, ◌+◌, ◌<◌, ◌↔◌, length, Contains, IfOk, IsTrue};
ghost use Rattle.iox2_connections.specs.Link.{load, is_shut_in, empty_link, channel_at, has_slots, has_other_slots};
ghost use Rattle.iox2_connections.specs.Link.{has_borrowed_slots, has_returned_slots, can_borrow, is_shut};
ghost use Rattle.iox2_connections.specs.Link.{with_mark, state_changed, hint_set, with_returned, without_borrowed};
ghost use Rattle.iox2_connections.specs.Link.{IsBounded};
ghost use Rattle.iox2_machine.specs.machine.Numbers.{IsOnce};

use crate::channel_status::ChannelStatus;
use crate::further_channel::{FurtherChannel, first_filled, new_channels, put_into};
use crate::slot_list::take_slot;
use circular_buffer::HeapCircularBuffer;
use std::alloc::{AllocError, Global};
use std::marker::Model;

/// Which two ports a connection joins, and at which place each of them knows it. It never changes.
#[derive(Debug, Clone, Copy, PartialEq, Eq)]
pub struct Home {
    /// The id of the publisher.
    pub publisher: u128,
    /// The id of the subscriber.
    pub subscriber: u128,
    /// The publisher's place among the publishers, at which the subscriber knows the connection.
    pub publisher_place: usize,
    /// The subscriber's place among the subscribers, at which the publisher knows the connection.
    pub subscriber_place: usize,
    /// The key of the book with the publisher's slots.
    pub book: usize,
}

/// The outcome of `Connection::put`.
#[derive(Debug, Clone, Copy, PartialEq, Eq)]
pub enum PutOutcome {
    /// The slot waits, and there was room for it.
    Taken,
    /// The slot waits. This one, the oldest of those that waited, made room for it and is gone.
    Overwrote(usize),
    /// There was no room, and nothing has changed.
    Full,
}

/// A connection of one publisher and one subscriber. It holds numbers of the publisher's slots:
/// those that wait in its channels, those that the subscriber has borrowed, and those that it has
/// given back and the publisher hasn't reclaimed yet. A subscriber receives only from channel 0.
/// Only `new` allocates.
///
/// iceoryx2's `zero_copy_connection`, whose two ends are the `Sender` and the `Receiver` of
/// `src/port/details`: a submission queue, a list of borrowed offsets and a completion queue.
#[derive(Drop)]
pub struct Connection {
    // In channel 0.
    waiting: HeapCircularBuffer<usize>,
    // Its capacity is how many may be borrowed (docs/DECISIONS.md, "A connection takes 192 bytes").
    borrowed: Vec<usize>,
    returned: HeapCircularBuffer<usize>,
    // The channels behind channel 0, by number.
    further: Vec<FurtherChannel>,
    // Of channel 0.
    status: ChannelStatus,
    // The fields of its `Home`, one by one: the mark behind them then needs no room of its own.
    publisher: u128,
    subscriber: u128,
    publisher_place: usize,
    subscriber_place: usize,
    book: usize,
    is_open: bool,
}

impl Model for Connection {
    ghost use Rattle.iox2_connections.specs.Link.{Link};

    ghost Value = { Link };

    ghost use Rattle.iox2_connections.specs.LinkFields.{link_of, IsConnection};

    ghost view = { link_of };

    ghost invariant = { IsConnection };
}

impl Connection {
    ghost use Rattle.iox2_connections.specs.Link.{IsPut, IsTaken, IsDropped, IsOtherDropped, IsReclaimed};

    /// A connection with `channels` channels, all of them open. It has no slots, and isn't marked
    /// as open. At most `buffer` slots wait in each channel, and at most `limit` are borrowed.
    ///
    /// Returns `AllocError` if memory is refused, or if `buffer + limit + 1`, the room for slots
    /// that are given back, doesn't fit `usize`.
    pub fn new(
        alloc: Global,
        home: Home,
        buffer: usize,
        limit: usize,
        channels: usize,
    ) -> Result<Connection, AllocError>
        requires room { 0 < buffer }
        requires channel { 0 < channels }
        ensures { IfOk result (λ c. c ≡ empty_link home buffer limit channels) }
    {
        let Some(room) = buffer.checked_add(limit).and_then(|sum| sum.checked_add(1)) else {
            return Err(AllocError);
        };
        let waiting = HeapCircularBuffer::with_capacity(alloc, buffer)?;
        let borrowed = Vec::with_capacity(alloc, limit)?;
        let returned = HeapCircularBuffer::with_capacity(alloc, room)?;
        let further = new_channels(alloc, buffer, channels - 1)?;
        Ok(Connection {
            waiting,
            borrowed,
            returned,
            further,
            status: ChannelStatus::new(),
            publisher: home.publisher,
            subscriber: home.subscriber,
            publisher_place: home.publisher_place,
            subscriber_place: home.subscriber_place,
            book: home.book,
            is_open: false,
        })
    }

    /// Which ports the connection joins, and where each of them knows it.
    pub fn home(&self) -> Home
        ensures value { result ≡ self.now.home }
        ensures bounded { IsBounded self.now }
    {
        Home {
            publisher: self.publisher,
            subscriber: self.subscriber,
            publisher_place: self.publisher_place,
            subscriber_place: self.subscriber_place,
            book: self.book,
        }
    }

    /// Whether the connection is marked as open. Its owner says what the mark means.
    pub fn is_open(&self) -> bool
        ensures value { result ≡ self.now.is_open }
        ensures bounded { IsBounded self.now }
    {
        self.is_open
    }

    /// Marks the connection as open, if `is_open` is set and its channel 0 isn't closed. If not,
    /// takes the mark away.
    pub fn set_open(&mut self, is_open: bool)
        ensures marked { self.new ≡ with_mark is_open self.old }
        ensures bounded { IsBounded self.new }
    {
        self.is_open = is_open && !self.status.is_closed();
    }

    // The status of the channel, or a new one if there is no channel with that number.
    fn status_of(&self, channel: usize) -> ChannelStatus
        ensures { result ≡ channel_at self.now.channels channel }
    {
        if channel == 0 {
            return self.status;
        }
        match self.further.get(channel - 1) {
            Some(further) => further.status,
            None => ChannelStatus::new(),
        }
    }

    /// The state of a channel. One that isn't there counts as new.
    pub fn channel_state(&self, channel: usize) -> u64
        ensures { result ≡ (channel_at self.now.channels channel).state }
    {
        self.status_of(channel).state()
    }

    /// Whether a channel is closed, and so takes no slots.
    pub fn is_closed(&self, channel: usize) -> bool
        ensures { result ≡ is_shut_in channel self.now }
    {
        self.status_of(channel).is_closed()
    }

    /// Whether a disconnect was hinted since the channel came into its state.
    pub fn has_disconnect_hint(&self, channel: usize) -> bool
        ensures { result ≡ (channel_at self.now.channels channel).has_hint }
    {
        self.status_of(channel).has_hint()
    }

    /// Brings a channel from the state `expected` into another, and takes its hint away. Nothing
    /// changes if it is in any other state, or if there is no such channel. If channel 0 closes,
    /// the connection isn't marked as open any more.
    pub fn change_state(&mut self, channel: usize, expected: u64, state: u64)
        ensures changed { self.new ≡ state_changed channel expected state self.old }
        ensures bounded { IsBounded self.new }
    {
        if channel == 0 {
            self.status.change_state(expected, state);
            self.is_open = self.is_open && !self.status.is_closed();
        } else if channel - 1 < self.further.len() {
            let further = &mut self.further[channel - 1].status;
            further.change_state(expected, state);
        }
    }

    /// Hints a disconnect, if there is such a channel and it is in the state `expected`.
    pub fn set_disconnect_hint(&mut self, channel: usize, expected: u64)
        ensures hinted { self.new ≡ hint_set channel expected self.old }
        ensures bounded { IsBounded self.new }
    {
        if channel == 0 {
            self.status.set_hint(expected);
        } else if channel - 1 < self.further.len() {
            let further = &mut self.further[channel - 1].status;
            further.set_hint(expected);
        }
    }

    /// How many slots may wait in a channel.
    pub fn buffer(&self) -> usize
        ensures { result ≡ self.now.buffer }
    {
        self.waiting.capacity()
    }

    /// Puts a slot behind those that wait in a channel. If there is no room and `overflow` is set,
    /// the oldest of them goes; if it isn't set, nothing changes. There is such a channel, and what
    /// was given back is reclaimed before.
    #[inline(always)]
    pub fn put(&mut self, channel: usize, slot: usize, overflow: bool) -> PutOutcome
        requires returned { length self.old.returned ≡ 0 }
        requires channel { 0 < channel → channel < length self.old.channels }
        ensures put { IsPut channel self.old slot overflow result self.new }
        ensures bounded { IsBounded self.new }
    {
        if channel == 0 {
            put_into(&mut self.waiting, slot, overflow)
        } else {
            put_into(&mut self.further[channel - 1].waiting, slot, overflow)
        }
    }

    /// Borrows the slot that has waited longest in channel 0. `None` if none waits there.
    pub fn take(&mut self) -> Option<usize>
        requires { length self.old.borrowed < self.old.limit }
        ensures takes { IsTaken self.old result self.new }
        ensures bounded { IsBounded self.new }
    {
        let slot = self.waiting.pop_front()?;
        self.borrowed.push_reserved(slot);
        Some(slot)
    }

    /// Lets go of the slot that has waited longest in channel 0. `None` if none waits there.
    pub fn drop_first(&mut self) -> Option<usize>
        ensures drops { IsDropped self.old result self.new }
        ensures bounded { IsBounded self.new }
    {
        self.waiting.pop_front()
    }

    /// Lets go of the slot that has waited longest in the first of the other channels in which some
    /// slot waits. `None` if none waits there.
    pub fn drop_other(&mut self) -> Option<usize>
        ensures drops { IsOtherDropped self.old result self.new }
        ensures bounded { IsBounded self.new }
    {
        let index = first_filled(&self.further)?;
        self.further[index].waiting.pop_front()
    }

    /// Gives back a slot, for the publisher to reclaim. The slot is borrowed once.
    pub fn release(&mut self, slot: usize)
        requires borrowed { Contains self.old.borrowed slot }
        requires once { IsOnce self.old.borrowed }
        ensures releases { self.new ≡ with_returned slot self.old }
        ensures bounded { IsBounded self.new }
    {
        take_slot(&mut self.borrowed, slot);
        if self.returned.try_push_back(slot).is_err() {
            unreachable!();
        }
    }

    /// Takes out a slot, without giving it back. The slot is borrowed once.
    pub fn let_go(&mut self, slot: usize)
        requires borrowed { Contains self.old.borrowed slot }
        requires once { IsOnce self.old.borrowed }
        ensures goes { self.new ≡ without_borrowed slot self.old }
        ensures bounded { IsBounded self.new }
    {
        take_slot(&mut self.borrowed, slot);
    }

    /// Reclaims the slot that was given back first. `None` if there is none.
    pub fn reclaim(&mut self) -> Option<usize>
        ensures reclaims { IsReclaimed self.old result self.new }
        ensures bounded { IsBounded self.new }
    {
        self.returned.pop_front()
    }

    /// Whether some slot waits in channel 0.
    pub fn has_data(&self) -> bool
        ensures { result ≡ has_slots self.now }
    {
        !self.waiting.is_empty()
    }

    /// Whether some slot waits in another channel.
    pub fn has_other_data(&self) -> bool
        ensures { result ≡ has_other_slots self.now }
    {
        first_filled(&self.further).is_some()
    }

    /// Whether some slot was given back and isn't reclaimed yet.
    pub fn has_returned(&self) -> bool
        ensures { result ≡ has_returned_slots self.now }
    {
        !self.returned.is_empty()
    }

    /// Whether some slot is borrowed.
    pub fn has_borrowed(&self) -> bool
        ensures { result ≡ has_borrowed_slots self.now }
    {
        !self.borrowed.is_empty()
    }

    /// Whether there is no slot in the connection.
    pub fn is_empty(&self) -> bool
        ensures { IsTrue result ↔ (load self.now ≡ 0) }
    {
        if self.has_other_data() {
            return false;
        }
        self.waiting.is_empty() && self.borrowed.is_empty() && self.returned.is_empty()
    }

    /// Whether `take` may be called and finds a slot.
    pub fn can_receive(&self) -> bool
        ensures { result ≡ can_borrow self.now }
    {
        self.has_data() && self.borrowed.len() < self.borrowed.capacity()
    }

    /// The slots that are borrowed, in the order of receipt.
    pub fn borrowed(&self) -> &[usize]
        ensures { result.now ≡ self.now.borrowed }
    {
        &self.borrowed
    }

    /// Whether the slot is borrowed, so that `release` may be called for it.
    pub fn is_borrowed(&self, slot: usize) -> bool
        ensures { IsTrue result ↔ Contains self.now.borrowed slot }
    {
        self.borrowed.contains(&slot)
    }
}
