//! The slots of the messages that subscribers have borrowed.
ghost use Rattle.std.specs.Prelude.{◌<◌, ◌↔◌, ℕ, length, Contains, IsTrue, MatchOption};
ghost use Rattle.iox2_domain.specs.SampleSlots.{HasNoneNumbered, IsNumberedSlot};

use crate::state::DomainState;
use iox2_connections::Connection;
use iox2_machine::{UniquePublisherId, UniqueSubscriberId};
use iox2_slots::SlotBook;

/// Names a message that a subscriber has borrowed, and says where it is looked for first.
#[derive(Drop)]
pub struct SampleAt {
    /// The subscriber that has borrowed it.
    pub subscriber: UniqueSubscriberId,
    /// Its number.
    pub number: u128,
    /// The key of the connection in which it is looked for first.
    pub connection: usize,
    /// The key of the book in which it is looked for first.
    pub book: usize,
    /// The slot in which it is looked for first.
    pub slot: usize,
}

/// A message that was received.
#[derive(Drop)]
pub struct Receipt {
    /// The publisher that sent it.
    pub publisher: UniquePublisherId,
    /// Its name as a sample, and where it is.
    pub sample: SampleAt,
}

/// Where a borrowed message is: the keys of its connection and of its publisher's book, and its
/// slot.
#[derive(Clone, Copy)]
pub struct SampleSlot {
    pub connection: usize,
    pub book: usize,
    pub slot: usize,
}

// The borrowed slot with a number.
fn find_borrowed(connection: &Connection, book: &SlotBook, number: u128) -> Option<usize>
    requires { (slot : ℕ) → Contains connection.now.borrowed slot → slot < length book.now.holders }
    ensures { MatchOption result (HasNoneNumbered connection.now book.now number) (IsNumberedSlot connection.now book.now number) }
{
    let borrowed = connection.borrowed();
    for index in 0..borrowed.len() {
        let slot = borrowed[index];
        if book.number(slot) == number {
            return Some(slot);
        }
    }
    None
}

impl<T: Drop, U: Default + Drop> DomainState<T, U> {
    ghost use Rattle.iox2_machine.specs.machine.SingleCalls.{HoldsSample};
    ghost use Rattle.iox2_domain.specs.Kept.{state_of};
    ghost use Rattle.iox2_domain.specs.Fields.{kept_of};
    ghost use Rattle.iox2_domain.specs.Invariant.{IsDomain};
    ghost use Rattle.iox2_domain.specs.SampleSlots.{BorrowsAt, LiesBorrowed};

    /// Where the message is that the subscriber has borrowed in the connection at the key, and
    /// `None` if it hasn't borrowed it there. Any key will do.
    pub fn find_sample_at(
        &self,
        key: usize,
        subscriber: UniqueSubscriberId,
        number: u128,
    ) -> Option<SampleSlot>
        requires { IsDomain self.now }
        ensures { MatchOption result (BorrowsAt self.now key subscriber number → ⊥) (LiesBorrowed self.now subscriber number) }
    {
        let connection = self.connections.get(key)?;
        let home = connection.home();
        if home.subscriber != subscriber.value() {
            return None;
        }
        let slot = find_borrowed(connection, &self.books[home.book], number)?;
        Some(SampleSlot {
            connection: key,
            book: home.book,
            slot,
        })
    }

    // Where the message is that the subscriber has borrowed, and `None` if it hasn't. Every
    // connection is gone through.
    #[cold]
    #[inline(never)]
    fn find_sample(&self, subscriber: UniqueSubscriberId, number: u128) -> Option<SampleSlot>
        requires { IsDomain self.now }
        ensures { MatchOption result (HoldsSample (state_of (kept_of self.now)) subscriber number → ⊥) (LiesBorrowed self.now subscriber number) }
    {
        for key in 0..self.connections.capacity() {
            let found = self.find_sample_at(key, subscriber, number);
            if found.is_some() {
                return found;
            }
        }
        None
    }

    /// Where a live sample is, whatever place it names.
    pub fn search_sample(&self, sample: &SampleAt) -> SampleSlot
        requires domain { IsDomain self.now }
        requires live { HoldsSample (state_of (kept_of self.now)) sample.now.subscriber sample.now.number }
        ensures { LiesBorrowed self.now sample.now.subscriber sample.now.number result }
    {
        let Some(at) = self.find_sample(sample.subscriber, sample.number) else {
            unreachable!()
        };
        at
    }

    /// Whether the subscriber has borrowed a message with this number.
    pub fn has_sample(&self, subscriber: UniqueSubscriberId, number: u128) -> bool
        requires { IsDomain self.now }
        ensures { IsTrue result ↔ HoldsSample (state_of (kept_of self.now)) subscriber number }
    {
        self.find_sample(subscriber, number).is_some()
    }
}
