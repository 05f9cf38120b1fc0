//! The book of a publisher's slots.
ghost use Rattle.std.specs.Prelude.{ℕ, [], ◌∷◌, ◌≡◌, ◌+◌, ◌-◌, ◌<◌, ◌≤◌, ◌^◌, ◌↔◌, ◌++◌, length, map, drop};
ghost use Rattle.std.specs.Prelude.{slice_get, slice_index, slice_set, replicate, vec_capacity, Some, false, ◌==◌};
ghost use Rattle.std.specs.Prelude.{IsTrue, IsNone, IfSome, IfNone, IfOk};
ghost use Rattle.std.specs.List.{All, count_by};
ghost use Rattle.iox2_slots.specs.SlotFree.{HasFree, IsTakenOut};

use crate::slots::mark::SlotMark;
use crate::slots::slot::Slot;
use iox2_machine::{Header, UniqueNodeId, UniquePublisherId};
use std::alloc::{AllocError, Global};
use std::marker::Model;

/// What is known of a publisher's slots beside their contents: who lent them, which message is in
/// each, how far it has come, and how many holders it has.
///
/// A slot's holders are the user who has it as a loan, the publisher's history, and each connection
/// in which it waits, is borrowed, or was given back and isn't reclaimed yet. A slot without holders
/// is free: its number, header and mark mean nothing.
///
/// iceoryx2's `SegmentState` (`src/port/details/segment_state.rs`), which has the counters of
/// holders. There the headers are in shared memory, and an allocator has the list of free slots.
#[derive(Drop)]
pub struct SlotBook {
    node: UniqueNodeId,
    publisher: UniquePublisherId,
    // Each has a header of this publisher and its node from the start.
    slots: Vec<Slot>,
    // The slots without holders, each once. There is room for all.
    free: Vec<usize>,
}

impl Model for SlotBook {
    ghost use Rattle.std.specs.Prelude.{◌≤◌, length, map, vec_capacity};
    ghost use Rattle.iox2_slots.specs.SlotBook.{Book};
    ghost use Rattle.iox2_slots.specs.SlotFree.{HasFree};
    ghost use Rattle.iox2_slots.specs.SlotHeaders.{AreFrom};

    ghost Value = { Book };

    ghost view = { λ book. record {
      node = book.node;
      publisher = book.publisher;
      numbers = map (λ slot. slot.number) book.slots.items;
      headers = map (λ slot. slot.header) book.slots.items;
      marks = map (λ slot. slot.mark) book.slots.items;
      holders = map (λ slot. slot.holders) book.slots.items;
    } };

    ghost invariant = { λ book. record {
      exact : HasFree (map (λ slot. slot.holders) book.slots.items) book.free.items;
      room : length book.slots.items ≤ vec_capacity book.free;
      headers : AreFrom book.node book.publisher (map (λ slot. slot.header) book.slots.items);
    } };
}

impl SlotBook {
    ghost use Rattle.iox2_slots.specs.SlotBook.{IsAligned, IsInUse, IsUsedFor, TakesFreeSlot, header_in, holders_at, with_holders, with_more_slots};

    /// The book of a new publisher of this node, with `slots` slots, all of them free. Fails if
    /// memory runs out. Of the other calls on a book only `grown` takes memory.
    pub fn new(
        alloc: Global,
        node: UniqueNodeId,
        publisher: UniquePublisherId,
        slots: usize,
    ) -> Result<Self, AllocError>
        ensures node { IfOk result (λ book. book.node ≡ node) }
        ensures publisher { IfOk result (λ book. book.publisher ≡ publisher) }
        ensures unused { IfOk result (λ book. book.holders ≡ replicate slots 0) }
        ensures aligned { IfOk result IsAligned }
    {
        let header = Header {
            node_id: node,
            publisher_id: publisher,
            number_of_elements: 0,
        };
        let unused = Slot {
            number: 0,
            header,
            holders: 0,
            mark: SlotMark::Unwritten,
        };
        let free = all_slots(alloc, slots)?;
        let slots = vec![in alloc; unused; slots]?;
        Ok(SlotBook {
            node,
            publisher,
            slots,
            free,
        })
    }

    /// Gives a free slot to the message with this number and this many elements, and one holder.
    /// Its mark is `Unwritten`. `None` if every slot has a holder; the book then stays as it is.
    #[tactic(auto, using(crate::proofs::FreeSlots::taking))]
    pub fn take(&mut self, number: u128, len: u64) -> Option<usize>
        ensures none { IsNone result ↔ All (λ n. 0 < n) self.old.holders }
        ensures refused { IfNone result (self.new ≡ self.old) }
        ensures taken { IfSome result (λ slot. TakesFreeSlot self.old self.new slot number (header_in self.old len)) }
        ensures aligned { IsAligned self.new }
    {
        let slot = self.free.pop()?;
        let taken = &mut self.slots[slot];
        taken.number = number;
        taken.header.number_of_elements = len;
        taken.holders = 1;
        taken.mark = SlotMark::Unwritten;
        Some(slot)
    }

    /// Gives a free slot from this one on to the message with this number and this many elements,
    /// as `take` does. `None` if each of these slots has a holder; the book then stays as it is.
    #[tactic(auto, using(crate::proofs::LaterSlots::taking_from))]
    pub fn take_from(&mut self, start: usize, number: u128, len: u64) -> Option<usize>
        ensures none { IsNone result ↔ All (λ n. 0 < n) (drop start self.old.holders) }
        ensures refused { IfNone result (self.new ≡ self.old) }
        ensures taken { IfSome result (λ slot. TakesFreeSlot self.old self.new slot number (header_in self.old len)) }
        ensures from { IfSome result (λ slot. start ≤ slot) }
        ensures aligned { IsAligned self.new }
    {
        let slot = pop_from(&mut self.free, start)?;
        let taken = &mut self.slots[slot];
        taken.number = number;
        taken.header.number_of_elements = len;
        taken.holders = 1;
        taken.mark = SlotMark::Unwritten;
        Some(slot)
    }

    /// The same book with `more` new slots behind its own, all of them free. Fails if memory is
    /// refused.
    pub fn grown(&self, alloc: Global, more: usize) -> Result<Self, AllocError>
        ensures { IfOk result (λ book. book ≡ with_more_slots more self.now) }
    {
        let header = Header {
            node_id: self.node,
            publisher_id: self.publisher,
            number_of_elements: 0,
        };
        let unused = Slot {
            number: 0,
            header,
            holders: 0,
            mark: SlotMark::Unwritten,
        };
        let mut slots = Vec::from_slice(alloc, self.slots.as_slice())?;
        slots.reserve_exact(more)?;
        let mut free = Vec::with_capacity(alloc, slots.capacity())?;
        free.extend_from_slice(self.free.as_slice())?;
        add_unused(&mut slots, &mut free, &unused, more);
        Ok(SlotBook {
            node: self.node,
            publisher: self.publisher,
            slots,
            free,
        })
    }

    /// Counts one holder more of a slot that has one.
    pub fn hold(&mut self, slot: usize)
        requires in_use { IsInUse self.old slot }
        requires fits { holders_at self.old slot + 1 < 2 ^ 64 }
        ensures { self.new ≡ with_holders self.old slot (holders_at self.old slot + 1) }
    {
        self.slots[slot].holders += 1;
    }

    /// Counts one holder less of a slot that has one, and returns whether it was the last. The slot
    /// is then free.
    #[tactic(auto, using(crate::proofs::FreeSlots::free_room))]
    pub fn release(&mut self, slot: usize) -> bool
        requires { IsInUse self.old slot }
        ensures released { self.new ≡ with_holders self.old slot (holders_at self.old slot - 1) }
        ensures last { IsTrue result ↔ (holders_at self.old slot ≡ 1) }
    {
        let left = self.slots[slot].holders - 1;
        self.slots[slot].holders = left;
        if left == 0 {
            self.free.push_reserved(slot);
            return true;
        }
        false
    }

    /// Says how far the slot's message has come.
    pub fn set_mark(&mut self, slot: usize, mark: SlotMark)
        requires { slot < length self.old.holders }
        ensures { self.new ≡ record self.old { marks = slice_set self.old.marks slot mark } }
    {
        self.slots[slot].mark = mark;
    }

    /// Says how far the message with this number has come if the slot is in use for it, and returns
    /// whether it is. If it isn't, the book stays as it is. This is `has` and `set_mark` in one
    /// call.
    pub fn mark_message(&mut self, slot: usize, number: u128, mark: SlotMark) -> bool
        ensures used { IsTrue result ↔ IsUsedFor self.old number slot }
        ensures marked { IsTrue result → self.new ≡ record self.old { marks = slice_set self.old.marks slot mark } }
        ensures same { result ≡ false → self.new ≡ self.old }
    {
        if self.has(slot, number) {
            self.set_mark(slot, mark);
            return true;
        }
        false
    }

    /// The publisher whose slots these are.
    pub fn publisher(&self) -> UniquePublisherId
        ensures { result ≡ self.now.publisher }
    {
        self.publisher
    }

    /// The number of the message in the slot.
    pub fn number(&self, slot: usize) -> u128
        requires { slot < length self.now.holders }
        ensures { slice_get self.now.numbers slot ≡ Some result }
    {
        self.slots[slot].number
    }

    /// The header of the message in the slot.
    pub fn header(&self, slot: usize) -> &Header
        requires { slot < length self.now.holders }
        ensures { slice_get self.now.headers slot ≡ Some result.now }
    {
        &self.slots[slot].header
    }

    /// How far the message in the slot has come.
    pub fn mark(&self, slot: usize) -> SlotMark
        requires { slot < length self.now.holders }
        ensures { slice_get self.now.marks slot ≡ Some result }
    {
        self.slots[slot].mark
    }

    /// Whether the slot is in use for the message with this number.
    pub fn has(&self, slot: usize, number: u128) -> bool
        ensures { IsTrue result ↔ IsUsedFor self.now number slot }
    {
        match self.slots.get(slot) {
            Some(found) => found.holders > 0 && found.number == number,
            None => false,
        }
    }

    /// How many holders the slot has.
    pub fn holders(&self, slot: usize) -> usize
        requires { slot < length self.now.holders }
        ensures { result ≡ holders_at self.now slot }
    {
        self.slots[slot].holders
    }

    /// How many slots there are.
    pub fn len(&self) -> usize
        ensures len { result ≡ length self.now.holders }
        ensures aligned { IsAligned self.now }
    {
        self.slots.len()
    }

    /// Whether every slot has a holder, so that none can be taken.
    pub fn is_full(&self) -> bool
        ensures { IsTrue result ↔ All (λ n. 0 < n) self.now.holders }
    {
        self.free.is_empty()
    }

    /// Whether every slot from this one on has a holder, so that none of them can be taken.
    pub fn is_full_from(&self, start: usize) -> bool
        ensures { IsTrue result ↔ All (λ n. 0 < n) (drop start self.now.holders) }
    {
        last_from(&self.free, start).is_none()
    }

    /// How many slots have no holder.
    pub fn free_count(&self) -> usize
        ensures { result ≡ count_by (λ n. n == 0) self.now.holders }
    {
        self.free.len()
    }

    /// The free slots behind the first `known` of them. If so many were free once, and none was taken
    /// since, these are the slots that lost their last holder since then.
    pub fn freed_since(&self, known: usize) -> &[usize]
        ensures free { All (λ slot. (slot < length self.now.holders) × (holders_at self.now slot ≡ 0)) result.now }
        ensures count { length result.now ≡ count_by (λ n. n == 0) self.now.holders - known }
    {
        let known = known.min(self.free.len());
        &self.free[known..]
    }

    /// Whether no slot has a holder, so that the book may go.
    pub fn is_unused(&self) -> bool
        ensures { IsTrue result ↔ All (λ n. n ≡ 0) self.now.holders }
    {
        self.free.len() == self.slots.len()
    }
}

// Adds `more` unused slots behind these, and adds them to the free ones.
fn add_unused(slots: &mut Vec<Slot>, free: &mut Vec<usize>, unused: &Slot, more: usize)
    requires room { length slots.old.items + more ≤ vec_capacity slots.old }
    requires free_room { length slots.old.items + more ≤ vec_capacity free.old }
    requires exact { HasFree (map (λ slot. slot.holders) slots.old.items) free.old.items }
    requires unused { unused.now.holders ≡ 0 }
    ensures items { slots.new.items ≡ slots.old.items ++ replicate more unused.now }
    ensures exact { HasFree (map (λ slot. slot.holders) slots.new.items) free.new.items }
    ensures capacity { vec_capacity free.new ≡ vec_capacity free.old }
{
    for added in 0..more {
        let slot = slots.len();
        slots.push_reserved(*unused);
        free.push_reserved(slot);
    }
}

// Takes the newest of the free slots from this one on out of their list. The newest of all is
// looked at first: if no slot is older than this one, it is the one.
#[inline(always)]
fn pop_from(free: &mut Vec<usize>, start: usize) -> Option<usize>
    ensures none { IfNone result (All (λ slot. slot < start) free.old.items) }
    ensures refused { IfNone result (free.new.items ≡ free.old.items) }
    ensures taken { IfSome result (λ slot. (place : ℕ) × IsTakenOut free.old.items free.new.items place slot) }
    ensures from { IfSome result (λ slot. start ≤ slot) }
    ensures capacity { vec_capacity free.new ≡ vec_capacity free.old }
{
    let newest = free.pop()?;
    if newest < start {
        return another_from(free, newest, start);
    }
    Some(newest)
}

// The same if the newest of all, which was taken out, is older
// (docs/DECISIONS.md, "The newest free slot is taken first").
#[cold]
#[inline(never)]
fn another_from(free: &mut Vec<usize>, newest: usize, start: usize) -> Option<usize>
    requires room { length free.old.items + 1 ≤ vec_capacity free.old }
    ensures none { IfNone result (All (λ slot. slot < start) (free.old.items ++ newest ∷ [])) }
    ensures refused { IfNone result (free.new.items ≡ free.old.items ++ newest ∷ []) }
    ensures taken { IfSome result (λ slot. (place : ℕ) × IsTakenOut (free.old.items ++ newest ∷ []) free.new.items place slot) }
    ensures from { IfSome result (λ slot. start ≤ slot) }
    ensures capacity { vec_capacity free.new ≡ vec_capacity free.old }
{
    free.push_reserved(newest);
    let place = last_from(free, start)?;
    Some(free.remove(place))
}

// The last place in a list at which there is a slot from this one on. The newest are looked at
// first.
fn last_from(slots: &[usize], start: usize) -> Option<usize>
    ensures none { IfNone result (All (λ slot. slot < start) slots.now) }
    ensures there { IfSome result (λ place. (place < length slots.now) × (start ≤ slice_index slots.now place)) }
{
    for passed in 0..slots.len() {
        let place = slots.len() - 1 - passed;
        if slots[place] >= start {
            return Some(place);
        }
    }
    None
}

// The free slots of `slots` slots if none is in use.
#[tactic(auto, using(crate::proofs::FreeSlots::free_next))]
fn all_slots(alloc: Global, slots: usize) -> Result<Vec<usize>, AllocError>
    ensures exact { IfOk result (λ free. HasFree (replicate slots 0) free.items) }
    ensures room { IfOk result (λ free. slots ≤ vec_capacity free) }
{
    let mut free = Vec::with_capacity(alloc, slots)?;
    for slot in 0..slots {
        free.push_reserved(slot);
    }
    Ok(free)
}
