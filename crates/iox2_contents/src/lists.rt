//! Lists for the cells of the loans that are out.
ghost use Rattle.std.specs.Prelude.{◌≡◌, ◌<◌, length, true, false, IsSomeAnd, slice_get};
ghost use Rattle.iox2_contents.specs.SlotStates.{contents_of, slot_has_list, slot_waits};
ghost use Rattle.iox2_contents.specs.SlotRooms.{HasLists, HasListsBut};

use crate::cell_lists::CellLists;
use crate::content::Content;

/// Takes back the list that a slot may have, for another loan. The slot's cells are gone. Whether
/// it has a list is asked before they go, while the answer is at hand.
#[inline(always)]
pub(crate) fn recycle_list<T: Drop, U>(
    slots: &mut Vec<Content<T, U>>,
    lists: &mut CellLists<T>,
    slot: usize,
    had_list: bool,
)
    requires lists { HasListsBut slot lists.old.most lists.old.spare lists.old.room slots.old.items }
    requires known { IsSomeAnd (slice_get slots.old.items slot) (λ s. slot_has_list s ≡ had_list) }
    ensures same { contents_of lists.new.room slots.new.items ≡ contents_of lists.old.room slots.old.items }
    ensures lists { HasLists lists.new.most lists.new.spare lists.new.room slots.new.items }
{
    if had_list {
        take_back(slots, lists, slot);
    }
}

// The same for a slot that has a list.
#[cold]
#[inline(never)]
fn take_back<T: Drop, U>(slots: &mut Vec<Content<T, U>>, lists: &mut CellLists<T>, slot: usize)
    requires lists { HasListsBut slot lists.old.most lists.old.spare lists.old.room slots.old.items }
    requires has { IsSomeAnd (slice_get slots.old.items slot) (λ s. slot_has_list s ≡ true) }
    ensures same { contents_of lists.new.room slots.new.items ≡ contents_of lists.old.room slots.old.items }
    ensures lists { HasLists lists.new.most lists.new.spare lists.new.room slots.new.items }
{
    lists.put(slots[slot].take_list());
}

/// Gives a slot a list for its cells, if these need one to be written.
#[inline(always)]
pub(crate) fn ready<T: Drop, U>(
    slots: &mut Vec<Content<T, U>>,
    lists: &mut CellLists<T>,
    slot: usize,
)
    requires lists { HasLists lists.old.most lists.old.spare lists.old.room slots.old.items }
    requires within { slot < length slots.old.items }
    ensures same { contents_of lists.new.room slots.new.items ≡ contents_of lists.old.room slots.old.items }
    ensures lists { HasLists lists.new.most lists.new.spare lists.new.room slots.new.items }
    ensures ready { IsSomeAnd (slice_get slots.new.items slot) (λ s. slot_waits s ≡ false) }
{
    if slots[slot].waits() {
        hand_out(slots, lists, slot);
    }
}

// The same for a slot whose cells need one.
#[cold]
#[inline(never)]
fn hand_out<T: Drop, U>(slots: &mut Vec<Content<T, U>>, lists: &mut CellLists<T>, slot: usize)
    requires lists { HasLists lists.old.most lists.old.spare lists.old.room slots.old.items }
    requires waits { IsSomeAnd (slice_get slots.old.items slot) (λ s. slot_waits s ≡ true) }
    ensures same { contents_of lists.new.room slots.new.items ≡ contents_of lists.old.room slots.old.items }
    ensures lists { HasLists lists.new.most lists.new.spare lists.new.room slots.new.items }
    ensures ready { IsSomeAnd (slice_get slots.new.items slot) (λ s. slot_waits s ≡ false) }
{
    let list = lists.take();
    slots[slot].put_list(list);
}
