//! The values of a payload.
ghost use Rattle.std.specs.Prelude.{◌≡◌, ◌<◌, ◌≤◌, [], ◌∷◌, length, slice_get, vec_capacity, Some, IfOk};
ghost use Rattle.std.specs.Borrow.{sem};
ghost use Rattle.iox2_contents.specs.SlotCalls.{AnswersInOrder};
ghost use Rattle.iox2_contents.specs.RoomLists.{with_items};

use std::alloc::{AllocError, Global};
use std::marker::Model;
use std::mem;

/// The values of a written loan or a sent message, and none if there is no such payload.
///
/// The values that were there before stay until other values are written.
#[derive(Drop)]
pub(crate) struct Values<T> {
    kept: Vec<T>,
    // How many of the kept values are the payload's.
    written: usize,
}

impl<T> Model for Values<T> {
    ghost use Rattle.std.specs.Prelude.{◌≤◌, length, take, vec_capacity};
    ghost use Rattle.iox2_contents.specs.RoomLists.{RoomList};

    ghost Value = { RoomList T };

    ghost view = { λ values. record {
      items = take values.written values.kept.items;
      room = vec_capacity values.kept;
    } };

    ghost invariant = { λ values. values.written ≤ length values.kept.items };
}

impl<T: Drop> Values<T> {
    /// No values, with room for `room` of them.
    pub(crate) fn new(alloc: Global, room: usize) -> Result<Self, AllocError>
        ensures items { IfOk result (λ values. values.items ≡ []) }
        ensures room { IfOk result (λ values. values.room ≡ room) }
    {
        Ok(Values {
            kept: Vec::with_capacity(alloc, room)?,
            written: 0,
        })
    }

    /// The payload has no values any more. They are dropped when others are written.
    pub(crate) fn hide(&mut self)
        ensures { self.new ≡ with_items [] self.old }
    {
        self.written = 0;
    }

    /// Drops the values, with their memory.
    pub(crate) fn free_memory(&mut self, alloc: Global)
        ensures items { self.new.items ≡ [] }
        ensures room { self.new.room ≡ 0 }
    {
        self.kept = Vec::new(alloc);
        self.written = 0;
    }

    /// Writes a single value.
    pub(crate) fn write(&mut self, value: T)
        requires { 1 ≤ self.old.room }
        ensures { self.new ≡ with_items (value ∷ []) self.old }
    {
        self.kept.clear();
        self.kept.push_reserved(value);
        self.written = 1;
    }

    /// Writes what the function returns for 0, 1 and so on.
    pub(crate) fn write_from_fn<F: FnMut(usize) -> T + Drop>(&mut self, count: usize, f: F)
        requires callable { F.IsAlwaysCallable f }
        requires room { count ≤ self.old.room }
        ensures answers { AnswersInOrder F.step f self.new.items }
        ensures count { length self.new.items ≡ count }
        ensures written { self.new ≡ with_items self.new.items self.old }
    {
        let values = push_calls(self.take_empty(), count, f);
        self.put(values);
    }

    /// Takes out the list with its room, and empties it. Loops push to a list that they own, so
    /// that its length needn't be stored at each push
    /// (docs/DECISIONS.md, "A list of elements is taken out to be filled").
    pub(crate) fn take_empty(&mut self) -> Vec<T>
        ensures empty { result.items ≡ [] }
        ensures room { vec_capacity result ≡ self.old.room }
    {
        self.kept.clear();
        self.written = 0;
        let alloc = *self.kept.allocator();
        mem::replace(&mut self.kept, Vec::new(alloc))
    }

    /// Takes the list, whose items are the payload's values.
    pub(crate) fn put(&mut self, values: Vec<T>)
        ensures items { self.new.items ≡ values.items }
        ensures room { self.new.room ≡ vec_capacity values }
    {
        self.written = values.len();
        self.kept = values;
    }
}

impl<T: Copy + Drop> Values<T> {
    /// Writes copies of the items. If at least as many values were there, it is one copy of memory.
    pub(crate) fn write_from_slice(&mut self, items: &[T])
        requires { length items.now ≤ self.old.room }
        ensures { self.new ≡ with_items items.now self.old }
    {
        if self.kept.len() < items.len() {
            let values = push_copies(self.take_empty(), items);
            self.put(values);
        } else {
            self.kept.slice_mut(..items.len()).copy_from_slice(items);
            self.written = items.len();
        }
    }
}

impl<T: Copy + Default + Drop> Values<T> {
    /// Writes `count` values: those that were there, followed by default values if there were
    /// fewer.
    pub(crate) fn write_unspecified(&mut self, count: usize)
        requires { count ≤ self.old.room }
        ensures count { length self.new.items ≡ count }
        ensures written { self.new ≡ with_items self.new.items self.old }
    {
        if self.kept.len() < count {
            fill_up(&mut self.kept, count);
        }
        self.written = count;
    }
}

impl<T> Values<T> {
    ghost use Rattle.iox2_contents.specs.RoomLends.{ListLendsValue, ListLendsValues};

    /// The values.
    pub(crate) fn values(&self) -> &[T]
        ensures { result.now ≡ self.now.items }
    {
        &self.kept[..self.written]
    }

    /// The first value, to be changed.
    pub(crate) fn value_mut(&mut self) -> &mut T
        requires { 0 < length self.old.items }
        ensures* writes_back { sem 𝓛 (ListLendsValue T.row self.entry result) }
        ensures value { slice_get self.old.items 0 ≡ Some result.now }
    {
        &mut self.kept[0]
    }

    /// The values, to be changed.
    pub(crate) fn values_mut(&mut self) -> &mut [T]
        ensures* writes_back { sem 𝓛 (ListLendsValues T.row self.entry result) }
        ensures value { result.now ≡ self.old.items }
    {
        self.kept.slice_mut(..self.written)
    }
}

// Appends what the calls of the function return for 0, 1 and so on.
fn push_calls<T, F: FnMut(usize) -> T + Drop>(mut values: Vec<T>, count: usize, mut f: F) -> Vec<T>
    requires callable { F.IsAlwaysCallable f }
    requires empty { values.items ≡ [] }
    requires room { count ≤ vec_capacity values }
    ensures answers { AnswersInOrder F.step f result.items }
    ensures count { length result.items ≡ count }
    ensures capacity { vec_capacity result ≡ vec_capacity values }
{
    for index in 0..count {
        values.push_reserved(f(index));
    }
    values
}

// Appends copies of the items.
fn push_copies<T: Copy>(mut values: Vec<T>, items: &[T]) -> Vec<T>
    requires empty { values.items ≡ [] }
    requires room { length items.now ≤ vec_capacity values }
    ensures values { result.items ≡ items.now }
    ensures capacity { vec_capacity result ≡ vec_capacity values }
{
    for item in items {
        values.push_reserved(*item);
    }
    values
}

// Appends default values until there are `count` values.
fn fill_up<T: Default>(values: &mut Vec<T>, count: usize)
    requires room { count ≤ vec_capacity values.old }
    requires fewer { length values.old.items ≤ count }
    ensures count { length values.new.items ≡ count }
    ensures room { vec_capacity values.new ≡ vec_capacity values.old }
{
    for _ in values.len()..count {
        values.push_reserved(T::default());
    }
}
