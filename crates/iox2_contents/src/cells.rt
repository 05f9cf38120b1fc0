//! The cells of an unwritten loan.
ghost use Rattle.std.specs.Prelude.{◌≡◌, ◌<◌, ◌≤◌, ◌+◌, ◌&&◌, ◌==◌, [], ◌++◌, length, map, nat_lt, replicate};
ghost use Rattle.std.specs.Prelude.{slice_get, vec_capacity, true, false, None, Some, IsSome, IfOk, is_some};
ghost use Rattle.std.specs.Borrow.{sem};
ghost use Rattle.std.specs.List.{All, list_all};
ghost use Rattle.iox2_contents.specs.CellLists.{with_cell_items, has_list, keeps, waits};

use std::alloc::{AllocError, Global};
use std::marker::Model;
use std::mem;

/// The cells of an unwritten loan, and none if there is no such loan.
///
/// They are listed once a reference is handed out that can write them. Until then a loan only has
/// their number, and shows cells that all loans of its publisher share. The list is one of those
/// that its publisher keeps for its loans, and goes back there. Each of these has room for two
/// cells or more. If a publisher keeps none, there is always room for one cell, and the others are
/// never listed. So the room tells whether there are such lists.
#[derive(Drop)]
pub(crate) struct Cells<T> {
    listed: Vec<Option<T>>,
    // How many cells aren't listed. None of them is written.
    unlisted: usize,
}

impl<T> Model for Cells<T> {
    ghost use Rattle.std.specs.Prelude.{◌≡◌, ◌<◌, ◌+◌, ◌^◌, ◌++◌, ◌==◌, Option, None, cond, length, replicate, vec_capacity};
    ghost use Rattle.iox2_contents.specs.CellLists.{CellList};

    ghost Value = { CellList T };

    ghost view = { λ cells. record {
      items = cells.listed.items ++ replicate cells.unlisted None;
      room = vec_capacity cells.listed;
      lists = cond (vec_capacity cells.listed == 1) 0 1;
    } };

    // With a list of their publisher's all cells are listed.
    ghost invariant = { λ cells. (length cells.listed.items + cells.unlisted < 2 ^ 64)
        × (1 < vec_capacity cells.listed → cells.unlisted ≡ 0) };
}

impl<T: Drop> Cells<T> {
    /// No cells, of a publisher that keeps `lists` lists. There is room for one cell if it keeps
    /// none.
    pub(crate) fn new(alloc: Global, lists: usize) -> Result<Self, AllocError>
        ensures items { IfOk result (λ cells. cells.items ≡ []) }
        ensures lists { IfOk result (λ cells. cells.lists ≡ keeps lists) }
        ensures own { IfOk result (λ cells. lists ≡ 0 → 0 < cells.room) }
        ensures none { IfOk result (λ cells. 0 < lists → cells.room ≡ 0) }
    {
        let room = if lists == 0 { 1 } else { 0 };
        Ok(Cells {
            listed: Vec::with_capacity(alloc, room)?,
            unlisted: 0,
        })
    }

    /// `len` unwritten cells, in place of those that were there.
    pub(crate) fn start(&mut self, len: usize)
        requires { 0 < self.old.lists → self.old.room ≡ 0 }
        ensures { self.new ≡ with_cell_items (replicate len None) self.old }
    {
        self.unlisted = len;
        self.listed.clear();
    }

    /// Drops the cells. Returns how many there were.
    pub(crate) fn clear(&mut self) -> usize
        ensures count { result ≡ length self.old.items }
        ensures cleared { self.new ≡ with_cell_items [] self.old }
    {
        let count = self.listed.len() + self.unlisted;
        self.listed.clear();
        self.unlisted = 0;
        count
    }

    /// Drops the cells. If they have one of their publisher's lists, its memory is freed. The room
    /// for one cell stays.
    pub(crate) fn free_memory(&mut self, alloc: Global)
        ensures items { self.new.items ≡ [] }
        ensures none { 0 < self.old.lists → self.new.room ≡ 0 }
        ensures lists { self.new.lists ≡ self.old.lists }
    {
        if self.listed.capacity() == 1 {
            self.listed.clear();
        } else {
            self.listed = Vec::new(alloc);
        }
        self.unlisted = 0;
    }

    /// Drops the cells, and takes out their list, which is their publisher's.
    pub(crate) fn take_list(&mut self) -> Vec<Option<T>>
        requires { has_list self.old ≡ true }
        ensures empty { result.items ≡ [] }
        ensures room { vec_capacity result ≡ self.old.room }
        ensures wide { 1 < vec_capacity result }
        ensures items { self.new.items ≡ [] }
        ensures none { self.new.room ≡ 0 }
        ensures lists { self.new.lists ≡ self.old.lists }
    {
        let alloc = *self.listed.allocator();
        let mut list = mem::replace(&mut self.listed, Vec::new(alloc));
        self.unlisted = 0;
        list.clear();
        list
    }

    /// Lists the cells, which wait for a list, in one of their publisher's lists.
    pub(crate) fn put_list(&mut self, list: Vec<Option<T>>)
        requires waits { waits self.old ≡ true }
        requires empty { list.items ≡ [] }
        requires room { length self.old.items ≤ vec_capacity list }
        requires wide { 1 < vec_capacity list }
        ensures items { self.new.items ≡ self.old.items }
        ensures room { self.new.room ≡ vec_capacity list }
        ensures lists { self.new.lists ≡ self.old.lists }
    {
        self.listed = list;
        push_unwritten(&mut self.listed, self.unlisted);
        self.unlisted = 0;
    }

    /// Moves the values out of the cells to the end of the list. Each cell is written.
    pub(crate) fn move_to(&mut self, values: Vec<T>) -> Vec<T>
        requires written { list_all is_some self.old.items ≡ true }
        requires empty { values.items ≡ [] }
        requires room { length self.old.items ≤ vec_capacity values }
        ensures values { map Some result.items ≡ self.old.items }
        ensures capacity { vec_capacity result ≡ vec_capacity values }
        ensures cleared { self.new ≡ with_cell_items [] self.old }
    {
        let values = move_values(self.listed.as_mut_slice(), values);
        self.listed.clear();
        values
    }
}

impl<T> Cells<T> {
    ghost use Rattle.iox2_contents.specs.RoomLends.{ListLendsCell, ListLendsCells};

    /// Whether each cell is written.
    pub(crate) fn are_written(&self) -> bool
        ensures { result ≡ list_all is_some self.now.items }
    {
        self.unlisted == 0 && self.listed.iter().all(|cell| cell.is_some())
    }

    /// Whether they have one of their publisher's lists.
    pub(crate) fn has_list(&self) -> bool
        ensures { result ≡ has_list self.now }
    {
        self.listed.capacity() > 1
    }

    /// Whether they need one of their publisher's lists before they can be written.
    pub(crate) fn waits(&self) -> bool
        ensures { result ≡ waits self.now }
    {
        self.listed.capacity() == 0 && self.unlisted > 0
    }

    /// The first cell. If it isn't listed, it is one of the unwritten ones.
    pub(crate) fn cell<'a>(&'a self, unwritten: &'a [Option<T>]) -> &'a Option<T>
        requires first { 0 < length self.now.items }
        requires unwritten { unwritten.now ≡ replicate (length unwritten.now) None }
        requires enough { 0 < length unwritten.now }
        ensures { slice_get self.now.items 0 ≡ Some result.now }
    {
        if self.listed.is_empty() {
            return &unwritten[0];
        }
        &self.listed[0]
    }

    /// The cells, of a publisher that keeps lists. If they aren't listed, they are as many of the
    /// unwritten ones.
    pub(crate) fn cells<'a>(&'a self, unwritten: &'a [Option<T>]) -> &'a [Option<T>]
        requires lists { 0 < self.now.lists }
        requires unwritten { unwritten.now ≡ replicate (length unwritten.now) None }
        requires enough { length self.now.items ≤ length unwritten.now }
        ensures { result.now ≡ self.now.items }
    {
        if self.unlisted == 0 {
            return self.listed.as_slice();
        }
        &unwritten[..self.unlisted]
    }

    /// The first cell, to be changed. It is listed, or there is room to list it.
    pub(crate) fn cell_mut(&mut self) -> &mut Option<T>
        requires first { 0 < length self.old.items }
        requires room { 0 < self.old.room }
        ensures* writes_back { sem 𝓛 (ListLendsCell T.row self.entry result) }
        ensures value { slice_get self.old.items 0 ≡ Some result.now }
    {
        if self.listed.is_empty() {
            push_unwritten(&mut self.listed, 1);
            self.unlisted -= 1;
        }
        &mut self.listed[0]
    }

    /// The cells, to be changed. They are listed if there are any.
    pub(crate) fn cells_mut(&mut self) -> &mut [Option<T>]
        requires lists { 0 < self.old.lists }
        requires ready { waits self.old ≡ false }
        ensures* writes_back { sem 𝓛 (ListLendsCells T.row self.entry result) }
        ensures value { result.now ≡ self.old.items }
    {
        self.listed.as_mut_slice()
    }
}

/// Appends `len` unwritten cells.
pub(crate) fn push_unwritten<T>(cells: &mut Vec<Option<T>>, len: usize)
    requires room { length cells.old.items + len ≤ vec_capacity cells.old }
    ensures cells { cells.new.items ≡ cells.old.items ++ replicate len None }
    ensures room { vec_capacity cells.new ≡ vec_capacity cells.old }
{
    for _ in 0..len {
        cells.push_reserved(None);
    }
}

// Moves the values out of written cells.
fn move_values<T>(cells: &mut [Option<T>], mut values: Vec<T>) -> Vec<T>
    requires written { All IsSome cells.old }
    requires empty { values.items ≡ [] }
    requires room { length cells.old ≤ vec_capacity values }
    ensures values { map Some result.items ≡ cells.old }
    ensures capacity { vec_capacity result ≡ vec_capacity values }
{
    for cell in cells.iter_mut() {
        values.push_reserved(cell.take().unwrap());
    }
    values
}
