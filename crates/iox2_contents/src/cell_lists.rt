//! The lists that a publisher keeps for the cells of its loans.
ghost use Rattle.std.specs.Prelude.{◌≡◌, ◌<◌, ◌≤◌, ◌+◌, [], length, replicate, vec_capacity, None, IfOk};

use crate::cells::push_unwritten;
use std::alloc::{AllocError, Global};
use std::marker::Model;

/// Cells that each loan can show, and lists for loans that have to list their own.
#[derive(Drop)]
pub(crate) struct CellLists<T> {
    // The first has the unwritten cells that each loan shows until it lists its own. It is never
    // handed out. The others are spare: as many as loans may be out, minus those that loans have
    // now.
    lists: Vec<Vec<Option<T>>>,
}

impl<T> Model for CellLists<T> {
    ghost use Rattle.std.specs.Prelude.{◌≡◌, ◌<◌, ◌≤◌, ◌-◌, [], None, length, replicate, vec_capacity};
    ghost use Rattle.iox2_contents.specs.SpareLists.{SpareLists, FirstAnd, of_first};

    ghost Value = { SpareLists };

    ghost view = { λ kept. record {
      most = of_first (λ list. length list.items) kept.lists.items;
      spare = length kept.lists.items - 1;
      room = vec_capacity kept.lists - 1;
    } };

    // The cells to show are unwritten. Each other list is empty, and has room for as many, and for
    // two.
    ghost invariant = { λ kept. FirstAnd (λ shown. shown.items ≡ replicate (length shown.items) None)
        (λ shown list. (list.items ≡ []) × (length shown.items ≤ vec_capacity list) × (1 < vec_capacity list)) kept.lists.items };
}

impl<T: Drop> CellLists<T> {
    /// `count` lists, each with room for `longest` cells, and for two at least. There are `longest`
    /// cells to show.
    pub(crate) fn new(alloc: Global, count: usize, longest: usize) -> Result<Self, AllocError>
        ensures most { IfOk result (λ lists. lists.most ≡ longest) }
        ensures spare { IfOk result (λ lists. lists.spare ≡ count) }
        ensures room { IfOk result (λ lists. lists.room ≡ count) }
    {
        let Some(all) = count.checked_add(1) else {
            return Err(AllocError);
        };
        let mut lists = Vec::with_capacity(alloc, all)?;
        lists.push_reserved(unwritten_cells(alloc, longest)?);
        for _ in 0..count {
            lists.push_reserved(Vec::with_capacity(alloc, longest.max(2))?);
        }
        Ok(CellLists { lists })
    }

    /// Takes back a list of a loan. It is kept if it has room for all cells that can be shown. A
    /// shorter one is of an older segment, and goes.
    pub(crate) fn put(&mut self, list: Vec<Option<T>>)
        requires empty { list.items ≡ [] }
        requires wide { 1 < vec_capacity list }
        ensures most { self.new.most ≡ self.old.most }
        ensures room { self.new.room ≡ self.old.room }
        ensures kept { self.old.spare ≤ self.new.spare }
        ensures back { self.old.most ≤ vec_capacity list → self.old.spare < self.old.room → self.new.spare ≡ self.old.spare + 1 }
    {
        if list.capacity() >= self.lists[0].len() && self.lists.len() < self.lists.capacity() {
            self.lists.push_reserved(list);
        }
    }

    /// Takes a list for a loan.
    pub(crate) fn take(&mut self) -> Vec<Option<T>>
        requires { 0 < self.old.spare }
        ensures empty { result.items ≡ [] }
        ensures long { self.old.most ≤ vec_capacity result }
        ensures wide { 1 < vec_capacity result }
        ensures most { self.new.most ≡ self.old.most }
        ensures room { self.new.room ≡ self.old.room }
        ensures less { self.new.spare + 1 ≡ self.old.spare }
    {
        let Some(list) = self.lists.pop() else {
            unreachable!()
        };
        list
    }
}

impl<T> CellLists<T> {
    /// Unwritten cells, as many as a loan may have to show.
    pub(crate) fn unwritten(&self) -> &[Option<T>]
        ensures { result.now ≡ replicate self.now.most None }
    {
        self.lists[0].as_slice()
    }

    /// How many cells a loan may have to show.
    pub(crate) fn longest(&self) -> usize
        ensures { result ≡ self.now.most }
    {
        self.lists[0].len()
    }
}

// `count` unwritten cells.
fn unwritten_cells<T: Drop>(alloc: Global, count: usize) -> Result<Vec<Option<T>>, AllocError>
    ensures unwritten { IfOk result (λ cells. cells.items ≡ replicate count None) }
{
    let mut cells = Vec::with_capacity(alloc, count)?;
    push_unwritten(&mut cells, count);
    Ok(cells)
}
