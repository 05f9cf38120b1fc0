//! The contents of a publisher's slots.
ghost use Rattle.std.specs.Prelude.{◌≡◌, ◌<◌, ◌≤◌, List, [], ◌∷◌, length, true, false, Some, IfOk, OnOk, OnErr};
ghost use Rattle.std.specs.Borrow.{sem};
ghost use Rattle.std.specs.List.{All};
ghost use Rattle.iox2_contents.specs.SlotCalls.{AnswersInOrder};
ghost use Rattle.iox2_contents.specs.SlotPayload.{lies_in_place};
ghost use Rattle.iox2_contents.specs.SlotStates.{IsNew};
ghost use Rattle.iox2_contents.specs.SlotContents.{SomeAt, AddsSlots, ClearsSlot, WritesValues, AssumesWritten};
ghost use Rattle.iox2_contents.specs.SlotContents.{StartsLoan, with_changed, written_content, ended_content};
ghost use Rattle.iox2_contents.specs.SlotContents.{lists_for, open_count, user_header_at, cells_at, values_at};
ghost use Rattle.iox2_contents.specs.SlotContents.{first_cell_at, first_value_at};

use crate::cell_lists::CellLists;
use crate::content::Content;
use crate::lists::{ready, recycle_list};
use std::alloc::{AllocError, Global};
use std::marker::Model;

/// What a publisher's users write and its subscribers' users read: for each slot the user header
/// and the payload.
///
/// A payload in its slot is dropped when the next loan starts there. A payload in lists is dropped
/// when another is written there. Either is dropped when the slot is cleared or the contents go.
#[derive(Drop)]
pub struct Contents<T, U> {
    slots: Vec<Content<T, U>>,
    // One vector more, and no third: the contents take 48 bytes, so that an entry of a slab is
    // found by one multiplication
    // (docs/DECISIONS.md, "The contents of a publisher take 48 bytes").
    lists: CellLists<T>,
}

impl<T, U> Model for Contents<T, U> {
    ghost use Rattle.std.specs.Prelude.{List};
    ghost use Rattle.iox2_contents.specs.SlotContents.{ContentState};
    ghost use Rattle.iox2_contents.specs.SlotStates.{contents_of};
    ghost use Rattle.iox2_contents.specs.SlotRooms.{HasLists};

    ghost Value = { List (ContentState T U) };

    ghost view = { λ contents. contents_of contents.lists.room contents.slots.items };

    // There are enough unwritten cells for the longest loan to show, and a list for each loan that
    // may be out.
    ghost invariant = { λ contents. HasLists contents.lists.most contents.lists.spare contents.lists.room contents.slots.items };
}

impl<T: Drop, U: Default + Drop> Contents<T, U> {
    /// The contents of `slots` slots, each with room for `room` elements. Each has a default user
    /// header, no cells and no values. A slot with room for one element has it in place, unless
    /// `in_lists` asks for lists. Any other slot has its elements in lists of its own.
    ///
    /// If `in_lists` is set, there are `lists` lists of cells, each with an `Option` for each
    /// element, and one more for all loans that haven't listed their cells. So `lists` loans at a
    /// time can hand out their cells. Without such lists there is room for one cell in each slot.
    ///
    /// Fails if memory runs out. Except `grow`, no other call on contents takes memory.
    pub fn new(
        alloc: Global,
        slots: usize,
        room: usize,
        in_lists: bool,
        lists: usize,
    ) -> Result<Self, AllocError>
        ensures len { IfOk result (λ contents. length contents ≡ slots) }
        ensures default { IfOk result (All (λ content. U.is_default content.user_header)) }
        ensures empty { IfOk result (All (λ content. (content.cells ≡ []) × (content.values ≡ []))) }
        ensures room { IfOk result (All (λ content. content.room ≡ room)) }
        ensures in_lists { IfOk result (All (λ content. in_lists ≡ true → content.is_in_place ≡ false)) }
        ensures lists { IfOk result (All (λ content. content.lists ≡ lists_for in_lists lists)) }
    {
        let lists = lists_for(in_lists, lists);
        let longest = shown_cells(room, in_lists, lists);
        let slots = new_slots(alloc, slots, room, in_lists, lists)?;
        let lists = CellLists::new(alloc, lists, longest)?;
        Ok(Contents { slots, lists })
    }

    /// Adds `more` slots, each with room for `room` elements, behind those that are there, as `new`
    /// makes them. If these are longer, there are new lists of cells too, and a list that a loan
    /// has goes with its cells. Fails if memory is refused; the contents then stay as they are.
    pub fn grow(
        &mut self,
        alloc: Global,
        more: usize,
        room: usize,
        in_lists: bool,
        lists: usize,
    ) -> Result<(), AllocError>
        requires some { 0 < length self.old }
        requires lists { All (λ content. content.lists ≡ lists_for in_lists lists) self.old }
        ensures grown { OnOk result (AddsSlots self.old self.new more room in_lists lists) }
        ensures refused { OnErr result (self.new ≡ self.old) }
    {
        let lists = lists_for(in_lists, lists);
        let longest = shown_cells(room, in_lists, lists);
        let mut added = new_slots(alloc, more, room, in_lists, lists)?;
        if longest <= self.lists.longest() {
            self.slots.append(&mut added)?;
            return Ok(());
        }
        let longer = CellLists::new(alloc, lists, longest)?;
        self.slots.append(&mut added)?;
        self.lists = longer;
        Ok(())
    }

    /// Drops what is in the slot, and frees its room. No loan or message has it any more.
    pub fn clear(&mut self, alloc: Global, slot: usize)
        requires { slot < length self.old }
        ensures { ClearsSlot self.old self.new slot }
    {
        self.end(slot);
        self.slots[slot].clear(alloc);
    }

    /// Makes the slot an unwritten loan of this length, which must fit the slot's room. It costs
    /// the same for any length, except that a value may have to be dropped. If there are lists of
    /// cells, there are more of them than loans with cells, and the slot's last loan has no cells
    /// any more.
    pub fn start(&mut self, slot: usize, len: usize)
        requires fit { SomeAt self.old slot (λ content. len ≤ content.room) }
        requires ended { SomeAt self.old slot (λ content. 0 < content.lists → content.cells ≡ []) }
        requires few { SomeAt self.old slot (λ content. 0 < content.lists → open_count self.old < content.lists) }
        ensures { StartsLoan U.is_default self.old self.new slot len }
    {
        self.slots[slot].start(len);
    }

    /// Drops the cells of the slot's loan, which isn't out any more. Another loan may then have
    /// their list.
    pub fn end(&mut self, slot: usize)
        requires { slot < length self.old }
        ensures { self.new ≡ with_changed self.old slot ended_content }
    {
        let had_list = self.slots[slot].has_list();
        self.slots[slot].end();
        recycle_list(&mut self.slots, &mut self.lists, slot, had_list);
    }

    /// Writes the value of a loan of one element, which then counts as written.
    pub fn write_payload(&mut self, slot: usize, value: T)
        requires { SomeAt self.old slot (λ content. length content.cells ≡ 1) }
        ensures { self.new ≡ with_changed self.old slot (written_content (value ∷ [])) }
    {
        let had_list = self.slots[slot].has_list();
        self.slots[slot].write_payload(value);
        recycle_list(&mut self.slots, &mut self.lists, slot, had_list);
    }

    /// Writes into each cell of the slot's loan what the function returns for its index. It is
    /// called for 0, 1 and so on, in this order. The loan then counts as written.
    #[inline(always)]
    pub fn write_from_fn<F: FnMut(usize) -> T + Drop>(&mut self, slot: usize, f: F)
        requires callable { F.IsAlwaysCallable f }
        requires in_lists { SomeAt self.old slot (λ content. content.is_in_place ≡ false) }
        ensures { (answers : List T) × AnswersInOrder F.step f answers × WritesValues self.old self.new slot answers }
    {
        if self.slots[slot].has_list() {
            self.write_listed_from_fn(slot, f);
            return;
        }
        self.slots[slot].write_from_fn(f);
    }

    // The same for a loan whose cells have a list. It is a function of its own, so that nothing has
    // to be kept over a usual write
    // (docs/DECISIONS.md, "The contents of a publisher take 48 bytes").
    #[cold]
    #[inline(never)]
    fn write_listed_from_fn<F: FnMut(usize) -> T + Drop>(&mut self, slot: usize, f: F)
        requires callable { F.IsAlwaysCallable f }
        requires in_lists { SomeAt self.old slot (λ content. content.is_in_place ≡ false) }
        ensures { (answers : List T) × AnswersInOrder F.step f answers × WritesValues self.old self.new slot answers }
    {
        let had_list = self.slots[slot].has_list();
        self.slots[slot].write_from_fn(f);
        recycle_list(&mut self.slots, &mut self.lists, slot, had_list);
    }

    /// Takes the cells of the slot's loan as its values if each is written, and returns whether it
    /// did. If some cell isn't written, nothing changes.
    pub fn assume_init(&mut self, slot: usize) -> bool
        requires { SomeAt self.old slot (λ content. content.is_in_place ≡ true → length content.cells ≡ 1) }
        ensures { AssumesWritten self.old self.new slot result }
    {
        let had_list = self.slots[slot].has_list();
        if !self.slots[slot].assume_init() {
            return false;
        }
        recycle_list(&mut self.slots, &mut self.lists, slot, had_list);
        true
    }
}

impl<T: Copy + Drop, U: Default + Drop> Contents<T, U> {
    /// Writes copies of the values, one into each cell of the slot's loan, which then counts as
    /// written.
    pub fn write_from_slice(&mut self, slot: usize, values: &[T])
        requires { SomeAt self.old slot (λ content. (content.is_in_place ≡ false) × (length values.now ≡ length content.cells)) }
        ensures { WritesValues self.old self.new slot values.now }
    {
        let had_list = self.slots[slot].has_list();
        self.slots[slot].write_from_slice(values);
        recycle_list(&mut self.slots, &mut self.lists, slot, had_list);
    }
}

impl<T: Copy + Default + Drop, U: Default + Drop> Contents<T, U> {
    /// Writes some value into each cell of the slot's loan, which then counts as written. The
    /// values are those that were there before, followed by default values if there were fewer. So
    /// it costs the same for any length, if as many values were there before.
    pub fn write_unspecified(&mut self, slot: usize)
        requires { SomeAt self.old slot (λ content. content.is_in_place ≡ false) }
        ensures { (values : List T) × WritesValues self.old self.new slot values }
    {
        let had_list = self.slots[slot].has_list();
        self.slots[slot].write_unspecified();
        recycle_list(&mut self.slots, &mut self.lists, slot, had_list);
    }
}

// How many lists of cells there are: `lists` for slots with elements in lists, and none for others.
fn lists_for(in_lists: bool, lists: usize) -> usize
    ensures { result ≡ lists_for in_lists lists }
{
    if in_lists { lists } else { 0 }
}

// How many unwritten cells a slot may have to show: all of a loan if its publisher keeps lists. If
// it keeps none, only the first, and not even that if the first is in the slot.
fn shown_cells(room: usize, in_lists: bool, lists: usize) -> usize
    requires { in_lists ≡ false → lists ≡ 0 }
    ensures all { 0 < lists → room ≤ result }
    ensures first { lies_in_place room in_lists ≡ false → 0 < result }
{
    if room == 1 && !in_lists {
        return 0;
    }
    if lists == 0 { 1 } else { room.max(1) }
}

// The contents of `slots` slots that have no message yet.
fn new_slots<T: Drop, U: Default + Drop>(
    alloc: Global,
    slots: usize,
    room: usize,
    in_lists: bool,
    lists: usize,
) -> Result<Vec<Content<T, U>>, AllocError>
    requires { in_lists ≡ false → lists ≡ 0 }
    ensures count { IfOk result (λ contents. length contents.items ≡ slots) }
    ensures new { IfOk result (λ contents. All (IsNew U.is_default room in_lists lists) contents.items) }
{
    let mut contents = Vec::with_capacity(alloc, slots)?;
    for _ in 0..slots {
        contents.push_reserved(Content::new(alloc, room, in_lists, lists)?);
    }
    Ok(contents)
}

impl<T, U> Contents<T, U> {
    ghost use Rattle.iox2_contents.specs.ContentsLends.{ContentsLendValue, ContentsLendValues, ContentsLendUserHeader};

    /// The user header of the slot's loan or message.
    pub fn user_header(&self, slot: usize) -> &U
        requires { slot < length self.now }
        ensures { user_header_at self.now slot ≡ Some result.now }
    {
        self.slots[slot].user_header()
    }

    /// The first cell of the slot's loan. The loan isn't written.
    pub fn cell(&self, slot: usize) -> &Option<T>
        requires { SomeAt self.now slot (λ content. 0 < length content.cells) }
        ensures { first_cell_at self.now slot ≡ Some result.now }
    {
        self.slots[slot].cell(self.lists.unwritten())
    }

    /// The cells of the slot's loan, and none once it is written. The contents have lists of cells;
    /// without them `cell` reads the first cell.
    pub fn cells(&self, slot: usize) -> &[Option<T>]
        requires { SomeAt self.now slot (λ content. 0 < content.lists) }
        ensures { cells_at self.now slot ≡ Some result.now }
    {
        self.slots[slot].cells(self.lists.unwritten())
    }

    /// The first value of the slot's loan or message, which is written.
    pub fn value(&self, slot: usize) -> &T
        requires { SomeAt self.now slot (λ content. 0 < length content.values) }
        ensures { first_value_at self.now slot ≡ Some result.now }
    {
        self.slots[slot].value()
    }

    /// The values of the slot's loan or message, and none before it is written. A value in place is
    /// read by `value`.
    pub fn values(&self, slot: usize) -> &[T]
        requires { SomeAt self.now slot (λ content. content.is_in_place ≡ false) }
        ensures { values_at self.now slot ≡ Some result.now }
    {
        self.slots[slot].values()
    }

    /// The user header of the slot's loan, to be changed.
    pub fn user_header_mut(&mut self, slot: usize) -> &mut U
        requires { slot < length self.old }
        ensures* writes_back { sem 𝓛 (ContentsLendUserHeader T.row U.row self.entry slot result) }
        ensures value { user_header_at self.old slot ≡ Some result.now }
    {
        self.slots[slot].user_header_mut()
    }

    /// The first value of the slot's loan, to be changed. The loan is written.
    pub fn value_mut(&mut self, slot: usize) -> &mut T
        requires { SomeAt self.old slot (λ content. 0 < length content.values) }
        ensures* writes_back { sem 𝓛 (ContentsLendValue T.row U.row self.entry slot result) }
        ensures value { first_value_at self.old slot ≡ Some result.now }
    {
        self.slots[slot].value_mut()
    }

    /// The values of the slot's loan, to be changed, and none before it is written.
    pub fn values_mut(&mut self, slot: usize) -> &mut [T]
        requires { SomeAt self.old slot (λ content. content.is_in_place ≡ false) }
        ensures* writes_back { sem 𝓛 (ContentsLendValues T.row U.row self.entry slot result) }
        ensures value { values_at self.old slot ≡ Some result.now }
    {
        self.slots[slot].values_mut()
    }
}

impl<T: Drop, U> Contents<T, U> {
    ghost use Rattle.iox2_contents.specs.ContentsLends.{ContentsLendCell, ContentsLendCells};

    /// The first cell of the slot's loan, to be changed. The loan isn't written.
    pub fn cell_mut(&mut self, slot: usize) -> &mut Option<T>
        requires { SomeAt self.old slot (λ content. 0 < length content.cells) }
        ensures* writes_back { sem 𝓛 (ContentsLendCell T.row U.row self.entry slot result) }
        ensures value { first_cell_at self.old slot ≡ Some result.now }
    {
        ready(&mut self.slots, &mut self.lists, slot);
        self.slots[slot].cell_mut()
    }

    /// The cells of the slot's loan, to be changed, and none once it is written. The contents have
    /// lists of cells. The cells are put into one of these lists, and stay in it until the loan is
    /// written or ends.
    pub fn cells_mut(&mut self, slot: usize) -> &mut [Option<T>]
        requires { SomeAt self.old slot (λ content. 0 < content.lists) }
        ensures* writes_back { sem 𝓛 (ContentsLendCells T.row U.row self.entry slot result) }
        ensures value { cells_at self.old slot ≡ Some result.now }
    {
        ready(&mut self.slots, &mut self.lists, slot);
        self.slots[slot].cells_mut()
    }
}
