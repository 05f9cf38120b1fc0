//! The content of one slot.
ghost use Rattle.std.specs.Prelude.{◌≡◌, ◌≤◌, [], ◌<◌, vec_capacity, true, false, IfOk};
ghost use Rattle.iox2_contents.specs.SlotContents.{unwritten_content, ended_content};
ghost use Rattle.iox2_contents.specs.SlotStates.{IsNew, slot_has_list, slot_waits, with_content};

mod reads;
mod references;
mod writes;

use crate::cells::Cells;
use crate::payload::{Elements, Payload};
use crate::values::Values;
use std::alloc::{AllocError, Global};
use std::marker::Model;

/// What is in a slot. An unwritten loan has its cells; a written loan or a sent message has its
/// values. The one that isn't used is empty
/// (docs/DECISIONS.md, "What lies in a slot is one type").
///
/// iceoryx2's `RawSample` and `RawSampleMut` (`src/raw_sample.rs`) point to a message's headers and
/// payload in shared memory.
#[derive(Drop)]
pub(crate) struct Content<T, U> {
    user_header: U,
    payload: Payload<T>,
}

impl<T, U> Model for Content<T, U> {
    ghost use Rattle.iox2_contents.specs.SlotStates.{SlotState};
    ghost use Rattle.iox2_contents.specs.SlotPayload.{HasListRoom, cells_of, values_of, room_of, is_in_place, lists_of, cell_room_of};

    ghost Value = { SlotState T U };

    ghost view = { λ content. record {
      content = record {
        user_header = content.user_header;
        cells = cells_of content.payload;
        values = values_of content.payload;
        room = room_of content.payload;
        is_in_place = is_in_place content.payload;
        lists = lists_of content.payload;
      };
      cell_room = cell_room_of content.payload;
    } };

    ghost invariant = { λ content. HasListRoom content.payload };
}

impl<T: Drop, U: Default + Drop> Content<T, U> {
    /// The content of a slot that has no message yet, with room for `room` elements, of a publisher
    /// that keeps `lists` lists of cells. With room for one, the element is in place and takes no
    /// memory, unless it is to be in a list.
    pub(crate) fn new(
        alloc: Global,
        room: usize,
        in_lists: bool,
        lists: usize,
    ) -> Result<Self, AllocError>
        requires { in_lists ≡ false → lists ≡ 0 }
        ensures { IfOk result (IsNew U.is_default room in_lists lists) }
    {
        let user_header = U::default();
        if room == 1 && !in_lists {
            let payload = Payload::Empty;
            return Ok(Content {
                user_header,
                payload,
            });
        }
        let cells = Cells::new(alloc, lists)?;
        let values = Values::new(alloc, room)?;
        let payload = Payload::Elements(Box::new(alloc, Elements { cells, values })?);
        Ok(Content {
            user_header,
            payload,
        })
    }

    /// Makes the slot an unwritten loan of this length. A payload that was in place is dropped now,
    /// and one in lists once another is written.
    pub(crate) fn start(&mut self, len: usize)
        requires fit { len ≤ self.old.content.room }
        requires none { slot_has_list self.old ≡ false }
        ensures default { U.is_default self.new.content.user_header }
        ensures started { self.new ≡ with_content (unwritten_content self.new.content.user_header len) self.old }
    {
        self.user_header = U::default();
        match &mut self.payload {
            Payload::Elements(elements) => {
                elements.cells.start(len);
                elements.values.hide();
            }
            _ if len == 0 => self.payload = Payload::Empty,
            _ => self.payload = Payload::Unwritten(None),
        }
    }

    /// Drops what the slot had, and frees its room, except the room for one cell.
    pub(crate) fn clear(&mut self, alloc: Global)
        ensures in_place { self.new.content.is_in_place ≡ self.old.content.is_in_place }
        ensures lists { self.new.content.lists ≡ self.old.content.lists }
        ensures none { slot_has_list self.new ≡ false }
        ensures cells { self.new.content.cells ≡ [] }
        ensures room { self.new.content.room ≤ self.old.content.room }
        ensures freed { self.new.content.is_in_place ≡ false → self.new.content.room ≡ 0 }
    {
        self.user_header = U::default();
        match &mut self.payload {
            Payload::Elements(elements) => {
                elements.cells.free_memory(alloc);
                elements.values.free_memory(alloc);
            }
            _ => self.payload = Payload::Empty,
        }
    }

    /// Drops the cells, as no loan has them any more.
    pub(crate) fn end(&mut self)
        ensures { self.new ≡ with_content ended_content self.old }
    {
        match &mut self.payload {
            Payload::Elements(elements) => {
                elements.cells.clear();
            }
            Payload::Unwritten(_) => self.payload = Payload::Empty,
            Payload::Empty | Payload::Written(_) => {}
        }
    }
}

impl<T: Drop, U> Content<T, U> {
    /// Lists the cells, which wait for a list, in one of their publisher's lists.
    pub(crate) fn put_list(&mut self, list: Vec<Option<T>>)
        requires waits { slot_waits self.old ≡ true }
        requires empty { list.items ≡ [] }
        requires room { self.old.content.room ≤ vec_capacity list }
        requires wide { 1 < vec_capacity list }
        ensures { self.new ≡ record self.old { cell_room = vec_capacity list } }
    {
        match &mut self.payload {
            Payload::Elements(elements) => elements.cells.put_list(list),
            _ => unreachable!(),
        }
    }

    /// Drops the cells, and takes their list out.
    pub(crate) fn take_list(&mut self) -> Vec<Option<T>>
        requires { slot_has_list self.old ≡ true }
        ensures empty { result.items ≡ [] }
        ensures list { vec_capacity result ≡ self.old.cell_room }
        ensures wide { 1 < vec_capacity result }
        ensures taken { self.new ≡ record self.old { content = ended_content self.old.content; cell_room = 0 } }
    {
        match &mut self.payload {
            Payload::Elements(elements) => elements.cells.take_list(),
            _ => unreachable!(),
        }
    }
}
