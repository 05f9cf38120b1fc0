//! What may be changed in a slot through a reference.
ghost use Rattle.std.specs.Prelude.{◌≡◌, ◌<◌, length, slice_get, true, false, Some};
ghost use Rattle.std.specs.Borrow.{sem};
ghost use Rattle.iox2_contents.specs.SlotStates.{slot_waits};

use crate::content::Content;
use crate::payload::Payload;

impl<T, U> Content<T, U> {
    ghost use Rattle.iox2_contents.specs.ContentLends.{SlotLendsCell, SlotLendsCells, LendsValue, LendsValues, SlotLendsUserHeader};

    /// The user header, to be changed.
    pub(crate) fn user_header_mut(&mut self) -> &mut U
        ensures* writes_back { sem 𝓛 (SlotLendsUserHeader T.row U.row self.entry result) }
        ensures value { result.now ≡ self.old.content.user_header }
    {
        &mut self.user_header
    }

    // Whether the payload is in its slot, and not in lists.
    fn is_in_place(&self) -> bool
        ensures { result ≡ self.now.content.is_in_place }
    {
        !matches!(&self.payload, Payload::Elements(_))
    }

    /// The first cell of a loan that isn't written, to be changed. It doesn't wait for a list.
    pub(crate) fn cell_mut(&mut self) -> &mut Option<T>
        requires first { 0 < length self.old.content.cells }
        requires ready { slot_waits self.old ≡ false }
        ensures* writes_back { sem 𝓛 (SlotLendsCell T.row U.row self.entry result) }
        ensures value { slice_get self.old.content.cells 0 ≡ Some result.now }
    {
        if self.is_in_place() {
            return self.placed_cell_mut();
        }
        self.listed_cell_mut()
    }

    // The cell that is in place.
    fn placed_cell_mut(&mut self) -> &mut Option<T>
        requires first { 0 < length self.old.content.cells }
        requires in_place { self.old.content.is_in_place ≡ true }
        ensures* writes_back { sem 𝓛 (SlotLendsCell T.row U.row self.entry result) }
        ensures value { slice_get self.old.content.cells 0 ≡ Some result.now }
    {
        match &mut self.payload {
            Payload::Unwritten(cell) => cell,
            _ => unreachable!(),
        }
    }

    // The first cell of a list.
    fn listed_cell_mut(&mut self) -> &mut Option<T>
        requires first { 0 < length self.old.content.cells }
        requires in_lists { self.old.content.is_in_place ≡ false }
        requires ready { slot_waits self.old ≡ false }
        ensures* writes_back { sem 𝓛 (SlotLendsCell T.row U.row self.entry result) }
        ensures value { slice_get self.old.content.cells 0 ≡ Some result.now }
    {
        match &mut self.payload {
            Payload::Elements(elements) => elements.cells.cell_mut(),
            _ => unreachable!(),
        }
    }

    /// The cells, to be changed, of a publisher that keeps lists. They don't wait for one.
    pub(crate) fn cells_mut(&mut self) -> &mut [Option<T>]
        requires lists { 0 < self.old.content.lists }
        requires ready { slot_waits self.old ≡ false }
        ensures* writes_back { sem 𝓛 (SlotLendsCells T.row U.row self.entry result) }
        ensures value { result.now ≡ self.old.content.cells }
    {
        match &mut self.payload {
            Payload::Elements(elements) => elements.cells.cells_mut(),
            _ => unreachable!(),
        }
    }

    /// The first value of a loan that is written, to be changed.
    pub(crate) fn value_mut(&mut self) -> &mut T
        requires { 0 < length self.old.content.values }
        ensures* writes_back { sem 𝓛 (LendsValue T.row U.row self.entry result) }
        ensures value { slice_get self.old.content.values 0 ≡ Some result.now }
    {
        if self.is_in_place() {
            return self.placed_value_mut();
        }
        self.listed_value_mut()
    }

    // The value that is in place.
    fn placed_value_mut(&mut self) -> &mut T
        requires first { 0 < length self.old.content.values }
        requires in_place { self.old.content.is_in_place ≡ true }
        ensures* writes_back { sem 𝓛 (LendsValue T.row U.row self.entry result) }
        ensures value { slice_get self.old.content.values 0 ≡ Some result.now }
    {
        match &mut self.payload {
            Payload::Written(value) => value,
            _ => unreachable!(),
        }
    }

    // The first value of a list.
    fn listed_value_mut(&mut self) -> &mut T
        requires first { 0 < length self.old.content.values }
        requires in_lists { self.old.content.is_in_place ≡ false }
        ensures* writes_back { sem 𝓛 (LendsValue T.row U.row self.entry result) }
        ensures value { slice_get self.old.content.values 0 ≡ Some result.now }
    {
        match &mut self.payload {
            Payload::Elements(elements) => elements.values.value_mut(),
            _ => unreachable!(),
        }
    }

    /// The values, to be changed.
    pub(crate) fn values_mut(&mut self) -> &mut [T]
        requires { self.old.content.is_in_place ≡ false }
        ensures* writes_back { sem 𝓛 (LendsValues T.row U.row self.entry result) }
        ensures value { result.now ≡ self.old.content.values }
    {
        match &mut self.payload {
            Payload::Elements(elements) => elements.values.values_mut(),
            _ => unreachable!(),
        }
    }
}
