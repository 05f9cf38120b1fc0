//! What a slot shows.
ghost use Rattle.std.specs.Prelude.{◌≡◌, ◌<◌, ◌≤◌, length, replicate, slice_get, false, None, Some};
ghost use Rattle.iox2_contents.specs.SlotStates.{slot_has_list, slot_waits};

use crate::content::Content;
use crate::payload::Payload;

impl<T, U> Content<T, U> {
    /// The user header.
    pub(crate) fn user_header(&self) -> &U
        ensures { result.now ≡ self.now.content.user_header }
    {
        &self.user_header
    }

    /// Whether the cells have one of their publisher's lists.
    pub(crate) fn has_list(&self) -> bool
        ensures { result ≡ slot_has_list self.now }
    {
        match &self.payload {
            Payload::Elements(elements) => elements.cells.has_list(),
            _ => false,
        }
    }

    /// Whether there are cells that need one of their publisher's lists before they can be written.
    pub(crate) fn waits(&self) -> bool
        ensures { result ≡ slot_waits self.now }
    {
        match &self.payload {
            Payload::Elements(elements) => elements.cells.waits(),
            _ => false,
        }
    }

    /// The first cell of a loan that isn't written. For a loan in lists `unwritten` has some cells.
    pub(crate) fn cell<'a>(&'a self, unwritten: &'a [Option<T>]) -> &'a Option<T>
        requires first { 0 < length self.now.content.cells }
        requires unwritten { unwritten.now ≡ replicate (length unwritten.now) None }
        requires enough { self.now.content.is_in_place ≡ false → 0 < length unwritten.now }
        ensures { slice_get self.now.content.cells 0 ≡ Some result.now }
    {
        match &self.payload {
            Payload::Unwritten(cell) => cell,
            Payload::Elements(elements) => elements.cells.cell(unwritten),
            Payload::Empty | Payload::Written(_) => unreachable!(),
        }
    }

    /// The cells of a loan, and none once they are written. The publisher keeps lists, and `unwritten` has
    /// as many cells as there is room for, or more.
    pub(crate) fn cells<'a>(&'a self, unwritten: &'a [Option<T>]) -> &'a [Option<T>]
        requires lists { 0 < self.now.content.lists }
        requires unwritten { unwritten.now ≡ replicate (length unwritten.now) None }
        requires enough { self.now.content.room ≤ length unwritten.now }
        ensures { result.now ≡ self.now.content.cells }
    {
        match &self.payload {
            Payload::Elements(elements) => elements.cells.cells(unwritten),
            _ => unreachable!(),
        }
    }

    /// The first value of a loan or message that is written.
    pub(crate) fn value(&self) -> &T
        requires { 0 < length self.now.content.values }
        ensures { slice_get self.now.content.values 0 ≡ Some result.now }
    {
        match &self.payload {
            Payload::Written(value) => value,
            _ => self.listed_value(),
        }
    }

    // The first value of a list. It is a function of its own, so that a read of a value in place
    // has no join with it (docs/DECISIONS.md, "A call goes on where its look-up ended").
    #[cold]
    #[inline(never)]
    fn listed_value(&self) -> &T
        requires first { 0 < length self.now.content.values }
        requires in_lists { self.now.content.is_in_place ≡ false }
        ensures { slice_get self.now.content.values 0 ≡ Some result.now }
    {
        match &self.payload {
            Payload::Elements(elements) => &elements.values.values()[0],
            _ => unreachable!(),
        }
    }

    /// The values, and none before they are written.
    pub(crate) fn values(&self) -> &[T]
        requires { self.now.content.is_in_place ≡ false }
        ensures { result.now ≡ self.now.content.values }
    {
        match &self.payload {
            Payload::Elements(elements) => elements.values.values(),
            _ => unreachable!(),
        }
    }
}
