//! The payload of one slot.
ghost use Rattle.std.specs.Prelude.{◌≡◌, ◌≤◌, [], length, map, true, false, Some, is_some};
ghost use Rattle.std.specs.List.{list_all};
ghost use Rattle.iox2_contents.specs.CellLists.{with_cell_items as with_cells};
ghost use Rattle.iox2_contents.specs.RoomLists.{with_items as with_values};

use crate::cells::Cells;
use crate::values::Values;

/// The elements of an unwritten or a written payload. A single value is in the payload itself.
#[derive(Drop)]
pub(crate) enum Payload<T> {
    /// There is room for one element, and none is there.
    Empty,
    /// There is room for one element, and its cell isn't written.
    Unwritten(Option<T>),
    /// There is room for one element, and it is written.
    Written(T),
    /// There is room for another number of elements.
    Elements(Box<Elements<T>>),
}

/// The cells of an unwritten loan, or the values of a written loan or a sent message. The one that
/// isn't used is empty.
#[derive(Drop)]
pub(crate) struct Elements<T> {
    pub(crate) cells: Cells<T>,
    pub(crate) values: Values<T>,
}

impl<T: Drop> Elements<T> {
    /// Takes the cells as written, and returns whether all are. If some cell isn't, nothing
    /// changes.
    pub(crate) fn assume_init(&mut self) -> bool
        requires { length self.old.cells.items ≤ self.old.values.room }
        ensures all { result ≡ list_all is_some self.old.cells.items }
        ensures refused { result ≡ false → self.new ≡ self.old }
        ensures values { result ≡ true → map Some self.new.values.items ≡ self.old.cells.items }
        ensures cleared { result ≡ true → self.new.cells ≡ with_cells [] self.old.cells }
        ensures written { result ≡ true → self.new.values ≡ with_values self.new.values.items self.old.values }
    {
        if !self.cells.are_written() {
            return false;
        }
        let values = self.values.take_empty();
        self.values.put(self.cells.move_to(values));
        true
    }
}
