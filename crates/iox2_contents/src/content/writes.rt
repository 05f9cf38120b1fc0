//! How a loan is written.
ghost use Rattle.std.specs.Prelude.{◌≡◌, [], ◌∷◌, length, map, true, false, Some, is_some};
ghost use Rattle.std.specs.List.{list_all};
ghost use Rattle.iox2_contents.specs.SlotCalls.{AnswersInOrder};
ghost use Rattle.iox2_contents.specs.SlotContents.{written_content};
ghost use Rattle.iox2_contents.specs.SlotStates.{with_content};

use crate::content::Content;
use crate::payload::Payload;

impl<T: Drop, U: Default + Drop> Content<T, U> {
    /// Writes the value of a loan of one element.
    pub(crate) fn write_payload(&mut self, value: T)
        requires { length self.old.content.cells ≡ 1 }
        ensures { self.new ≡ with_content (written_content (value ∷ [])) self.old }
    {
        match &mut self.payload {
            Payload::Elements(elements) => {
                elements.cells.clear();
                elements.values.write(value);
            }
            _ => self.payload = Payload::Written(value),
        }
    }

    /// Writes into each cell what the function returns for its index. The function is called for 0,
    /// 1 and so on.
    pub(crate) fn write_from_fn<F: FnMut(usize) -> T + Drop>(&mut self, f: F)
        requires callable { F.IsAlwaysCallable f }
        requires in_lists { self.old.content.is_in_place ≡ false }
        ensures answers { AnswersInOrder F.step f self.new.content.values }
        ensures count { length self.new.content.values ≡ length self.old.content.cells }
        ensures written { self.new ≡ with_content (written_content self.new.content.values) self.old }
    {
        match &mut self.payload {
            Payload::Elements(elements) => {
                let count = elements.cells.clear();
                elements.values.write_from_fn(count, f);
            }
            _ => unreachable!(),
        }
    }

    /// Takes the cells as written, and returns whether all are. If some cell isn't, nothing
    /// changes.
    pub(crate) fn assume_init(&mut self) -> bool
        requires { self.old.content.is_in_place ≡ true → length self.old.content.cells ≡ 1 }
        ensures all { result ≡ list_all is_some self.old.content.cells }
        ensures refused { result ≡ false → self.new ≡ self.old }
        ensures values { result ≡ true → map Some self.new.content.values ≡ self.old.content.cells }
        ensures written { result ≡ true → self.new ≡ with_content (written_content self.new.content.values) self.old }
    {
        match &mut self.payload {
            Payload::Elements(elements) => elements.assume_init(),
            Payload::Unwritten(cell) => match cell.take() {
                Some(value) => {
                    self.payload = Payload::Written(value);
                    true
                }
                None => false,
            },
            Payload::Empty | Payload::Written(_) => unreachable!(),
        }
    }
}

impl<T: Copy + Drop, U: Default + Drop> Content<T, U> {
    /// Writes copies of the values, one into each cell.
    pub(crate) fn write_from_slice(&mut self, values: &[T])
        requires lengths { length values.now ≡ length self.old.content.cells }
        requires in_lists { self.old.content.is_in_place ≡ false }
        ensures { self.new ≡ with_content (written_content values.now) self.old }
    {
        match &mut self.payload {
            Payload::Elements(elements) => {
                elements.cells.clear();
                elements.values.write_from_slice(values);
            }
            _ => unreachable!(),
        }
    }
}

impl<T: Copy + Default + Drop, U: Default + Drop> Content<T, U> {
    /// Writes some value into each cell.
    pub(crate) fn write_unspecified(&mut self)
        requires in_lists { self.old.content.is_in_place ≡ false }
        ensures count { length self.new.content.values ≡ length self.old.content.cells }
        ensures written { self.new ≡ with_content (written_content self.new.content.values) self.old }
    {
        match &mut self.payload {
            Payload::Elements(elements) => {
                let count = elements.cells.clear();
                elements.values.write_unspecified(count);
            }
            _ => unreachable!(),
        }
    }
}
