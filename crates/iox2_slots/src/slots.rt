//! The slots of a publisher, in their book.
mod book;
mod mark;
mod slot;

pub use book::SlotBook;
pub use mark::SlotMark;
