//! The book of a publisher's slots.
#![tactic(auto)]

mod slots;

pub use slots::{SlotBook, SlotMark};
