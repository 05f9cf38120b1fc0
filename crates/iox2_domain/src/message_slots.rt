//! The slots that messages are in.

/// Where a loan or a sent message is: the key of its publisher's book, and its slot.
#[derive(Clone, Copy)]
pub struct MessageSlot {
    pub book: usize,
    pub slot: usize,
}
