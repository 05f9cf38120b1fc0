/// How far the message in a slot has come.
///
/// This library's own. iceoryx2 has a type for each: `SampleMutUninit`, `SampleMut` and `Sample`.
#[derive(Debug, Clone, Copy, PartialEq, Eq)]
pub enum SlotMark {
    /// It is a loan in a user's hands and isn't written.
    Unwritten,
    /// It is a loan in a user's hands and is written.
    Written,
    /// It was sent, and never changes from then on.
    Sent,
}
