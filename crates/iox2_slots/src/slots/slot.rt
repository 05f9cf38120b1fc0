use crate::slots::mark::SlotMark;
use iox2_machine::Header;

/// What is known of a slot beside its content.
///
/// This library's own. iceoryx2 has a message's header in shared memory, and its counter of holders
/// in a `SegmentState` (`src/port/details/segment_state.rs`).
#[derive(Clone, Copy)]
pub(crate) struct Slot {
    /// The number of the message in it.
    pub(crate) number: u128,
    /// The header of that message.
    pub(crate) header: Header,
    /// How many holders it has.
    pub(crate) holders: usize,
    /// How far that message has come.
    pub(crate) mark: SlotMark,
}
