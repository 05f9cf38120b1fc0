//! Calls on a domain that records them, and on one that doesn't: a static library, so that a tool can count
//! what each of them allocates.
#![tactic(auto)]

mod calling;
mod calls;

use calling::{count_kept, count_received};
use std::alloc::Global;

/// Makes that many calls on a new domain that records its first `room` calls. Returns how many it kept: as
/// many as there is room for, or 0 where memory is refused.
#[unsafe(no_mangle)]
pub extern "C" fn make_recorded_calls(alloc: Global, room: usize, calls: usize) -> usize {
    count_kept(alloc, room, calls).unwrap_or(0)
}

/// Makes the same calls on a new domain that isn't recorded, and one more that does nothing. Returns how many
/// messages were received, or 0 where memory is refused.
#[unsafe(no_mangle)]
pub extern "C" fn make_plain_calls(alloc: Global, calls: usize) -> usize {
    count_received(alloc, calls).unwrap_or(0)
}
