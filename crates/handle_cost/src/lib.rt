//! What calls by handles cost: a static library that passes messages of bytes through a domain, so
//! that a tool can count the instructions of each call, and compare them with those of the calls for C.
#![tactic(auto)]

ghost use Rattle.std.specs.Prelude.{◌≤◌};

mod passing;

use passing::ByHandles;
use slice_passing::pass_slices;
use std::alloc::Global;

/// Makes a domain of bytes, and passes that many messages, each of that many bytes. Returns how many
/// arrived with their length: fewer than all where a call is refused.
#[unsafe(no_mangle)]
pub extern "C" fn pass_by_handles(alloc: Global, bytes: usize, messages: u64) -> u64
    ensures { result ≤ messages }
{
    pass_slices::<u8, ByHandles>(alloc, bytes, messages).unwrap_or(0)
}
