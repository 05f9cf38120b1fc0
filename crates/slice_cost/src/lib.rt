//! What a slice costs: a static library that passes slices through a domain, so that a tool can count
//! the instructions of the calls that it makes.
#![tactic(auto)]

ghost use Rattle.std.specs.Prelude.{◌≤◌};

mod passing;

use passing::BySteps;
use slice_passing::pass_slices;
use std::alloc::Global;

/// Makes a domain of slices, and passes that many of them, each of that many elements. Returns how many
/// arrived with their length: fewer than all where a call is refused.
#[unsafe(no_mangle)]
pub extern "C" fn pass_long_messages(alloc: Global, elements: usize, messages: u64) -> u64
    ensures { result ≤ messages }
{
    pass_slices::<u64, BySteps>(alloc, elements, messages).unwrap_or(0)
}
