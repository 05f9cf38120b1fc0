//! What a message costs where many are kept: a static library that sends the oldest of many loans
//! and releases the oldest of many samples, so that a tool can count the instructions of these calls.
#![tactic(auto)]

ghost use Rattle.std.specs.Prelude.{◌≤◌};

mod kept;
mod passing;

use kept::Kept;
use passing::pass_oldest;
use std::alloc::Global;

/// Makes a domain with a publisher that keeps that many loans out, and with a subscriber that keeps
/// that many samples. In each round a loan is taken and the oldest one sent, and a message is received
/// and the oldest sample released. Returns how many samples were released: as many as there are
/// rounds, except those in which loans and samples gather, or fewer if a call is refused.
#[unsafe(no_mangle)]
pub extern "C" fn pass_oldest_messages(
    alloc: Global,
    loans: usize,
    samples: usize,
    rounds: u64,
) -> u64
    ensures { result ≤ rounds }
{
    let Some(kept) = Kept::new(alloc, loans, samples) else {
        return 0;
    };
    pass_oldest(alloc, kept, rounds).unwrap_or(0)
}
