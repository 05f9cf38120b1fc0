//! What is called.
use iox2_commands::{Command, NewPublisher};
use iox2_machine::{BackpressureStrategy, DegradationAction, ServiceConfig};
use std::alloc::{AllocError, Global};

/// A call on a domain of numbers.
pub(crate) type Call = Command<u64, u64>;

// How many loans of the publisher may be out.
const LOANS: usize = 40;

// How many calls a round has.
const KINDS: usize = 6;

/// The settings of a service with one publisher and one subscriber.
pub(crate) fn service() -> ServiceConfig {
    ServiceConfig {
        max_publishers: 1,
        max_subscribers: 1,
        ..ServiceConfig::new(1)
    }
}

/// That many calls, with room for one more: both ports are made, and then come rounds of a loan that stays
/// out, and of a message that is sent, asked for, received, read and released.
pub(crate) fn first_calls(alloc: Global, count: usize) -> Result<Vec<Call>, AllocError> {
    let mut calls = Vec::with_capacity(alloc, count.saturating_add(1))?;
    for position in 0..count {
        calls.push(call_at(position))?;
    }
    Ok(calls)
}

// The call at the position.
fn call_at(position: usize) -> Call {
    match position {
        0 => Command::CreateSubscriber {
            buffer: None,
            degradation: DegradationAction::Warn,
        },
        1 => Command::CreatePublisher(NewPublisher::new(LOANS, BackpressureStrategy::DiscardData)),
        _ => call_of_round(position),
    }
}

fn call_of_round(position: usize) -> Call {
    match position.saturating_sub(2) % KINDS {
        0 => Command::LoanUninit { of: 1 },
        1 => Command::SendCopy {
            of: 1,
            value: position as u64,
        },
        2 => Command::HasSamples { of: 0 },
        3 => Command::Receive { of: 0 },
        4 => Command::Read {
            of: position.saturating_sub(1),
            at: 0,
        },
        _ => Command::Release {
            of: position.saturating_sub(2),
        },
    }
}
