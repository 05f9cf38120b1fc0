//! What is called.
use iox2_commands::{Command, NewPublisher};
use iox2_machine::{BackpressureStrategy, DegradationAction, ServiceConfig, TypeVariant};
use std::alloc::{AllocError, Global};
use std::time::Duration;

/// A call on a domain of numbers.
pub(crate) type Call = Command<u64, u64>;

/// The settings of a service with one subscriber, which keeps what it has where its buffer is full.
pub(crate) fn service() -> ServiceConfig {
    ServiceConfig {
        max_subscribers: 1,
        subscriber_max_buffer_size: 1,
        enable_safe_overflow: false,
        ..ServiceConfig::new(1)
    }
}

/// The same with messages that are slices.
pub(crate) fn slices() -> ServiceConfig {
    ServiceConfig {
        variant: TypeVariant::Dynamic,
        ..service()
    }
}

/// A send that waits, is tried again and delivered; a call that is refused and two that are skipped.
pub(crate) fn calls() -> [Call; 14] {
    [
        Command::CreateSubscriber {
            buffer: None,
            degradation: DegradationAction::Warn,
        },
        Command::CreateSubscriber {
            buffer: None,
            degradation: DegradationAction::Warn,
        },
        Command::CreatePublisher(NewPublisher::new(2, BackpressureStrategy::RetryUntilDelivered)),
        Command::SendCopy { of: 2, value: 20 },
        Command::SendCopy { of: 2, value: 21 },
        Command::SendCopy { of: 2, value: 22 },
        Command::Receive { of: 0 },
        Command::Read { of: 6, at: 0 },
        Command::Retry {
            of: 4,
            elapsed: Duration::from_secs(2),
        },
        Command::Release { of: 6 },
        Command::Release { of: 6 },
        Command::Receive { of: 0 },
        Command::Read { of: 11, at: 0 },
        Command::Close { of: 2 },
    ]
}

/// The same calls three times. The later ones are on what the first made, and are skipped or refused.
pub(crate) fn calls_thrice(alloc: Global) -> Result<Vec<Call>, AllocError> {
    let mut thrice = Vec::from_array(alloc, calls())?;
    thrice.extend_from_slice(&calls())?;
    thrice.extend_from_slice(&calls())?;
    Ok(thrice)
}
