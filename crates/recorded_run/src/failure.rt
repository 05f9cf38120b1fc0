use iox2_pubsub::DomainCreateError;
use iox2_recorded::RecordedCreateError;
use std::alloc::AllocError;
use std::io;
use thiserror::Error;

/// Why the program ends early.
#[derive(Debug, Drop, Error)]
pub enum Failure {
    /// There is no domain that records.
    #[error("not recorded: {0}")]
    Recorded(#[from] RecordedCreateError),
    /// There is no domain for a replay.
    #[error("no domain: {0}")]
    Domain(#[from] DomainCreateError),
    /// Memory for a list or a text is refused.
    #[error("memory is refused: {0}")]
    Memory(#[from] AllocError),
    /// A replay hands its commands back.
    #[error("no replay")]
    NoReplay,
    /// Nothing can be printed.
    #[error("not printed: {0}")]
    Output(#[from] io::Error),
}
