use iox2_pubsub::{ConnectionFailure, LoanError, ReceiveError, SendError};
use std::alloc::AllocError;

/// Why a function of this crate ends early.
#[derive(Debug, Drop)]
pub enum Failure {
    /// No slot is lent.
    Loan(LoanError),
    /// A message isn't sent.
    Send(SendError),
    /// Nothing is received.
    Receive(ReceiveError),
    /// The connections aren't updated.
    Update(ConnectionFailure),
    /// A send waits still.
    Full,
    /// There is no memory for what was read.
    Memory,
}
