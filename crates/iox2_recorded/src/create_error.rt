//! Why a recorded domain isn't made.
ghost use Rattle.std.specs.Prelude.{◌≡◌};
ghost use Rattle.iox2_recorded.specs.declared.create_error.RecordedCreateError.TheVariants.{OutOfMemory};

use std::alloc::{AllocError, AllocFailed};
use thiserror::Error;

/// Why a recorded domain isn't made.
#[derive(Debug, Clone, Copy, PartialEq, Eq, Error)]
pub enum RecordedCreateError {
    /// A command could be on cells of unwritten slices, and the settings have none handed out
    /// (`ServiceConfig::lists_cells`). Make the domain with `lists_cells` on.
    #[error("RecordedCreateError::NoCells")]
    NoCells,
    /// There is no room for the domain or for the calls.
    #[error("RecordedCreateError::OutOfMemory")]
    OutOfMemory,
}

impl From<AllocError> for RecordedCreateError {
    ghost from_gives = { λ _ error. error ≡ OutOfMemory };

    fn from(_error: AllocError) -> Self {
        RecordedCreateError::OutOfMemory
    }
}

impl<T: Drop> From<AllocFailed<T>> for RecordedCreateError {
    ghost from_gives = { λ _ error. error ≡ OutOfMemory };

    fn from(_error: AllocFailed<T>) -> Self {
        RecordedCreateError::OutOfMemory
    }
}
