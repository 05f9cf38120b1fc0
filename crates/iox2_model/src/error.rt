use std::alloc::AllocError;
use thiserror::Error;

/// Why the model can't go on.
#[derive(Debug, Clone, Copy, PartialEq, Eq, Error)]
pub enum ModelError {
    /// Memory for the model's own lists is refused.
    #[error("out of memory")]
    OutOfMemory(#[from(alloc)] AllocError),
    /// The model is in a state that the machine doesn't reach, or it was asked for what it has no
    /// rule for.
    #[error("the model has no rule for a command")]
    NoRule,
}
