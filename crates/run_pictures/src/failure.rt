//! Why nothing is drawn.
use command_line::Failing;
use iox2_model::ModelError;
use recordings::{Fault, LoadError};
use std::alloc::AllocError;
use std::io;
use thiserror::Error;

/// Why nothing is drawn.
#[derive(Debug, Clone, Copy, Error)]
pub(crate) enum Failure {
    /// The input or the arguments can't be read, or the picture can't be printed.
    #[error("input or output failed")]
    InputOutput(#[from] io::Error),
    /// The argument names no form of picture.
    #[error("usage: run_pictures svg or html, with a recording on standard input")]
    Usage,
    /// The text isn't a recording, or there is no memory for it.
    #[error(transparent)]
    NoRecording(#[from] LoadError),
    /// Memory is refused.
    #[error("out of memory")]
    OutOfMemory(#[from(alloc)] AllocError),
    /// Memory is refused to the model, or it has no rule for a command.
    #[error(transparent)]
    Model(#[from] ModelError),
}

impl Failing for Failure {
    fn status(&self) -> u8 {
        match *self {
            Failure::NoRecording(error) if error.fault == Fault::OutOfMemory => 3,
            Failure::Usage | Failure::NoRecording(_) => 2,
            Failure::OutOfMemory(_) | Failure::Model(ModelError::OutOfMemory(_)) => 3,
            Failure::InputOutput(_) => 4,
            Failure::Model(ModelError::NoRule) => 5,
        }
    }
}
