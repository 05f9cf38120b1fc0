//! Why a task isn't done.
use command_line::Failing;
use iox2_model::ModelError;
use recordings::{Fault, LoadError};
use script_text::ScriptError;
use std::alloc::AllocError;
use std::io;
use thiserror::Error;

/// Why a task isn't done.
#[derive(Debug, Clone, Copy, Error)]
pub(crate) enum Failure {
    /// The input or the arguments can't be read, or a line can't be printed.
    #[error("input or output failed")]
    InputOutput(#[from] io::Error),
    /// The arguments name no task, or one isn't a number.
    #[error("usage: recording_replay replay or record, or random COUNT SEED, or damage COUNT SEED, or list NUMBER SEED")]
    Usage,
    /// A reply isn't the one that was recorded.
    #[error("a reply isn't the one that was recorded")]
    OtherReply,
    /// A read of a received message that the recording promises isn't in it.
    #[error("a read that the recording promises isn't in it")]
    MissingRead,
    /// Memory is refused.
    #[error("out of memory")]
    OutOfMemory(#[from(alloc)] AllocError),
    /// A list of commands isn't the same after it was saved and loaded, or a damage was missed.
    #[error("a recording isn't the same after it was saved and loaded")]
    Refuted,
    /// The text isn't a recording, or there is no memory for it.
    #[error(transparent)]
    NoRecording(#[from] LoadError),
    /// The text isn't a script, or there is no memory for it.
    #[error(transparent)]
    NoScript(#[from] ScriptError),
    /// Memory is refused to the model, or it has no rule for a command.
    #[error(transparent)]
    Model(#[from] ModelError),
}

impl Failing for Failure {
    fn status(&self) -> u8 {
        match *self {
            Failure::OtherReply | Failure::MissingRead | Failure::Refuted => 1,
            Failure::NoRecording(error) if error.fault == Fault::OutOfMemory => 3,
            Failure::NoScript(ScriptError::OutOfMemory) => 3,
            Failure::Usage | Failure::NoRecording(_) | Failure::NoScript(_) => 2,
            Failure::OutOfMemory(_) | Failure::Model(ModelError::OutOfMemory(_)) => 3,
            Failure::InputOutput(_) => 4,
            Failure::Model(ModelError::NoRule) => 5,
        }
    }
}
