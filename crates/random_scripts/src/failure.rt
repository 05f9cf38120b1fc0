//! Why the scripts didn't all pass.
use command_line::Failing;
use iox2_model::ModelError;
use std::alloc::AllocError;
use std::io;
use thiserror::Error;

/// Why the scripts didn't all pass.
#[derive(Debug, Clone, Copy, Error)]
pub(crate) enum Failure {
    /// The arguments can't be read, or a line can't be printed.
    #[error("arguments or output failed")]
    InputOutput(#[from] io::Error),
    /// The arguments name no task, or one isn't a number.
    #[error("usage: random_scripts COUNT SEED, or one SCRIPT SEED, or draw 0 SCRIPT SEED, or run 0 SCRIPT SEED, or refused COUNT SCRIPT SEED")]
    Usage,
    /// `run` hands back other commands than it was given.
    #[error("run handed back other commands than it was given")]
    OtherCommands,
    /// Memory is refused.
    #[error("out of memory")]
    OutOfMemory(#[from(alloc)] AllocError),
    /// A reply isn't the model's.
    #[error("a reply isn't one that the model has")]
    Refuted,
    /// A kind of reply that the words can give was never met, or a word never carried out or skipped.
    #[error("a count is 0: more scripts have to be run, or crates/random_commands draws too seldom what gives it")]
    NeverMet,
    /// A reply is of a kind that isn't counted.
    #[error("a reply is of a kind that crates/random_scripts/src/tally.rt doesn't count: it has to be added there")]
    NoKind,
    /// Memory is refused to the model, or it has no rule for a command.
    #[error(transparent)]
    Model(#[from] ModelError),
}

impl Failing for Failure {
    fn status(&self) -> u8 {
        match *self {
            Failure::Refuted | Failure::NeverMet | Failure::NoKind | Failure::OtherCommands => 1,
            Failure::Usage => 2,
            Failure::OutOfMemory(_) | Failure::Model(ModelError::OutOfMemory(_)) => 3,
            Failure::InputOutput(_) => 4,
            Failure::Model(ModelError::NoRule) => 5,
        }
    }
}
