//! Why rows aren't run to their end.
use command_line::Failing;
use std::alloc::AllocError;
use std::io;
use thiserror::Error;

/// Why rows aren't run to their end, or aren't as they have to be.
#[derive(Debug, Clone, Copy, Error)]
pub(crate) enum Failure {
    /// A file or the arguments can't be read, or a line can't be printed.
    #[error("input or output failed")]
    InputOutput(#[from] io::Error),
    /// The line with this number is none of a row.
    #[error("line {0} is none of a row")]
    NoLine(usize),
    /// Memory is refused.
    #[error("out of memory")]
    OutOfMemory(#[from(alloc)] AllocError),
    /// A row differs, or one doesn't that has to.
    #[error("a row isn't as it has to be")]
    Refuted,
}

impl Failing for Failure {
    fn status(&self) -> u8 {
        match *self {
            Failure::Refuted => 1,
            Failure::NoLine(_) => 2,
            Failure::OutOfMemory(_) => 3,
            Failure::InputOutput(_) => 4,
        }
    }
}
