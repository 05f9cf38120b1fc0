//! Why a task isn't done.
use command_line::Failing;
use std::alloc::AllocError;
use std::io;
use thiserror::Error;

/// Why a task isn't done, or not to its end.
#[derive(Debug, Clone, Copy, Error)]
pub(crate) enum Failure {
    /// The arguments can't be read, or a line can't be printed.
    #[error("arguments or output failed")]
    InputOutput(#[from] io::Error),
    /// There are too few arguments or too many, or the first names no task.
    #[error("usage: list_runner fill P S B R H L, or compare P S B R H L")]
    Usage,
    /// An argument isn't a number, or it doesn't fit.
    #[error("each size has to be a number from 0 to 18446744073709551615")]
    NoNumber,
    /// The service may have no publisher or no subscriber, or its publisher no loan.
    #[error("no list: P, S and L have to be at least 1")]
    NothingToFill,
    /// Memory for the domain, the replies or the arguments is refused.
    #[error("out of memory")]
    OutOfMemory(#[from(alloc)] AllocError),
    /// The number of slots doesn't fit.
    #[error("no list: its slots would be more than 18446744073709551615")]
    TooManySlots,
    /// The length of the list doesn't fit, or memory for it is refused.
    #[error("no list: it would be too long, or there is no memory for it")]
    TooLong,
    /// Some commands were skipped or refused.
    #[error("the list wasn't carried out as a whole")]
    Refused,
}

impl Failing for Failure {
    fn status(&self) -> u8 {
        match *self {
            Failure::Refused => 1,
            Failure::Usage | Failure::NoNumber | Failure::NothingToFill | Failure::TooManySlots =>
                2,
            Failure::TooLong | Failure::OutOfMemory(_) => 3,
            Failure::InputOutput(_) => 4,
        }
    }
}
