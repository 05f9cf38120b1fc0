use std::alloc::{AllocError, AllocFailed};
use std::fmt;

/// Why a text isn't a recording, and where.
#[derive(Debug, Clone, Copy, PartialEq, Eq)]
pub struct LoadError {
    /// The line, counted from 1.
    pub line: usize,
    /// What is wrong with it.
    pub fault: Fault,
}

/// What is wrong with a line.
#[derive(Debug, Clone, Copy, PartialEq, Eq)]
pub enum Fault {
    /// The text isn't UTF-8.
    NotText,
    /// The first line isn't that of a recording.
    NoRecording,
    /// The recording has another version.
    OtherVersion,
    /// The line doesn't have the settings of the service.
    BadService,
    /// The line doesn't have the settings of the domain.
    BadDomain,
    /// The line has no command, or a number that is too large.
    BadCommand,
    /// There is no reply behind the command.
    NoReply,
    /// The text ends before the last line of a recording.
    Cut,
    /// The last line doesn't have the number of the commands and the sum of what is before it: the
    /// text was changed.
    Changed,
    /// Something follows the last line of the recording.
    MoreText,
    /// Memory is refused.
    OutOfMemory,
}

impl Fault {
    /// What is said of it.
    pub fn text(self) -> &'static str {
        match self {
            Fault::NotText => "the text isn't UTF-8",
            Fault::NoRecording => "no recording: 'recording 1' is expected",
            Fault::OtherVersion => "a recording of another version; this program reads version 1",
            Fault::BadService => "'service ID NODE UNITS LOANS STRATEGY MEMORY' is expected",
            Fault::BadDomain => "'domain ..' or 'slices ..' is expected",
            Fault::BadCommand => "bad command",
            Fault::NoReply => "no reply behind the command",
            Fault::Cut => "the recording is cut off: it has no last line 'end ..'",
            Fault::Changed => "the recording was changed: its count or its sum is another",
            Fault::MoreText => "something follows the end of the recording",
            Fault::OutOfMemory => "out of memory",
        }
    }
}

impl fmt::Display for LoadError {
    fn fmt<W: fmt::Write>(&self, f: &mut fmt::Formatter<W>) -> fmt::Result {
        write!(f, "line {}: {}", self.line, self.fault.text())
    }
}

impl From<AllocError> for Fault {
    fn from(_error: AllocError) -> Self {
        Fault::OutOfMemory
    }
}

impl<T: Drop> From<AllocFailed<T>> for Fault {
    fn from(_error: AllocFailed<T>) -> Self {
        Fault::OutOfMemory
    }
}
