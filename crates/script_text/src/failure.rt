ghost use Rattle.std.specs.Prelude.{◌≡◌, ◌<◌, Some, length};
ghost use Rattle.script_text.specs.Failures.{error_text, status_of};

use arrayvec::ArrayString;
use itoa::Buffer;
use std::alloc::AllocError;
use std::fmt;

/// The longest line that a failure has, with its line feed: a number has at most 20 digits.
const LONGEST_LINE: usize = 39;

/// Why a script has no replies, or not all of them are printed.
#[derive(Debug, Clone, Copy, PartialEq, Eq)]
pub enum ScriptError {
    /// This line, counted from 1, is none of a script. It is the first such line.
    BadCommand(usize),
    /// Memory was refused.
    OutOfMemory,
    /// The input can't be read to its end.
    InputFailed,
    /// The replies can't be written to the output.
    OutputFailed,
}

impl ScriptError {
    /// The exit status.
    pub fn status(&self) -> u8
        ensures { result ≡ status_of self.now }
    {
        match self {
            ScriptError::BadCommand(_) => 2,
            ScriptError::OutOfMemory => 3,
            ScriptError::InputFailed | ScriptError::OutputFailed => 4,
        }
    }

    /// What is said of the failure, with room for a line feed. It takes no memory.
    pub fn text(&self) -> ArrayString<LONGEST_LINE>
        ensures value { result.bytes ≡ error_text self.now }
        ensures room { length result.bytes < LONGEST_LINE }
    {
        let mut text = ArrayString::new();
        match self {
            ScriptError::BadCommand(line) => {
                text.push_str("line ");
                text.push_str(Buffer::new().format(*line));
                text.push_str(": bad command");
            }
            ScriptError::OutOfMemory => text.push_str("out of memory"),
            ScriptError::InputFailed => text.push_str("input failed"),
            ScriptError::OutputFailed => text.push_str("output failed"),
        }
        text
    }
}

impl fmt::Display for ScriptError {
    ghost output = { λ error. Some (error_text error) };

    fn fmt<W: fmt::Write>(&self, f: &mut fmt::Formatter<W>) -> fmt::Result {
        f.write_str(self.text().as_str())
    }
}

impl From<AllocError> for ScriptError {
    ghost use Rattle.std.specs.Prelude.{◌≡◌};
    ghost use Rattle.script_text.specs.declared.failure.ScriptError.TheVariants.{OutOfMemory};

    ghost from_gives = { λ refusal error. error ≡ OutOfMemory };

    fn from(_refusal: AllocError) -> Self {
        ScriptError::OutOfMemory
    }
}
