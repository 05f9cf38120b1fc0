//! How a script ends.
ghost use Rattle.std.specs.Prelude.{◌≡◌};
ghost use Rattle.script_runner.specs.Endings.{IsStatus, ending_status};

use script_text::ScriptError;

/// How a script ended.
#[derive(Debug, Clone, Copy, PartialEq, Eq)]
pub enum Ending {
    /// All replies are written to the output, and all warnings to the errors.
    Printed,
    /// All replies are written to the output. The errors failed, and have a part of the warnings at
    /// most.
    Unwarned,
    /// The script failed, and a line on the errors says with what.
    Reported(ScriptError),
    /// The script failed with this, and the errors failed too: they have a part of the line at most.
    Unreported(ScriptError),
}

impl Ending {
    /// The exit status: 0 where all replies are written, or that of the failure.
    pub fn status(&self) -> u8
        ensures value { result ≡ ending_status self.now }
        ensures status { IsStatus result }
    {
        match self {
            Ending::Printed | Ending::Unwarned => 0,
            Ending::Reported(error) | Ending::Unreported(error) => error.status(),
        }
    }
}
