//! What the programs here have in common: each begins with the words of its command line, and says why
//! it fails.
#![tactic(auto)]

use std::alloc::{AllocError, AllocFailed};
use std::fmt::Display;
use std::process::ExitCode;
use std::{env, io};

/// Why a program ends early. Its text is what is said of it.
pub trait Failing: Display + Drop + From<io::Error> + From<AllocError> {
    /// The exit status: 1 or more, as 0 is that of a success.
    fn status(&self) -> u8;
}

/// Does the task with the words of the command line. The first of these names the program. If the task
/// fails, says why on the standard error, and returns its exit status.
///
/// Example (`crates/list_runner/src/main.rt`):
///
/// ```rust
/// fn main(rt: HostRuntime) -> ExitCode {
///     run_task(&rt, carry_out)
/// }
/// ```
pub fn run_task<E: Failing, F: FnOnce(&HostRuntime, &[String]) -> Result<(), E>>(
    rt: &HostRuntime,
    task: F,
) -> ExitCode
    requires { F.IsAlwaysCallable task }
{
    match with_words(rt, task) {
        Ok(()) => ExitCode::SUCCESS,
        Err(failure) => {
            let _ = eprintln!(rt; "{failure}");
            ExitCode::from(failure.status())
        }
    }
}

// Reads the words and does the task.
fn with_words<E: Failing, F: FnOnce(&HostRuntime, &[String]) -> Result<(), E>>(
    rt: &HostRuntime,
    task: F,
) -> Result<(), E>
    requires { F.IsAlwaysCallable task }
{
    let words: Vec<String> = env::args(rt)?.collect(rt.alloc())?;
    task(rt, words.as_slice())
}
