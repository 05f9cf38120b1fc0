//! Runs a script of publish-subscribe calls: reads it, and prints a line for each reply.
#![tactic(auto)]

mod ending;
mod replies;
mod report;
mod runner;
mod sink;
mod source;

pub use ending::Ending;
pub use runner::script;
pub use script_text::ScriptError;
