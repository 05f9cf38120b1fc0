//! Keeps what is called on a domain by numbers, as commands that name what they are on by positions.
#![tactic(auto)]

mod names;
mod recorder;

pub use names::{NOWHERE, Name};
pub use recorder::Recorder;
