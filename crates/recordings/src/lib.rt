//! Recordings of what was called on a domain, and what was replied: as text, and back.
#![tactic(auto)]

mod commands;
mod load_error;
mod loading;
mod recording;
mod replies;
mod saving;
mod sum;

pub use commands::{push_command, push_script};
pub use load_error::{Fault, LoadError};
pub use loading::load;
pub use recording::Recording;
pub use replies::push_reply;
pub use saving::save;
