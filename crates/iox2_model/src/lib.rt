//! A model of publish-subscribe delivery to test the library against: the rules of `docs/MACHINE.md`
//! carried out on plain vectors and numbers, one command after another. It shares nothing with the
//! library but the plain types of settings, commands and replies.
#![tactic(auto)]

mod channel;
mod channel_calls;
mod closes;
mod commands;
mod delivery;
mod error;
mod loans;
mod mailbox;
mod mailboxes;
mod memory;
mod model;
mod numbered;
mod places;
mod port;
mod ports;
mod receives;
mod records;
mod releases;
mod segments;
mod sender;
mod subscriber_update;
mod views;

pub use error::ModelError;
pub use memory::Memory;
pub use model::{Kind, Model};
pub use views::{Elsewhere, Thing};
