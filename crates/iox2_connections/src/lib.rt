//! Connections of ports, and their ends: a publisher delivers into those at its places, and a
//! subscriber takes from those at its own.
#![tactic(auto)]

mod channel_status;
mod connection;
pub mod drops;
mod further_channel;
pub mod leaving;
mod listed_key;
pub mod receiver;
pub mod retirement;
pub mod sender;
mod slot_list;

pub use channel_status::{CHANNEL_STATE_CLOSED, CHANNEL_STATE_OPEN};
pub use connection::{Connection, Home, PutOutcome};
pub use listed_key::ListedKey;
pub use slot_list::take_slot;
