//! The calls on a domain, by numbers: each tests what the numbers name, and changes nothing where
//! that isn't live.

pub mod channel_changes;
pub mod channels;
pub mod connection_sends;
pub mod lending;
pub mod loans;
pub mod publishers;
pub mod questions;
pub mod samples;
pub mod sends;
pub mod subscribers;
