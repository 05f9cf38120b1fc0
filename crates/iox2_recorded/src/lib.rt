//! Domains that record what is called on them.
#![tactic(auto)]

mod create_error;
mod recorded;

pub use create_error::RecordedCreateError;
pub use recorded::Recorded;
