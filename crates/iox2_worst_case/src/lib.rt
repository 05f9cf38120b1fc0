//! The list of commands that needs every slot of the worst case, and what holds of its runs on the machine.
#![tactic(auto)]

mod filling;
mod laws;

pub use filling::{is_granted, worst_case_commands};
pub use laws::{worst_case_is_least, worst_case_is_reached};
