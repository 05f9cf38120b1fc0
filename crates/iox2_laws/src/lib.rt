//! Laws of the machine: what every operation keeps.
#![tactic(auto)]

mod laws;

pub use laws::{fresh_is_well_formed, holds_at_most_worst_case, size_is_length};
