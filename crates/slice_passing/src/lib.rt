//! Slices pass from a publisher to a subscriber, one after the other, by calls that a bench makes and
//! whose instructions a tool counts.
#![tactic(auto)]

mod passing;

pub use passing::{Steps, pass_slices};
