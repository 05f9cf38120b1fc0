//! What is in the slots of a publisher: payloads and user headers.
//!
//! It names no other crate of this library, so that it is proved beside the plain types.
#![tactic(auto)]

mod cell_lists;
mod cells;
mod content;
mod contents;
mod lists;
mod payload;
mod values;

pub use contents::Contents;
