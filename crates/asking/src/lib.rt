//! What a caller of `iox2_request_response` writes.
#![tactic(auto)]

mod calls;
mod failure;

pub use calls::{answer, answer_one, ask, ask_twice, next_answer, serve_once};
pub use failure::Failure;
