//! What the lines of a script ask for, and what is printed for its replies, its warnings or its failure.
#![tactic(auto)]

mod channels;
mod failure;
mod lines;
mod parse;
mod print;
mod warnings;

pub use failure::ScriptError;
pub use parse::{Script, command_of, domain_of};
pub use print::reply_lines;
pub use warnings::{WARNING_ROOM, warning_lines};
