//! What the static library exports. Each export has what is in `calls` done to the domain where it
//! is in C's box. Only what makes or frees a domain, and a question of `questions`, takes it out and
//! puts it back.

mod channel_changes;
mod channels;
mod connection_sends;
mod domains;
mod loans;
mod publishers;
mod questions;
mod samples;
mod sends;
mod subscribers;
