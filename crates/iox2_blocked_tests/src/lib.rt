//! Tests of sends that wait for a full subscriber, which call public items of `iox2_pubsub` as a user
//! does. It holds nothing else: a crate with tests is proved twice, so the libraries have none.
#![tactic(auto)]

#[cfg(test)]
mod tests;
