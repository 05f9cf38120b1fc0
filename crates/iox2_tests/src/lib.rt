//! Tests of the calls of `iox2_pubsub` on single values, which call its public items as a user does. It
//! holds nothing else: a crate with tests is proved twice, so the libraries have none.
#![tactic(auto)]

#[cfg(test)]
mod tests;
