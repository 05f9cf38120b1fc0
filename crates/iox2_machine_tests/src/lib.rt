//! Tests of `iox2_machine`, `iox2_contents`, `iox2_slots` and the connections of `iox2_connections`, which call
//! their public items as a user does. It holds nothing else: a crate with tests is proved twice, so the libraries have none.
#![tactic(auto)]

#[cfg(test)]
mod tests;
