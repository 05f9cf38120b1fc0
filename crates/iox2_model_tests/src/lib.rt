//! Tests of `iox2_model`: runs whose replies are known. It holds nothing else: a crate with tests is
//! proved twice, so the model has none.
#![tactic(auto)]

#[cfg(test)]
mod blocked_sends;
#[cfg(test)]
mod growing_publishers;
