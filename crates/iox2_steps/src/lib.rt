//! What the steps on a domain come to: lemmas for the crates that have the functions.
//!
//! It has no function of its own. That it isn't part of `iox2_domain` is for the prover alone: the crates
//! that name none of its lemmas needn't wait for it, and less memory is needed for each.
#![tactic(auto)]
