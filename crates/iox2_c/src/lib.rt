//! The calls of `iox2_pubsub` for C and C++, with messages of bytes.
//!
//! C owns a domain as a `DomainBox`, a struct of one pointer, and names ports, loans and messages by
//! structs of numbers, which it may copy and make up: a call whose numbers name nothing that is live
//! returns a code, and changes nothing. `bindings/include/iox2_pubsub.h` declares what is in
//! `exports`, and says what a caller owes.
#![tactic(auto)]

mod calls;
mod config;
mod domain_box;
mod exports;
mod loose;
mod numbers;
mod options;
mod recording;
mod service;
mod starts;
mod status;
mod texts;
mod warning;
