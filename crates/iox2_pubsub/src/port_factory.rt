//! Factories of ports.

pub mod degradations;
pub mod handles;
pub mod preallocation;
pub mod publisher;
pub mod subscriber;
