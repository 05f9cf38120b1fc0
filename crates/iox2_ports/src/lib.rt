//! Ports enter a domain, and leave it.
//!
//! Each function works on the state of `iox2_domain`, in whose words it says what it does. It is proved
//! beside `iox2_messages`.
#![tactic(auto)]

mod closes;
mod given_handlers;
mod publisher_closes;
mod publisher_entry;
mod segments;
mod subscriber_closes;
mod subscriber_entry;

pub use closes::{close_publisher, close_subscriber};
pub use publisher_entry::create_publisher;
pub use segments::SegmentOptions;
pub use subscriber_entry::create_subscriber;
