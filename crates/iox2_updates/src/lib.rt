//! Ports get their connections, and lose those that they need no more.
//!
//! Each function works on the state of `iox2_domain`, in whose words it says what it does.
#![tactic(auto)]

mod connects;
mod departures;
mod failures;
mod marks;
mod places;
mod receiver_updates;
mod reclaims;
mod retirements;
mod updates;

pub use departures::{forget_if_empty, leave_if_unused, settle_book_if_left};
pub use marks::{mark_end, unmark_publisher, unmark_subscriber};
pub use receiver_updates::update_subscriber;
pub use reclaims::reclaim;
pub use updates::update_publisher;
