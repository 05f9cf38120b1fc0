//! What a domain has, what always holds of it, and where in it things are.
//!
//! Its words (`specs`) say what each step does. Lemmas show that the step does it: those of
//! `iox2_steps`, and those here (`proofs/lemmas`), which are about loans, receives and samples,
//! about boxes, and about the parts of the fields. The steps are functions of the crates above,
//! `iox2_updates`, `iox2_ports` and `iox2_messages`. `iox2_pubsub` keeps the state in its `Domain`,
//! behind the handles of ports and messages.
#![tactic(auto)]

mod boxes;
mod degradations;
mod due;
mod handlers;
mod left_books;
mod loan_slots;
mod message_slots;
mod open_ports;
mod options;
mod places;
mod ports;
mod publisher_state;
mod sample_slots;
mod state;
mod subscriber_state;
mod units;
mod warnings;

pub use boxes::{Boxes, PortBoxes};
pub use degradations::degradation_answer;
pub use due::Due;
pub use handlers::{AskedBox, HandlerMark};
pub use loan_slots::{LoanAt, is_loan_slot};
pub use message_slots::MessageSlot;
pub use options::{PublisherOptions, SubscriberOptions};
pub use places::{free_place, put_at_place, reserve_place, stands_at};
pub use ports::{
    Port, PortAt, clear_due, clear_key_at, degradation_at, is_due_at, key_at, make_all_due,
    make_due, reserve_key_at, set_key_at,
};
pub use publisher_state::{BlockedDelivery, PublisherState};
pub use sample_slots::{Receipt, SampleAt, SampleSlot};
pub use state::DomainState;
pub use subscriber_state::{
    SubscriberState, expire_at, forget_at, is_open_at, replace_expired_at, reserve_connection_at,
};
pub use units::{lists_wanted, segment_size, units_of};
pub use warnings::Warnings;
