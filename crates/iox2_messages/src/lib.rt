//! What is done with messages: loans, writes, sends, deliveries, blocked sends that go on, receives and
//! questions, reads, releases and discards; and the channels of connections.
//!
//! Each function works on the state of `iox2_domain`, in whose words it says what it does.
#![tactic(auto)]

mod blocked_sends;
mod catching_up;
mod changed_channels;
mod channels;
mod connection_sends;
mod contents;
mod deliveries;
mod discards;
mod fills;
mod growing_loans;
mod growth;
mod hinted_loans;
mod hinted_samples;
mod loan_calls;
mod loans;
mod older_slots;
mod questions;
mod receipts;
mod reclaims;
mod sample_reads;
mod send_end;
mod sends;

pub use blocked_sends::{
    blocking_subscriber, give_up_send, has_blocked_send, is_waiting, retry_send,
};
pub use catching_up::catch_up;
pub use changed_channels::{ChannelChange, change_received, close_sent};
pub use channels::{
    all_received_in, is_sent_hinted, is_sent_in, place_of_receiver, receiver_at, some_received_in,
};
pub use connection_sends::send_to_connection;
pub use contents::{cell_at_mut, cells_at_mut, user_header_at_mut, value_at_mut, values_at_mut};
pub use discards::discard_loan;
pub use fills::{fill_from_fn, fill_unspecified};
pub use hinted_loans::find_live_loan;
pub use hinted_samples::is_last_at_hint;
pub use loan_calls::{
    assume_loan, loan_cell, loan_cells, loan_header, loan_user_header, loan_value, loan_values,
    write_loan, write_loan_from_fn, write_loan_from_slice, write_loan_unspecified,
};
pub use loans::loan;
pub use questions::has_samples_at;
pub use receipts::{receive_at, release_sample};
pub use sample_reads::{sample_header, sample_payload, sample_payloads, sample_user_header};
pub use send_end::SendEnd;
pub use sends::send;
