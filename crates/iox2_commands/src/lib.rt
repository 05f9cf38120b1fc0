//! Commands on a domain and their replies, and what holds of every run of them on the machine.
#![tactic(auto)]

mod channel_calls;
mod command;
mod laws;
mod new_publisher;
mod reply;

pub use channel_calls::{PublisherChannelCall, SubscriberChannelCall};
pub use command::Command;
pub use laws::{
    alike_states_stay_alike, calls_leave_others_views, every_list_runs, loans_are_granted,
    reached_states_hold_at_most_worst_case, reads_give_what_was_sent, receives_in_order,
    runs_without_refusals_are_ample, samples_name_their_publisher, steps_keep_well_formed,
    steps_lift, subscribers_are_isolated, subscribers_are_isolated_without_refusals,
    views_stay_alike, views_stay_alike_without_refusals, worst_case_of_slots_grants,
};
pub use new_publisher::NewPublisher;
pub use reply::Reply;
