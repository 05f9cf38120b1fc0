//! Runs: lists of commands on one domain, with their replies.
#![tactic(auto)]

mod compare;
mod runs;

pub use compare::compare_runs;
pub use iox2_commands::{
    Command, NewPublisher, PublisherChannelCall, Reply, SubscriberChannelCall,
    alike_states_stay_alike, calls_leave_others_views, every_list_runs, loans_are_granted,
    reached_states_hold_at_most_worst_case, reads_give_what_was_sent, receives_in_order,
    runs_without_refusals_are_ample, samples_name_their_publisher, steps_keep_well_formed,
    steps_lift, subscribers_are_isolated, subscribers_are_isolated_without_refusals,
    views_stay_alike, views_stay_alike_without_refusals, worst_case_of_slots_grants,
};
pub use iox2_worst_case::{
    is_granted, worst_case_commands, worst_case_is_least, worst_case_is_reached,
};
pub use runs::{Made, carry_out, disown_all, lacks_cells, run};
