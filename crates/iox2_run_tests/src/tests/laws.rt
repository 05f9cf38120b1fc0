use iox2_laws::{fresh_is_well_formed, holds_at_most_worst_case, size_is_length};
use iox2_runs::{
    alike_states_stay_alike, calls_leave_others_views, every_list_runs, loans_are_granted,
    reached_states_hold_at_most_worst_case, reads_give_what_was_sent, receives_in_order,
    runs_without_refusals_are_ample, samples_name_their_publisher, steps_keep_well_formed,
    steps_lift, subscribers_are_isolated, subscribers_are_isolated_without_refusals,
    views_stay_alike, views_stay_alike_without_refusals, worst_case_is_least,
    worst_case_is_reached, worst_case_of_slots_grants,
};

#[test]
fn laws_of_operations_stand_at_concrete_types() {
    fresh_is_well_formed::<u64, u8>();
    holds_at_most_worst_case::<u64, u8>();
    size_is_length();
}

#[test]
fn laws_of_runs_stand_at_concrete_types() {
    steps_keep_well_formed::<u64, u8>();
    steps_lift::<u64, u8>();
    every_list_runs::<u64, u8>();
    reached_states_hold_at_most_worst_case::<u64, u8>();
    samples_name_their_publisher::<u64, u8>();
    receives_in_order::<u64, u8>();
    reads_give_what_was_sent::<u64, u8>();
    worst_case_of_slots_grants::<u64, u8>();
    loans_are_granted::<u64, u8>();
    worst_case_is_reached::<u64, u8>();
    worst_case_is_least::<u64, u8>();
    calls_leave_others_views::<u64, u8>();
    alike_states_stay_alike::<u64, u8>();
    subscribers_are_isolated::<u64, u8>();
    views_stay_alike::<u64, u8>();
    runs_without_refusals_are_ample::<u64, u8>();
    subscribers_are_isolated_without_refusals::<u64, u8>();
    views_stay_alike_without_refusals::<u64, u8>();
}
