use iox2_machine::{ServiceConfig, worst_case_slots};

// Settings with these limits: subscribers, their buffer, what they borrow, and the history.
fn limits(subscribers: usize, buffer: usize, borrowed: usize, history: usize) -> ServiceConfig {
    ServiceConfig {
        max_subscribers: subscribers,
        subscriber_max_buffer_size: buffer,
        subscriber_max_borrowed_samples: borrowed,
        history_size: history,
        ..ServiceConfig::new(7)
    }
}

#[test]
fn slots_are_counted_for_subscribers_history_and_loans(rt: HostRuntime) {
    assert!(rt; worst_case_slots(&limits(2, 3, 2, 1), 2) == Some(13));
    assert!(rt; worst_case_slots(&limits(1, 1, 1, 0), 1) == Some(3));
    assert!(rt; worst_case_slots(&limits(2, 2, 1, 1), 1) == Some(8));
    assert!(rt; worst_case_slots(&limits(1, 1, 0, 1), 1) == Some(3));
    assert!(rt; worst_case_slots(&limits(1, 0, 0, 0), 0) == Some(1));
    assert!(rt; worst_case_slots(&limits(0, 0, 0, 0), 0) == Some(0));
}

// The same, with that many channels in a connection.
fn with_channels(config: ServiceConfig, channels: usize) -> ServiceConfig {
    ServiceConfig {
        number_of_channels: channels,
        ..config
    }
}

#[test]
fn slots_are_counted_for_each_channel(rt: HostRuntime) {
    let one = limits(2, 3, 2, 1);
    assert!(rt; worst_case_slots(&with_channels(one, 0), 2) == Some(13));
    assert!(rt; worst_case_slots(&with_channels(one, 1), 2) == Some(13));
    assert!(rt; worst_case_slots(&with_channels(one, 2), 2) == Some(23));
    assert!(rt; worst_case_slots(&with_channels(one, 3), 2) == Some(33));
    let most = usize::MAX;
    assert!(rt; worst_case_slots(&with_channels(one, most), 2) == None);
    assert!(rt; worst_case_slots(&with_channels(limits(0, most, most, 5), most), 2) == Some(7));
    assert!(rt; worst_case_slots(&with_channels(limits(1, 0, 0, 0), most), 0) == Some(most));
    assert!(rt; worst_case_slots(&with_channels(limits(1, 0, 0, 0), most), 1) == None);
}

#[test]
fn only_the_whole_sum_has_to_fit(rt: HostRuntime) {
    let most = usize::MAX;
    assert!(rt; worst_case_slots(&limits(0, most, most, 5), 2) == Some(7));
    assert!(rt; worst_case_slots(&limits(1, most - 2, 1, 0), 1) == Some(most));
    assert!(rt; worst_case_slots(&limits(1, most - 2, 1, 1), 1) == None);
    assert!(rt; worst_case_slots(&limits(1, most, 1, 0), 0) == None);
    assert!(rt; worst_case_slots(&limits(0, 0, 0, most), 1) == None);
}
