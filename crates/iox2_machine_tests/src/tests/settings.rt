use iox2_machine::{AllocationStrategy, BackpressureStrategy, ServiceConfig, TypeVariant};

// How many fields there are. `changed_at` gives the defaults with one of them changed.
const FIELDS: usize = 16;

fn changed_at(field: usize) -> ServiceConfig {
    let mut settings = ServiceConfig::new(7);
    match field {
        0 => settings.service_id = 8,
        1 => settings.node_id = 1,
        2 => settings.variant = TypeVariant::Dynamic,
        3 => settings.units_per_element = 2,
        4 => settings.max_publishers = 3,
        5 => settings.max_subscribers = 9,
        6 => settings.subscriber_max_buffer_size = 3,
        7 => settings.subscriber_max_borrowed_samples = 3,
        8 => settings.history_size = 1,
        9 => settings.enable_safe_overflow = false,
        10 => settings.subscriber_expired_connection_buffer = 129,
        11 => settings.publisher_max_loaned_samples = 3,
        12 => settings.backpressure_strategy = BackpressureStrategy::DiscardData,
        13 => settings.publisher_allocation_strategy = AllocationStrategy::BestFit,
        14 => settings.lists_cells = false,
        15 => settings.number_of_channels = 2,
        _ => {}
    }
    settings
}

#[test]
fn settings_compare_by_every_field(rt: HostRuntime) {
    let settings = ServiceConfig::new(7);
    let copy = settings;
    assert!(rt; copy == settings);
    assert!(rt; changed_at(FIELDS) == settings);
    for field in 0..FIELDS {
        assert!(rt; changed_at(field) != settings);
    }
}
