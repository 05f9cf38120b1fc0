//! The settings of a script's service.
use crate::chance::Chance;
use iox2_machine::{BackpressureStrategy, ServiceConfig, TypeVariant};

// The greatest sizes of a service.
#[derive(Clone, Copy)]
struct Sizes {
    publishers: usize,
    subscribers: usize,
    buffer: usize,
    borrowed: usize,
    history: usize,
    expired: usize,
}

// One of some sorts of services. Each has something large.
fn greatest_sizes(chance: &mut Chance) -> Sizes {
    let small = Sizes {
        publishers: 3,
        subscribers: 4,
        buffer: 4,
        borrowed: 3,
        history: 4,
        expired: 3,
    };
    match chance.below(12) {
        0 | 1 => small,
        2 => Sizes {
            publishers: 1,
            subscribers: 2,
            buffer: 2,
            borrowed: 2,
            history: 2,
            expired: 1,
        },
        3 | 4 => Sizes {
            publishers: 8,
            subscribers: 6,
            borrowed: 2,
            expired: 2,
            ..small
        },
        5 => Sizes {
            publishers: 8,
            borrowed: 1,
            expired: 8,
            ..small
        },
        6 | 7 => Sizes {
            publishers: 2,
            history: 40,
            buffer: 40,
            ..small
        },
        8 => Sizes {
            subscribers: 2,
            buffer: 40,
            borrowed: 40,
            ..small
        },
        9 | 10 => Sizes {
            subscribers: 70,
            ..small
        },
        _ => Sizes {
            publishers: 8,
            subscribers: 70,
            buffer: 40,
            borrowed: 40,
            history: 40,
            expired: 40,
        },
    }
}

// A number that may be above what memory can hold.
fn size(chance: &mut Chance, greatest: usize) -> usize {
    if chance.one_in(256) {
        usize::MAX
    } else {
        chance.up_to(greatest)
    }
}

// Messages are slices in every fourth script or so.
fn variant(chance: &mut Chance) -> TypeVariant {
    if chance.one_in(4) {
        TypeVariant::Dynamic
    } else {
        TypeVariant::FixedSize
    }
}

// The settings of a service. It may have no publisher or no subscriber, but seldom has.
pub(crate) fn draw_config(chance: &mut Chance) -> ServiceConfig {
    let sizes = greatest_sizes(chance);
    let least = if chance.one_in(40) { 0 } else { 1 };
    ServiceConfig {
        node_id: 1,
        variant: variant(chance),
        max_publishers: chance.up_to(sizes.publishers).max(least),
        max_subscribers: chance.up_to(sizes.subscribers).max(least),
        subscriber_max_buffer_size: size(chance, sizes.buffer),
        subscriber_max_borrowed_samples: size(chance, sizes.borrowed),
        history_size: size(chance, sizes.history),
        number_of_channels: chance.below(5).saturating_add(1),
        enable_safe_overflow: chance.one_in(2),
        subscriber_expired_connection_buffer: chance.up_to(sizes.expired),
        publisher_max_loaned_samples: 1,
        backpressure_strategy: BackpressureStrategy::DiscardData,
        ..ServiceConfig::new(1)
    }
}
