use iox2_fixtures::{settings, smallest};
use iox2_machine::{
    BackpressureStrategy, DegradationAction, LoanError, ServiceConfig, TypeVariant,
    UniquePublisherId, UniqueSubscriberId, worst_case_slots,
};
use iox2_pubsub::Domain;
use iox2_runs::{Command, NewPublisher, Reply, is_granted, run, worst_case_commands};
use std::alloc::Global;
use std::process::Abort;

fn publisher(slots: Option<usize>) -> Command<u64, u8> {
    Command::CreatePublisher(NewPublisher {
        override_slots: slots,
        ..NewPublisher::new(1, BackpressureStrategy::DiscardData)
    })
}

const SUBSCRIBER: Command<u64, u8> = Command::CreateSubscriber {
    buffer: None,
    degradation: DegradationAction::Warn,
};

#[test]
fn the_list_makes_fills_and_loans(rt: HostRuntime) {
    let list = worst_case_commands(rt.alloc(), &smallest(), 1, 5, Some(2));
    let list: Vec<Command<u64, u8>> = list.expect(&rt, "a list");
    let expected: [Command<u64, u8>; 11] = [
        publisher(Some(2)),
        SUBSCRIBER,
        Command::Update { of: 0 },
        Command::LoanUninit { of: 0 },
        Command::WriteAll { of: 3, value: 5 },
        Command::Send { of: 3 },
        Command::Receive { of: 1 },
        Command::LoanUninit { of: 0 },
        Command::WriteAll { of: 7, value: 5 },
        Command::Send { of: 7 },
        Command::LoanUninit { of: 0 },
    ];
    assert!(rt; list.as_slice() == expected.as_slice());
}

#[test]
fn a_list_of_slices_loans_one_element(rt: HostRuntime) {
    let config = ServiceConfig {
        variant: TypeVariant::Dynamic,
        ..smallest()
    };
    let list: Option<Vec<Command<u64, u8>>> = worst_case_commands(rt.alloc(), &config, 1, 5, None);
    let list = list.expect(&rt, "a list");
    let loan: Command<u64, u8> = Command::LoanSlice { of: 0, len: 1 };
    assert!(rt; list.as_slice().last() == Some(&loan));
}

#[test]
fn there_is_no_list_that_fills_nothing(rt: HostRuntime) {
    let overwriting = ServiceConfig {
        enable_safe_overflow: true,
        ..smallest()
    };
    let without_publishers = ServiceConfig {
        max_publishers: 0,
        ..smallest()
    };
    let without_subscribers = ServiceConfig {
        max_subscribers: 0,
        ..smallest()
    };
    let of_two_units = ServiceConfig {
        units_per_element: 2,
        ..smallest()
    };
    let of_two_channels = ServiceConfig {
        number_of_channels: 2,
        ..smallest()
    };
    let of_too_many_slots = ServiceConfig {
        history_size: usize::MAX,
        ..smallest()
    };
    let too_long = ServiceConfig {
        history_size: usize::MAX / 2,
        ..smallest()
    };
    let too_large = ServiceConfig {
        history_size: usize::MAX / 4096,
        ..smallest()
    };
    for config in [
        overwriting,
        without_publishers,
        without_subscribers,
        of_two_units,
        of_two_channels,
        of_too_many_slots,
        too_long,
        too_large,
    ] {
        let list: Option<Vec<Command<u64, u8>>> = worst_case_commands(
            rt.alloc(),
            &config,
            1,
            5,
            None,
        );
        assert!(rt; list.is_none());
    }
    let list: Option<Vec<Command<u64, u8>>> = worst_case_commands(
        rt.alloc(),
        &smallest(),
        0,
        5,
        None,
    );
    assert!(rt; list.is_none());
}

// What a new domain replies to the list, with this override of the slots.
fn replies_to_list(
    alloc: Global,
    config: &ServiceConfig,
    loans: usize,
    slots: Option<usize>,
) -> Option<Vec<Reply<u64, u8>>> {
    let commands = worst_case_commands(alloc, config, loans, 5, slots)?;
    let Ok(mut domain) = Domain::<u64, u8>::new(alloc, *config) else {
        return None;
    };
    let Ok(replies) = run(alloc, &mut domain, commands) else {
        return None;
    };
    Some(replies)
}

// Whether a loan found no slot.
fn lacks_a_slot(reply: &Reply<u64, u8>) -> bool {
    *reply == Reply::LoanRefused(LoanError::OutOfMemory)
}

// How many loans were granted, messages sent, and messages received.
fn counts(replies: &[Reply<u64, u8>]) -> [usize; 3] {
    let loans = replies
        .iter()
        .filter(|reply| matches!(reply, Reply::Loaned))
        .count();
    let sends = replies
        .iter()
        .filter(|reply| matches!(reply, Reply::Delivered(_)))
        .count();
    let samples = replies
        .iter()
        .filter(|reply| matches!(reply, Reply::Sample(_)))
        .count();
    [loans, sends, samples]
}

// Asserts that there is a list where its service has a publisher, a subscriber and a loan, and there
// alone, and that no command of it is skipped or refused. Each subscriber borrows messages, others
// wait for it, and others are for the history. With a slot fewer a loan finds none.
fn assert_list_is_granted(rt: &impl Abort, alloc: Global, config: &ServiceConfig, loans: usize) {
    let subscribers = config.max_subscribers;
    let borrowed = config.subscriber_max_borrowed_samples;
    let history = config.history_size;
    let replies = replies_to_list(alloc, config, loans, None);
    if config.max_publishers == 0 || subscribers == 0 || loans == 0 {
        assert!(rt; replies.is_none(), "at {config:?} and {loans}");
        return;
    }
    let replies = replies.expect(rt, "replies");
    let delivered = config
        .subscriber_max_buffer_size
        .max(1)
        .saturating_add(borrowed);
    let slots = subscribers
        .saturating_mul(delivered)
        .saturating_add(history)
        .saturating_add(loans);
    let sends = subscribers.saturating_mul(delivered.saturating_add(history));
    let expected = [
        sends.saturating_add(loans),
        sends,
        subscribers.saturating_mul(borrowed),
    ];
    assert_eq!(rt;
        worst_case_slots(config, loans),
        Some(slots),
        "at {config:?} and {loans}"
    );
    assert_eq!(rt; counts(&replies), expected, "at {config:?} and {loans}");
    assert!(rt;
        replies.iter().all(|reply| is_granted(reply)),
        "at {config:?} and {loans}"
    );
    let fewer = replies_to_list(alloc, config, loans, Some(slots.saturating_sub(1)));
    let fewer = fewer.expect(rt, "replies");
    assert!(rt; fewer.iter().any(lacks_a_slot), "at {config:?} and {loans}");
}

// Asserts it for every history and number of loans up to three.
fn assert_lists_are_granted(rt: &impl Abort, alloc: Global, config: ServiceConfig) {
    for history_size in 0..4 {
        let config = ServiceConfig {
            history_size,
            ..config
        };
        for loans in 0..4 {
            assert_list_is_granted(rt, alloc, &config, loans);
        }
    }
}

#[test]
fn every_small_list_is_granted_with_its_slots(rt: HostRuntime) {
    for max_publishers in 0..4 {
        for max_subscribers in 0..4 {
            for subscriber_max_buffer_size in 0..4 {
                for subscriber_max_borrowed_samples in 0..4 {
                    let config = ServiceConfig {
                        max_publishers,
                        max_subscribers,
                        subscriber_max_buffer_size,
                        subscriber_max_borrowed_samples,
                        ..settings()
                    };
                    assert_lists_are_granted(&rt, rt.alloc(), config);
                }
            }
        }
    }
}

#[test]
fn lists_of_slices_are_granted_with_their_slots(rt: HostRuntime) {
    let config = ServiceConfig {
        variant: TypeVariant::Dynamic,
        max_subscribers: 2,
        ..settings()
    };
    assert_lists_are_granted(&rt, rt.alloc(), config);
}

// Asserts that a publisher with one loan needs that many slots there: the list is granted with them, and
// with one fewer its last loan finds none, while no other loan is out.
fn assert_slots_are_needed(rt: &impl Abort, alloc: Global, config: &ServiceConfig, slots: usize) {
    assert_eq!(rt; worst_case_slots(config, 1), Some(slots), "at {config:?}");
    let replies = replies_to_list(alloc, config, 1, Some(slots)).expect(rt, "replies");
    assert!(rt;
        replies.iter().all(|reply| is_granted(reply)),
        "at {config:?}"
    );
    let fewer = replies_to_list(alloc, config, 1, Some(slots.saturating_sub(1)));
    let fewer = fewer.expect(rt, "replies");
    let last = fewer.as_slice().last().expect(rt, "replies");
    assert!(rt; lacks_a_slot(last), "at {config:?}");
    let [loans, sends, _] = counts(&fewer);
    assert_eq!(rt; loans, sends, "at {config:?}");
}

#[test]
fn the_last_loan_of_a_list_needs_the_last_slot(rt: HostRuntime) {
    let two_subscribers = ServiceConfig {
        max_subscribers: 2,
        subscriber_max_buffer_size: 2,
        ..smallest_with_history()
    };
    let nothing_borrowed = ServiceConfig {
        subscriber_max_borrowed_samples: 0,
        history_size: 1,
        ..smallest()
    };
    let many_messages = ServiceConfig {
        max_subscribers: 4,
        subscriber_max_buffer_size: 8,
        subscriber_max_borrowed_samples: 4,
        history_size: 3,
        ..settings()
    };
    assert_slots_are_needed(&rt, rt.alloc(), &two_subscribers, 8);
    assert_slots_are_needed(&rt, rt.alloc(), &many_messages, 52);
    assert_slots_are_needed(&rt, rt.alloc(), &nothing_borrowed, 3);
    assert_slots_are_needed(&rt, rt.alloc(), &smallest(), 3);
}

// One subscriber with a buffer of one, which may borrow one message; a history of one.
fn smallest_with_history() -> ServiceConfig {
    ServiceConfig {
        history_size: 1,
        ..smallest()
    }
}

const NO_SLOT: Reply<u64, u8> = Reply::LoanRefused(LoanError::OutOfMemory);

// What it replies to its list. One message is borrowed, one waits, one is in the history, and the
// last loan takes the fourth slot.
fn replies_with_four_slots() -> [Reply<u64, u8>; 14] {
    [
        Reply::PublisherMade(UniquePublisherId::new(1)),
        Reply::SubscriberMade(UniqueSubscriberId::new(2)),
        Reply::Done,
        Reply::Loaned,
        Reply::Done,
        Reply::Delivered(1),
        Reply::Sample(UniquePublisherId::new(1)),
        Reply::Loaned,
        Reply::Done,
        Reply::Delivered(1),
        Reply::Loaned,
        Reply::Done,
        Reply::Delivered(0),
        Reply::Loaned,
    ]
}

// The second loan and each later one is refused, and what was to be done with it is skipped.
#[test]
fn an_override_of_zero_gives_a_list_one_slot(rt: HostRuntime) {
    let config = smallest_with_history();
    let replies = replies_to_list(rt.alloc(), &config, 1, Some(0)).expect(&rt, "replies");
    let mut expected = replies_with_four_slots();
    expected[7] = NO_SLOT;
    expected[8] = Reply::Skipped;
    expected[9] = Reply::Skipped;
    expected[10] = NO_SLOT;
    expected[11] = Reply::Skipped;
    expected[12] = Reply::Skipped;
    expected[13] = NO_SLOT;
    assert!(rt; replies.as_slice() == expected.as_slice());
}
