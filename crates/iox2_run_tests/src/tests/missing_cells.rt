//! Runs on domains that hand out no cells of unwritten slices.
use crate::tests::comparisons::{SUBSCRIBER, compared_on, publisher};
use crate::tests::runs::{CREATE_SUBSCRIBER, create_publisher, replies_to_numbers};
use crate::tests::steps::{check, publisher_made, sample_of, subscriber_made};
use iox2_fixtures::settings;
use iox2_machine::{ServiceConfig, TypeVariant};
use iox2_pubsub::Domain;
use iox2_runs::{Command, Reply, compare_runs, lacks_cells};
use std::alloc::Global;
use std::process::Abort;

type Replies = Vec<Reply<u64, u8>>;

type End = (Domain<u64, u8>, Replies);

// Messages of this kind, whose elements have so many units.
fn without_cells(variant: TypeVariant, units_per_element: usize) -> ServiceConfig {
    ServiceConfig {
        variant,
        units_per_element,
        number_of_channels: 5,
        lists_cells: false,
        ..settings()
    }
}

// A single value has its cell in its slot.
#[test]
fn a_cell_of_a_single_value_is_always_there(rt: HostRuntime) {
    let config = without_cells(TypeVariant::FixedSize, 1);
    assert!(rt; !lacks_cells(&config));
    let steps = [
        (CREATE_SUBSCRIBER, subscriber_made(1)),
        (create_publisher(1), publisher_made(2)),
        (Command::LoanUninit { of: 1 }, Reply::Loaned),
        (Command::Read { of: 2, at: 0 }, Reply::Cell(None)),
        (Command::AssumeInit { of: 2 }, Reply::Unwritten),
        (
            Command::WriteCell {
                of: 2,
                at: 1,
                value: 8,
            },
            Reply::Skipped,
        ),
        (
            Command::WriteCell {
                of: 2,
                at: 0,
                value: 9,
            },
            Reply::Done,
        ),
        (Command::Read { of: 2, at: 0 }, Reply::Cell(Some(9))),
        (Command::AssumeInit { of: 2 }, Reply::Done),
        (Command::Send { of: 2 }, Reply::Delivered(1)),
        (Command::Receive { of: 0 }, sample_of(2)),
        (Command::Read { of: 10, at: 0 }, Reply::Cell(Some(9))),
    ];
    check(&rt, rt.alloc(), config, &steps);
}

// Nothing is lent there, so there is no cell to be on.
#[test]
fn no_cell_is_missed_where_an_element_has_many_units(rt: HostRuntime) {
    for (variant, units_per_element) in [
        (TypeVariant::FixedSize, 2),
        (TypeVariant::FixedSize, 3),
        (TypeVariant::Dynamic, 2),
        (TypeVariant::Dynamic, 3),
    ] {
        let config = without_cells(variant, units_per_element);
        assert!(rt; !lacks_cells(&config));
        let steps = [
            (create_publisher(1), publisher_made(1)),
            (Command::LoanUninit { of: 0 }, Reply::Skipped),
            (
                Command::WriteCell {
                    of: 1,
                    at: 0,
                    value: 9,
                },
                Reply::Skipped,
            ),
            (Command::Read { of: 1, at: 0 }, Reply::Skipped),
        ];
        check(&rt, rt.alloc(), config, &steps);
    }
}

// How many commands a run on a new domain hands back.
fn handed_back(
    rt: &impl Abort,
    alloc: Global,
    config: ServiceConfig,
    commands: Vec<Command<u64, u8>>,
) -> Option<usize> {
    let mut domain: Domain<u64, u8> = Domain::new(alloc, config).expect(rt, "a domain");
    let outcome = replies_to_numbers(alloc, &mut domain, commands);
    drop(domain);
    outcome.err().map(|commands| commands.len())
}

#[test]
fn a_list_is_handed_back_where_cells_of_slices_are_missing(rt: HostRuntime) {
    let config = without_cells(TypeVariant::Dynamic, 1);
    assert!(rt; lacks_cells(&config));
    let none = Vec::new(rt.alloc());
    assert_eq!(rt; handed_back(&rt, rt.alloc(), config, none), Some(0));
    let commands = [CREATE_SUBSCRIBER, create_publisher(1)];
    let commands = Vec::from_array(rt.alloc(), commands).expect(&rt, "commands");
    assert_eq!(rt; handed_back(&rt, rt.alloc(), config, commands), Some(2));
}

#[test]
fn runs_are_compared_unless_cells_of_slices_are_missing(rt: HostRuntime) {
    let none = Vec::new(rt.alloc());
    let commands = Vec::from_array(rt.alloc(), [SUBSCRIBER, publisher()]).expect(&rt, "commands");
    let config = without_cells(TypeVariant::FixedSize, 1);
    let (replies, others) = compared_on(&rt, rt.alloc(), &config, commands, none);
    let expected = [subscriber_made(1), publisher_made(2)];
    assert!(rt; replies.as_slice() == expected.as_slice());
    assert!(rt; others.is_empty());
    let none = Vec::new(rt.alloc());
    let nothing = Vec::new(rt.alloc());
    let config = without_cells(TypeVariant::Dynamic, 1);
    let ends: Option<(End, End)> = compare_runs(rt.alloc(), &config, nothing, none);
    assert!(rt; ends.is_none());
}
