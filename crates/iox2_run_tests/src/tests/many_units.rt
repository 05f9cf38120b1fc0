//! Runs where an element has many units.
use crate::tests::runs::{CREATE_SUBSCRIBER, create_publisher};
use crate::tests::steps::{check, publisher_made, subscriber_made};
use iox2_fixtures::settings;
use iox2_machine::{ServiceConfig, TypeVariant};
use iox2_runs::{Command, Reply};

// Nothing is lent, sent at once or received there, of either kind of messages. Ports are made, updated
// and closed.
#[test]
fn nothing_is_lent_where_an_element_has_many_units(rt: HostRuntime) {
    for (variant, units_per_element, number_of_channels) in [
        (TypeVariant::FixedSize, 2, 1),
        (TypeVariant::FixedSize, 3, 5),
        (TypeVariant::Dynamic, 2, 5),
        (TypeVariant::Dynamic, 3, 1),
    ] {
        let config = ServiceConfig {
            variant,
            units_per_element,
            number_of_channels,
            ..settings()
        };
        let steps = [
            (CREATE_SUBSCRIBER, subscriber_made(1)),
            (create_publisher(1), publisher_made(2)),
            (Command::LoanUninit { of: 1 }, Reply::Skipped),
            (Command::Loan { of: 1 }, Reply::Skipped),
            (Command::LoanSlice { of: 1, len: 1 }, Reply::Skipped),
            (Command::SendCopy { of: 1, value: 4 }, Reply::Skipped),
            (Command::Receive { of: 0 }, Reply::Skipped),
            (Command::HasSamples { of: 0 }, Reply::Has(false)),
            (Command::Update { of: 1 }, Reply::Done),
            (Command::Close { of: 1 }, Reply::Done),
            (Command::Nothing, Reply::Done),
        ];
        check(&rt, rt.alloc(), config, &steps);
    }
}
