//! Runs in which sends wait for a full subscriber.

use crate::tests::runs::{CREATE_SUBSCRIBER, replies_to_numbers};
use iox2_fixtures::settings;
use iox2_machine::{BackpressureStrategy, ServiceConfig, UniquePublisherId};
use iox2_pubsub::Domain;
use iox2_runs::{Command, NewPublisher, Reply};
use std::time::Duration;

// The command that makes a publisher that waits, with one loan.
fn waiting_publisher() -> Command<u64, u8> {
    Command::CreatePublisher(NewPublisher::new(1, BackpressureStrategy::RetryUntilDelivered))
}

// A send that the first run leaves blocked stays so, and hinders no other publisher.
#[test]
fn a_send_may_be_left_blocked(rt: HostRuntime) {
    let config = ServiceConfig {
        max_publishers: 2,
        ..settings()
    };
    let mut domain: Domain<u64, u8> = Domain::new(rt.alloc(), config).expect(&rt, "a domain");
    let commands = [
        CREATE_SUBSCRIBER,
        waiting_publisher(),
        Command::SendCopy { of: 1, value: 1 },
        Command::SendCopy { of: 1, value: 2 },
    ];
    let commands = Vec::from_array(rt.alloc(), commands).expect(&rt, "commands");
    let first = replies_to_numbers(rt.alloc(), &mut domain, commands);
    let commands = [
        waiting_publisher(),
        Command::Nothing,
        Command::SendCopy { of: 0, value: 3 },
        Command::Retry {
            of: 3,
            elapsed: Duration::ZERO,
        },
    ];
    let commands = Vec::from_array(rt.alloc(), commands).expect(&rt, "commands");
    let second = replies_to_numbers(rt.alloc(), &mut domain, commands);
    drop(domain);
    let first = first.ok().expect(&rt, "replies");
    assert!(rt; first.as_slice().last() == Some(&Reply::Blocked));
    let second = second.ok().expect(&rt, "replies");
    let expected = [
        Reply::PublisherMade(UniquePublisherId::new(3)),
        Reply::Done,
        Reply::Delivered(1),
        Reply::Skipped,
    ];
    assert!(rt; second.as_slice() == expected.as_slice());
}
