//! Runs in which publishers depart, and what is kept of them.
use crate::tests::runs::{CREATE_SUBSCRIBER, create_publisher};
use crate::tests::steps::{check, publisher_made, sample_of, subscriber_made};
use iox2_fixtures::settings;
use iox2_machine::ServiceConfig;
use iox2_runs::{Command, Reply};

// A service whose subscriber keeps one departed publisher.
fn service(max_publishers: usize, buffer: usize) -> ServiceConfig {
    ServiceConfig {
        max_publishers,
        subscriber_max_buffer_size: buffer,
        subscriber_max_borrowed_samples: 1,
        history_size: 0,
        subscriber_expired_connection_buffer: 1,
        ..settings()
    }
}

// It keeps none that it has borrowed nothing from, whatever waited: the connection and the book that
// are left are the other publisher's, and no warning tells of the message.
#[test]
fn a_closed_subscriber_forgets_departed_publishers(rt: HostRuntime) {
    let steps = [
        (CREATE_SUBSCRIBER, subscriber_made(1)),
        (create_publisher(1), publisher_made(2)),
        (create_publisher(1), publisher_made(3)),
        (Command::SendCopy { of: 2, value: 2 }, Reply::Delivered(1)),
        (Command::Receive { of: 0 }, sample_of(3)),
        (Command::SendCopy { of: 1, value: 1 }, Reply::Delivered(1)),
        (Command::Close { of: 1 }, Reply::Done),
        (Command::Update { of: 0 }, Reply::Done),
        (Command::Close { of: 0 }, Reply::Done),
    ];
    let told = check(&rt, rt.alloc(), service(2, 1), &steps);
    assert!(rt; told.warnings.as_slice().is_empty());
    assert_eq!(rt; told.kept, [1, 1]);
}

// When a publisher closes that a closed subscriber has borrowed nothing from, it leaves no connection
// behind.
#[test]
fn a_closed_subscriber_loses_empty_connections(rt: HostRuntime) {
    let steps = [
        (create_publisher(1), publisher_made(1)),
        (create_publisher(1), publisher_made(2)),
        (CREATE_SUBSCRIBER, subscriber_made(3)),
        (Command::SendCopy { of: 0, value: 1 }, Reply::Delivered(1)),
        (Command::Receive { of: 2 }, sample_of(1)),
        (Command::Close { of: 2 }, Reply::Done),
        (Command::Close { of: 1 }, Reply::Done),
    ];
    let told = check(&rt, rt.alloc(), service(2, 1), &steps);
    assert!(rt; told.warnings.as_slice().is_empty());
    assert_eq!(rt; told.kept, [1, 1]);
}
