//! Sends that find a full receiver. All runs but the last get the same replies from `run`, in the tests
//! of `pubsub_script` (`blocked_sends.rt`) and of `iox2_run_tests` (`handlers.rt`).
use iox2_commands::{Command, NewPublisher, Reply};
use iox2_machine::{
    BackpressureAction, BackpressureStrategy, DegradationAction, ReceiveError, SendError,
    ServiceConfig, UniquePublisherId, UniqueSubscriberId,
};
use iox2_model::{Memory, Model};
use std::alloc::Global;
use std::process::Abort;
use std::time::Duration;

// A service without overflow, whose buffers hold one message.
fn service(max_subscribers: usize, history_size: usize) -> ServiceConfig {
    ServiceConfig {
        max_publishers: 1,
        max_subscribers,
        subscriber_max_buffer_size: 1,
        subscriber_max_borrowed_samples: 1,
        history_size,
        enable_safe_overflow: false,
        subscriber_expired_connection_buffer: 0,
        ..ServiceConfig::new(1)
    }
}

const SUBSCRIBER: Command<u64, u64> = Command::CreateSubscriber {
    buffer: Some(1),
    degradation: DegradationAction::Warn,
};

// A publisher with that many loans.
fn publisher(
    loans: usize,
    strategy: BackpressureStrategy,
    backpressure: Option<BackpressureAction>,
) -> Command<u64, u64> {
    Command::CreatePublisher(NewPublisher {
        backpressure,
        ..NewPublisher::new(loans, strategy)
    })
}

// A publisher with one loan that retries until its message is delivered.
fn retrying() -> Command<u64, u64> {
    publisher(1, BackpressureStrategy::RetryUntilDelivered, None)
}

fn copy(of: usize, value: u64) -> Command<u64, u64> {
    Command::SendCopy { of, value }
}

fn retry(of: usize) -> Command<u64, u64> {
    Command::Retry {
        of,
        elapsed: Duration::ZERO,
    }
}

fn read(of: usize) -> Command<u64, u64> {
    Command::Read { of, at: 0 }
}

fn publisher_made(id: u128) -> Reply<u64, u64> {
    Reply::PublisherMade(UniquePublisherId::new(id))
}

fn subscriber_made(id: u128) -> Reply<u64, u64> {
    Reply::SubscriberMade(UniqueSubscriberId::new(id))
}

fn sample(id: u128) -> Reply<u64, u64> {
    Reply::Sample(UniquePublisherId::new(id))
}

// Each command gets the reply beside it.
fn check(
    rt: &impl Abort,
    alloc: Global,
    config: ServiceConfig,
    run: &[(Command<u64, u64>, Reply<u64, u64>)],
) {
    let model = Model::new(alloc, config, Memory::ample());
    let mut model = model.expect(rt, "a model");
    for position in 0..run.len() {
        if let Some((command, expected)) = run.get(position) {
            let reply = model.carry_out(*command, None).expect(rt, "a reply");
            assert!(rt; reply == *expected, "at {position}: {reply:?}");
        }
    }
}

#[test]
fn a_blocked_send_is_tried_again(rt: HostRuntime) {
    let run = [
        (SUBSCRIBER, subscriber_made(1)),
        (retrying(), publisher_made(2)),
        (copy(1, 1), Reply::Delivered(1)),
        (copy(1, 2), Reply::Blocked),
        (copy(1, 9), Reply::Skipped),
        (Command::Receive { of: 0 }, sample(2)),
        (read(5), Reply::Cell(Some(1))),
        (Command::Release { of: 5 }, Reply::Done),
        (retry(3), Reply::Delivered(1)),
        (Command::Receive { of: 0 }, sample(2)),
        (read(9), Reply::Cell(Some(2))),
    ];
    check(&rt, rt.alloc(), service(1, 0), &run);
}

#[test]
fn a_send_waits_for_one_receiver_after_the_other(rt: HostRuntime) {
    let run = [
        (SUBSCRIBER, subscriber_made(1)),
        (SUBSCRIBER, subscriber_made(2)),
        (retrying(), publisher_made(3)),
        (copy(2, 1), Reply::Delivered(2)),
        (copy(2, 2), Reply::Blocked),
        (Command::Update { of: 2 }, Reply::Skipped),
        (Command::Receive { of: 0 }, sample(3)),
        (retry(4), Reply::Blocked),
        (Command::GiveUp { of: 4 }, Reply::Delivered(1)),
        (Command::GiveUp { of: 4 }, Reply::Skipped),
        (Command::Receive { of: 1 }, sample(3)),
        (read(10), Reply::Cell(Some(1))),
        (Command::Receive { of: 1 }, Reply::NoSample),
        (
            Command::Receive { of: 0 },
            Reply::ReceiveRefused(ReceiveError::ExceedsMaxBorrows),
        ),
        (Command::Release { of: 6 }, Reply::Done),
        (Command::Receive { of: 0 }, sample(3)),
        (read(15), Reply::Cell(Some(2))),
    ];
    check(&rt, rt.alloc(), service(2, 0), &run);
}

#[test]
fn a_failed_send_was_sent_all_the_same(rt: HostRuntime) {
    let failing = publisher(
        1,
        BackpressureStrategy::DiscardData,
        Some(BackpressureAction::DiscardDataAndFail),
    );
    let run = [
        (SUBSCRIBER, subscriber_made(1)),
        (SUBSCRIBER, subscriber_made(2)),
        (failing, publisher_made(3)),
        (copy(2, 1), Reply::Delivered(2)),
        (Command::Receive { of: 1 }, sample(3)),
        (read(4), Reply::Cell(Some(1))),
        (Command::Release { of: 4 }, Reply::Done),
        (copy(2, 2), Reply::SendRefused(SendError::UnableToDeliver)),
        (Command::Receive { of: 1 }, sample(3)),
        (read(8), Reply::Cell(Some(2))),
        (Command::Close { of: 0 }, Reply::Done),
        (SUBSCRIBER, subscriber_made(4)),
        (Command::Update { of: 2 }, Reply::Done),
        (Command::Receive { of: 11 }, sample(3)),
        (read(13), Reply::Cell(Some(2))),
    ];
    check(&rt, rt.alloc(), service(2, 1), &run);
}

#[test]
fn the_loan_of_a_blocked_send_comes_back(rt: HostRuntime) {
    let run = [
        (SUBSCRIBER, subscriber_made(1)),
        (retrying(), publisher_made(2)),
        (copy(1, 1), Reply::Delivered(1)),
        (Command::Receive { of: 0 }, sample(2)),
        (copy(1, 2), Reply::Delivered(1)),
        (copy(1, 3), Reply::Blocked),
        (Command::Release { of: 3 }, Reply::Done),
        (Command::Receive { of: 0 }, sample(2)),
        (Command::Release { of: 7 }, Reply::Done),
        (retry(5), Reply::Delivered(1)),
        (Command::Receive { of: 0 }, sample(2)),
        (read(10), Reply::Cell(Some(3))),
        (Command::Release { of: 10 }, Reply::Done),
        (copy(1, 4), Reply::Delivered(1)),
        (Command::Receive { of: 0 }, sample(2)),
        (read(14), Reply::Cell(Some(4))),
    ];
    check(&rt, rt.alloc(), service(1, 0), &run);
}

// A closed receiver blocks nothing, and the history has what was blocked.
#[test]
fn a_closed_receiver_is_skipped_by_a_retry(rt: HostRuntime) {
    let run = [
        (SUBSCRIBER, subscriber_made(1)),
        (retrying(), publisher_made(2)),
        (copy(1, 1), Reply::Delivered(1)),
        (copy(1, 2), Reply::Blocked),
        (Command::Close { of: 0 }, Reply::Done),
        (SUBSCRIBER, subscriber_made(3)),
        (Command::Receive { of: 5 }, Reply::NoSample),
        (retry(3), Reply::Delivered(0)),
        (retry(3), Reply::Skipped),
        (Command::Receive { of: 5 }, Reply::NoSample),
        (Command::Update { of: 1 }, Reply::Done),
        (Command::Receive { of: 5 }, sample(2)),
        (read(11), Reply::Cell(Some(2))),
    ];
    check(&rt, rt.alloc(), service(1, 1), &run);
}

// While its publisher waits, a loan may be written and given back, and nothing else of it goes on.
#[test]
fn a_blocked_publisher_does_nothing_else(rt: HostRuntime) {
    let waiting = publisher(
        3,
        BackpressureStrategy::DiscardData,
        Some(BackpressureAction::Retry),
    );
    let run = [
        (SUBSCRIBER, subscriber_made(1)),
        (waiting, publisher_made(2)),
        (Command::Loan { of: 1 }, Reply::Loaned),
        (Command::LoanUninit { of: 1 }, Reply::Loaned),
        (Command::Send { of: 2 }, Reply::Delivered(1)),
        (Command::Loan { of: 1 }, Reply::Loaned),
        (Command::Loan { of: 1 }, Reply::Loaned),
        (Command::Send { of: 5 }, Reply::Blocked),
        (Command::LoanUninit { of: 1 }, Reply::Skipped),
        (Command::Loan { of: 1 }, Reply::Skipped),
        (copy(1, 1), Reply::Skipped),
        (Command::Send { of: 6 }, Reply::Skipped),
        (Command::Update { of: 1 }, Reply::Skipped),
        (Command::Close { of: 1 }, Reply::Skipped),
        (retry(5), Reply::Skipped),
        (Command::WriteAll { of: 3, value: 7 }, Reply::Done),
        (Command::Discard { of: 6 }, Reply::Done),
        (Command::Update { of: 0 }, Reply::Done),
        (Command::HasSamples { of: 0 }, Reply::Has(true)),
        (retry(7), Reply::Blocked),
        (Command::GiveUp { of: 19 }, Reply::Skipped),
        (Command::GiveUp { of: 7 }, Reply::Delivered(0)),
        (Command::Send { of: 3 }, Reply::Blocked),
        (Command::GiveUp { of: 7 }, Reply::Skipped),
        (Command::Receive { of: 0 }, sample(2)),
        (retry(22), Reply::Delivered(1)),
        (Command::Close { of: 1 }, Reply::Done),
        (Command::Update { of: 1 }, Reply::Skipped),
    ];
    check(&rt, rt.alloc(), service(1, 0), &run);
}
