//! Two runs in which a publisher is refused whose memory would grow. None that was made has memory
//! that grows, so the second subscriber sees the same in both.
use crate::tests::comparisons::{
    Commands, SUBSCRIBER, compared_on, if_kept, publisher, two_subscribers,
};
use iox2_machine::{
    AllocationStrategy, BackpressureStrategy, PublisherCreateError, ServiceConfig,
    UniquePublisherId, UniqueSubscriberId,
};
use iox2_runs::{Command, NewPublisher, Reply};
use std::alloc::{AllocError, Global};

// The command that makes a publisher whose memory grows.
fn growing_publisher(allocation: AllocationStrategy) -> Command<u64, u8> {
    Command::CreatePublisher(NewPublisher {
        allocation,
        ..NewPublisher::new(1, BackpressureStrategy::DiscardData)
    })
}

// A message is sent to two subscribers, of which the first receives it, or doesn't. Before that a
// growing publisher is asked for.
fn one_message(
    alloc: Global,
    allocation: AllocationStrategy,
    receives: bool,
) -> Result<Commands, AllocError> {
    let commands = [
        SUBSCRIBER,
        SUBSCRIBER,
        publisher(),
        growing_publisher(allocation),
        Command::SendCopy { of: 2, value: 1 },
        if_kept(receives, Command::Receive { of: 0 }),
        Command::Receive { of: 1 },
        Command::Read { of: 6, at: 0 },
    ];
    Ok(Vec::from_array(alloc, commands)?)
}

// What is answered where the first subscriber receives.
fn answers() -> [Reply<u64, u8>; 8] {
    [
        Reply::SubscriberMade(UniqueSubscriberId::new(1)),
        Reply::SubscriberMade(UniqueSubscriberId::new(2)),
        Reply::PublisherMade(UniquePublisherId::new(3)),
        Reply::PublisherRefused(PublisherCreateError::ExceedsMaxSupportedPublishers),
        Reply::Delivered(2),
        Reply::Sample(UniquePublisherId::new(3)),
        Reply::Sample(UniquePublisherId::new(3)),
        Reply::Cell(Some(1)),
    ]
}

#[test]
fn a_subscriber_sees_the_same_where_a_growing_publisher_is_refused(rt: HostRuntime) {
    for allocation in [AllocationStrategy::BestFit, AllocationStrategy::PowerOfTwo] {
        let commands = one_message(rt.alloc(), allocation, true).expect(&rt, "commands");
        let reduced = one_message(rt.alloc(), allocation, false).expect(&rt, "fewer commands");
        let config: ServiceConfig = two_subscribers();
        let (replies, others) = compared_on(&rt, rt.alloc(), &config, commands, reduced);
        let mut expected = answers();
        assert!(rt; replies.as_slice() == expected.as_slice());
        expected[5] = Reply::Done;
        assert!(rt; others.as_slice() == expected.as_slice());
    }
}
