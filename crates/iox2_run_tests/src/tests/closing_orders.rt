//! Two ports, a sample and a loan end in every order, and nothing is left of them.
use crate::tests::runs::{CREATE_SUBSCRIBER, create_publisher, replies_to_numbers};
use iox2_fixtures::smallest;
use iox2_machine::{ServiceConfig, UniquePublisherId, UniqueSubscriberId};
use iox2_pubsub::Domain;
use iox2_runs::{Command, Reply};
use std::alloc::{AllocError, Global};
use std::process::Abort;

/// The subscriber and the publisher are closed, the sample is released, and the loan discarded.
const ENDINGS: usize = 4;

/// Which of these comes first, second, third and last.
type Order = [usize; ENDINGS];

const ORDERS: [Order; 24] = [
    [0, 1, 2, 3],
    [0, 1, 3, 2],
    [0, 2, 1, 3],
    [0, 2, 3, 1],
    [0, 3, 1, 2],
    [0, 3, 2, 1],
    [1, 0, 2, 3],
    [1, 0, 3, 2],
    [1, 2, 0, 3],
    [1, 2, 3, 0],
    [1, 3, 0, 2],
    [1, 3, 2, 0],
    [2, 0, 1, 3],
    [2, 0, 3, 1],
    [2, 1, 0, 3],
    [2, 1, 3, 0],
    [2, 3, 0, 1],
    [2, 3, 1, 0],
    [3, 0, 1, 2],
    [3, 0, 2, 1],
    [3, 1, 0, 2],
    [3, 1, 2, 0],
    [3, 2, 0, 1],
    [3, 2, 1, 0],
];

const RELEASE: usize = 2;

/// None of the four ends.
const NO_ORDER: Order = [ENDINGS; ENDINGS];

fn ending(index: usize) -> Command<u64, u8> {
    match index {
        0 => Command::Close { of: 0 },
        1 => Command::Close { of: 1 },
        RELEASE => Command::Release { of: 3 },
        3 => Command::Discard { of: 4 },
        _ => Command::Nothing,
    }
}

const READ: Command<u64, u8> = Command::Read { of: 3, at: 0 };

/// A message is received and a loan is out. Then the four end, and the message is read before each.
fn commands_in_order(alloc: Global, order: Order) -> Result<Vec<Command<u64, u8>>, AllocError> {
    let commands = [
        CREATE_SUBSCRIBER,
        create_publisher(2),
        Command::SendCopy { of: 1, value: 5 },
        Command::Receive { of: 0 },
        Command::LoanUninit { of: 1 },
        READ,
        ending(order[0]),
        READ,
        ending(order[1]),
        READ,
        ending(order[2]),
        READ,
        ending(order[3]),
    ];
    Ok(Vec::from_array(alloc, commands)?)
}

/// The next two ports carry a message.
fn next_commands(alloc: Global) -> Result<Vec<Command<u64, u8>>, AllocError> {
    let commands = [
        create_publisher(2),
        CREATE_SUBSCRIBER,
        Command::SendCopy { of: 0, value: 6 },
        Command::Receive { of: 1 },
        Command::Read { of: 3, at: 0 },
    ];
    Ok(Vec::from_array(alloc, commands)?)
}

/// What is read once these have ended.
fn read_after(ended: &[usize]) -> Reply<u64, u8> {
    if ended.contains(&RELEASE) {
        Reply::Skipped
    } else {
        Reply::Cell(Some(5))
    }
}

fn replies_in_order(order: Order) -> [Reply<u64, u8>; 13] {
    [
        Reply::SubscriberMade(UniqueSubscriberId::new(1)),
        Reply::PublisherMade(UniquePublisherId::new(2)),
        Reply::Delivered(1),
        Reply::Sample(UniquePublisherId::new(2)),
        Reply::Loaned,
        read_after(&order[..0]),
        Reply::Done,
        read_after(&order[..1]),
        Reply::Done,
        read_after(&order[..2]),
        Reply::Done,
        read_after(&order[..3]),
        Reply::Done,
    ]
}

fn next_replies() -> [Reply<u64, u8>; 5] {
    [
        Reply::PublisherMade(UniquePublisherId::new(3)),
        Reply::SubscriberMade(UniqueSubscriberId::new(4)),
        Reply::Delivered(1),
        Reply::Sample(UniquePublisherId::new(3)),
        Reply::Cell(Some(6)),
    ]
}

/// A domain of these settings, its replies to the commands in this order, and how many connections
/// and books it keeps then.
#[derive(Drop)]
struct Ended {
    domain: Domain<u64, u8>,
    replies: Vec<Reply<u64, u8>>,
    kept: [usize; 2],
}

fn end_in(rt: &impl Abort, alloc: Global, order: Order) -> Ended {
    let config = ServiceConfig {
        history_size: 1,
        ..smallest()
    };
    let mut domain: Domain<u64, u8> = Domain::new(alloc, config).expect(rt, "a domain");
    let commands = commands_in_order(alloc, order).expect(rt, "commands");
    let outcome = replies_to_numbers(alloc, &mut domain, commands);
    let replies = outcome.ok().expect(rt, "replies");
    let kept = [domain.connection_count(), domain.book_count()];
    Ended {
        domain,
        replies,
        kept,
    }
}

#[test]
fn a_connection_and_a_book_are_kept_while_ports_stand(rt: HostRuntime) {
    let ended = end_in(&rt, rt.alloc(), NO_ORDER);
    assert_eq!(rt; ended.kept, [1, 1]);
    assert_eq!(rt;
        ended.replies.as_slice(),
        replies_in_order(NO_ORDER).as_slice()
    );
}

#[test]
fn nothing_is_left_in_whatever_order_all_ends(rt: HostRuntime) {
    for order in ORDERS {
        let ended = end_in(&rt, rt.alloc(), order);
        let Ended {
            mut domain,
            replies,
            kept,
        } = ended;
        let commands = next_commands(rt.alloc()).expect(&rt, "commands");
        let outcome = replies_to_numbers(rt.alloc(), &mut domain, commands);
        drop(domain);
        let later = outcome.ok().expect(&rt, "replies");
        let expected = replies_in_order(order);
        assert_eq!(rt; kept, [0, 0], "in the order {order:?}");
        assert_eq!(rt;
            replies.as_slice(),
            expected.as_slice(),
            "in the order {order:?}"
        );
        assert!(rt;
            later.as_slice() == next_replies().as_slice(),
            "in the order {order:?}"
        );
    }
}
