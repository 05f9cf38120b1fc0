//! The numbers that name nodes and ports. Contracts see each id as its number.
ghost use Rattle.std.specs.Prelude.{◌≡◌, ℕ};

use std::marker::Model;

/// Names the node that a message comes from: any number, which the domain's settings give
/// (`ServiceConfig::node_id`).
///
/// Example (`crates/iox2_machine_tests/src/tests/plain_types.rt`): whether a message comes from
/// this node.
///
/// ```rust
/// header.node_id() == UniqueNodeId::new(node)
/// ```
///
/// iceoryx2's `identifiers::UniqueNodeId`, which is made there of a process, a time and a counter.
#[derive(Debug, Clone, Copy, PartialEq, Eq)]
pub struct UniqueNodeId {
    node: u128,
}

impl Model for UniqueNodeId {
    ghost Value = { ℕ };

    ghost view = { λ id. id.node };

    ghost inverse = { λ n. record { node = n } };
}

impl UniqueNodeId {
    /// The id with this number. This library's own.
    pub fn new(value: u128) -> Self
        ensures { result ≡ value }
    {
        UniqueNodeId { node: value }
    }

    /// The id's number.
    pub fn value(&self) -> u128
        ensures { result ≡ self.now }
    {
        self.node
    }
}

/// Names a publisher: 1 or more, from a counter that a domain keeps for all of its ports. No two
/// ports of a domain ever have the same number, even if one was closed before the other came.
///
/// Example (`crates/iox2_tests/src/tests/samples.rt`): from which publisher a message comes.
///
/// ```rust
/// let (celsius, header, station) = parts_of(&rt, &domain, &sample);
/// let origins = [sample.origin().value(), header.publisher_id.value()];
/// assert!(rt; origins == [2, 2]);
/// ```
///
/// iceoryx2's `identifiers::UniquePublisherId`, which is made there of a process, a time and a
/// counter.
#[derive(Debug, Clone, Copy, PartialEq, Eq)]
pub struct UniquePublisherId {
    publisher: u128,
}

impl Model for UniquePublisherId {
    ghost Value = { ℕ };

    ghost view = { λ id. id.publisher };

    ghost inverse = { λ n. record { publisher = n } };
}

impl UniquePublisherId {
    /// The id with this number. This library's own.
    pub fn new(value: u128) -> Self
        ensures { result ≡ value }
    {
        UniquePublisherId { publisher: value }
    }

    /// The id's number.
    pub fn value(&self) -> u128
        ensures { result ≡ self.now }
    {
        self.publisher
    }
}

/// Names a subscriber: 1 or more, from the same counter as the publishers' ids.
///
/// Example (`crates/iox2_slice_tests/src/tests/channels.rt`): the connection of a publisher to the
/// second subscriber.
///
/// ```rust
/// let second = slice_subscriber(&rt, &mut domain);
/// let publisher = slice_publisher(&rt, &mut domain, 1);
/// let place = publisher.get_connection_id_of(&domain, second.id().value());
/// ```
///
/// iceoryx2's `identifiers::UniqueSubscriberId`, which is made there of a process, a time and a
/// counter.
#[derive(Debug, Clone, Copy, PartialEq, Eq)]
pub struct UniqueSubscriberId {
    subscriber: u128,
}

impl Model for UniqueSubscriberId {
    ghost Value = { ℕ };

    ghost view = { λ id. id.subscriber };

    ghost inverse = { λ n. record { subscriber = n } };
}

impl UniqueSubscriberId {
    /// The id with this number. This library's own.
    pub fn new(value: u128) -> Self
        ensures { result ≡ value }
    {
        UniqueSubscriberId { subscriber: value }
    }

    /// The id's number.
    pub fn value(&self) -> u128
        ensures { result ≡ self.now }
    {
        self.subscriber
    }
}
