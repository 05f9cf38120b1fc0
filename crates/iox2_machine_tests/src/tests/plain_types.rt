ghost use Rattle.std.specs.Prelude.{◌≡◌, ◌↔◌, IsTrue};

use iox2_machine::{
    AllocationStrategy, BackpressureInfo, DataSegmentType, DegradationCause, DegradationInfo,
    Header, Key, UniqueNodeId, UniquePublisherId, UniqueSubscriberId, Warning,
};
use std::time::Duration;

#[test]
fn ids_keep_their_numbers(rt: HostRuntime) {
    for number in [0, 1, u128::MAX] {
        let numbers = [
            UniqueNodeId::new(number).value(),
            UniquePublisherId::new(number).value(),
            UniqueSubscriberId::new(number).value(),
        ];
        assert!(rt; numbers == [number; 3]);
    }
}

#[test]
fn a_header_answers_its_fields(rt: HostRuntime) {
    let header = Header {
        node_id: UniqueNodeId::new(9),
        publisher_id: UniquePublisherId::new(2),
        number_of_elements: 3,
    };
    let longer = Header {
        number_of_elements: 4,
        ..header
    };
    let ids = [header.node_id().value(), header.publisher_id().value()];
    let is_alike = longer == header;
    assert!(rt; ids == [9, 2] && header.number_of_elements() == 3 && !is_alike);
}

// Whether a message with this header comes from the node with this number.
fn is_from_node(header: &Header, node: u128) -> bool
    ensures { IsTrue result ↔ (header.now.node_id ≡ node) }
{
    header.node_id() == UniqueNodeId::new(node)
}

#[test]
fn a_header_names_the_node(rt: HostRuntime) {
    let header = Header {
        node_id: UniqueNodeId::new(1 << 64),
        publisher_id: UniquePublisherId::new(2),
        number_of_elements: 1,
    };
    assert!(rt; is_from_node(&header, 1 << 64));
    assert!(rt; !is_from_node(&header, 1));
}

#[test]
fn ids_keys_and_warnings_compare_by_their_fields(rt: HostRuntime) {
    let sender = UniquePublisherId::new(1);
    let receiver = UniqueSubscriberId::new(1);
    let warning = Warning::ConnectionNotMade { sender, receiver };
    let key = Key {
        service_id: 1,
        port: 2,
        message: 0,
    };
    let copy = key;
    let alike = [
        UniqueNodeId::new(9) == UniqueNodeId::new(9),
        copy == key,
        warning == Warning::ConnectionNotMade { sender, receiver },
    ];
    let other = Warning::ConnectionNotMade {
        sender,
        receiver: UniqueSubscriberId::new(3),
    };
    let different = [
        UniqueNodeId::new(9) == UniqueNodeId::new(8),
        sender == UniquePublisherId::new(1 << 64),
        receiver == UniqueSubscriberId::new(2),
        Key { message: 1, ..key } == key,
        warning == Warning::ExpiredDataDiscarded { sender, receiver },
        warning == other,
    ];
    assert!(rt; alike == [true; 3] && different == [false; 6]);
}

#[test]
fn what_a_handler_is_told_may_be_let_go(rt: HostRuntime) {
    let waits = BackpressureInfo {
        service_id: 1,
        sender_port_id: 2,
        receiver_port_id: 3,
        retries: 4,
        elapsed_time: Duration::from_millis(5),
    };
    let fails = DegradationInfo {
        service_id: 1,
        sender_port_id: 2,
        receiver_port_id: 3,
    };
    let cause = DegradationCause::FailedToEstablishConnection;
    let is_other = !matches!(cause, DegradationCause::ConnectionCorrupted);
    assert!(rt; waits.elapsed_time == Duration::from_micros(5000));
    assert!(rt; fails.receiver_port_id == 3 && is_other);
}

// What kind of memory a publisher with this strategy has.
fn segment_type(strategy: AllocationStrategy) -> DataSegmentType
    ensures { (result ≡ DataSegmentType.Static) ↔ (strategy ≡ AllocationStrategy.Static) }
{
    match strategy {
        AllocationStrategy::Static => DataSegmentType::Static,
        AllocationStrategy::BestFit | AllocationStrategy::PowerOfTwo => DataSegmentType::Dynamic,
    }
}

#[test]
fn a_strategy_says_whether_memory_grows(rt: HostRuntime) {
    let types = [
        AllocationStrategy::Static,
        AllocationStrategy::BestFit,
        AllocationStrategy::PowerOfTwo,
    ]
    .map(segment_type);
    let expected = [
        DataSegmentType::Static,
        DataSegmentType::Dynamic,
        DataSegmentType::Dynamic,
    ];
    assert!(rt; types == expected);
}
