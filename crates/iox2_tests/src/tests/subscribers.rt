use crate::tests::fixtures::{domain, publisher_of, subscriber_of};
use iox2_fixtures::elsewhere;
use iox2_machine::Key;

const FIRST: Key = Key {
    service_id: 7,
    port: 1,
    message: 0,
};

// Ports of both sides share their ids.
#[test]
fn a_domain_holds_its_ports_alone(rt: HostRuntime) {
    let mut domain = domain(&rt, rt.alloc());
    let before = domain.holds_subscriber(FIRST);
    let subscriber = subscriber_of(&rt, &mut domain);
    let key = subscriber.key();
    let numbers = (subscriber.id().value(), subscriber.buffer_size());
    let is_in = subscriber.is_in(&domain);
    subscriber.disown();
    let publisher = publisher_of(&rt, &mut domain);
    let published = publisher.key();
    publisher.disown();
    let message = Key {
        message: 1,
        ..FIRST
    };
    let subscribers = [
        domain.holds_subscriber(FIRST),
        domain.holds_subscriber(elsewhere(FIRST)),
        domain.holds_subscriber(published),
        domain.holds_subscriber(message),
    ];
    let publishers = [
        domain.holds_publisher(published),
        domain.holds_publisher(FIRST),
    ];
    drop(domain);
    assert!(rt; !before && is_in);
    assert!(rt; key == FIRST && published == Key { port: 2, ..FIRST });
    assert!(rt; numbers == (1, 2));
    assert!(rt; subscribers == [true, false, false, false]);
    assert!(rt; publishers == [true, false]);
}

// The factory's copy has the buffer that was set.
#[test]
fn a_buffer_of_none_is_one_of_one(rt: HostRuntime) {
    let mut domain = domain(&rt, rt.alloc());
    let factory = domain.subscriber_builder().buffer_size(0);
    let copied = factory.internal_partial_clone();
    let subscriber = copied.create(&mut domain).expect(&rt, "a subscriber");
    let buffer_size = subscriber.buffer_size();
    subscriber.disown();
    drop(domain);
    assert!(rt; buffer_size == 1);
}
