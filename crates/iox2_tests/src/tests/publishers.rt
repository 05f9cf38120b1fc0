use crate::tests::fixtures::{domain, publisher_of, subscriber_of};
use iox2_fixtures::{Weather, factory_for, settings};
use iox2_machine::{Key, PublisherCreateError, ServiceConfig};
use iox2_pubsub::Domain;
use std::alloc::Global;
use std::process::Abort;

#[test]
fn a_publisher_is_made_and_a_second_is_refused(rt: HostRuntime) {
    let mut domain = domain(&rt, rt.alloc());
    let factory = factory_for(&domain).max_loaned_samples(3);
    let publisher = factory.create(&mut domain).expect(&rt, "a publisher");
    let id = publisher.id().value();
    let key = publisher.key();
    publisher.disown();
    let second = factory_for(&domain).create(&mut domain);
    let refusal = second.map(|made| made.disown()).err();
    let is_live = domain.holds_publisher(key);
    drop(domain);
    let expected = Key {
        service_id: 7,
        port: 1,
        message: 0,
    };
    assert!(rt; id == 1);
    assert!(rt; key == expected);
    assert!(rt; is_live);
    assert!(rt; refusal == Some(PublisherCreateError::ExceedsMaxSupportedPublishers));
}

// A domain of the same service with two publishers.
fn domain_of_two(rt: &impl Abort, alloc: Global) -> Weather {
    let config = ServiceConfig {
        max_publishers: 2,
        ..settings()
    };
    Domain::new(alloc, config).expect(rt, "a domain")
}

#[test]
fn a_publisher_is_in_the_domain_where_it_stands(rt: HostRuntime) {
    let mut domain = domain_of_two(&rt, rt.alloc());
    let first = publisher_of(&rt, &mut domain);
    let second = publisher_of(&rt, &mut domain);
    let mut twin = domain_of_two(&rt, rt.alloc());
    subscriber_of(&rt, &mut twin).disown();
    // It has the id of `second`, and the place of `first`.
    let alike = publisher_of(&rt, &mut twin);
    let at_home = [
        first.is_in(&domain),
        second.is_in(&domain),
        alike.is_in(&twin),
    ];
    let away = [first.is_in(&twin), second.is_in(&twin)];
    let has_its_id = twin.holds_publisher(second.key());
    first.disown();
    second.disown();
    alike.disown();
    drop(twin);
    drop(domain);
    assert!(rt; at_home == [true, true, true]);
    assert!(rt; away == [false, false]);
    assert!(rt; has_its_id);
}
