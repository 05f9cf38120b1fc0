use iox2_fixtures::{Weather, settings};
use iox2_machine::{ServiceConfig, UniqueSubscriberId};
use iox2_pubsub::{Domain, Warning};

// That more departed publishers are kept for this subscriber than the settings say.
fn raised(subscriber: u128) -> Option<Warning> {
    Some(Warning::ExpiredBufferRaised {
        subscriber: UniqueSubscriberId::new(subscriber),
    })
}

// Each subscriber comes with a warning. The first warning is forgotten.
#[test]
fn the_last_warnings_are_read_oldest_first(rt: HostRuntime) {
    let config = ServiceConfig {
        subscriber_max_borrowed_samples: 1,
        subscriber_expired_connection_buffer: 0,
        ..settings()
    };
    let made = Domain::new(rt.alloc(), config);
    let mut domain: Weather = made.expect(&rt, "a domain");
    let before = domain.warnings().len();
    for _ in 0..33 {
        let factory = domain.subscriber_builder();
        let subscriber = factory.create(&mut domain).expect(&rt, "a subscriber");
        subscriber.close(&mut domain);
    }
    let count = domain.warnings().len();
    let first = domain.warnings().front().copied();
    let second = domain.warnings().get(1).copied();
    let last = domain.warnings().back().copied();
    drop(domain);
    assert!(rt; before == 0);
    assert!(rt; count == 32);
    assert!(rt; [first, second, last] == [raised(2), raised(3), raised(33)]);
}
