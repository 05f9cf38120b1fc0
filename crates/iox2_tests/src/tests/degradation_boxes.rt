//! Ports whose handlers of refused connections are boxes: where no memory is refused, and where no memory holds a buffer.
use crate::tests::fixtures::domain;
use iox2_fixtures::{Reading, Weather, next_reading, receiver_count, settings};
use iox2_handler_fixtures::{Patience, SameAnswer};
use iox2_machine::ServiceConfig;
use iox2_pubsub::{
    BackpressureAction, BackpressureFn, BackpressureHandler, DegradationAction, DegradationCause,
    DegradationFn, DegradationHandler, DegradationInfo, Domain, Subscriber, UpdateConnections,
};
use std::alloc::Global;
use std::cell::Cell;
use std::process::Abort;
use std::rc::Rc;

// Goes on without a connection from a port to one that was made later, and fails with any other.
#[derive(Drop)]
struct InOrder;

impl DegradationFn for InOrder {
    ghost allows = { λ _ _ _ _. Unit {0} };

    fn call(&self, _: DegradationCause, info: &DegradationInfo) -> DegradationAction {
        if info.sender_port_id < info.receiver_port_id {
            DegradationAction::Ignore
        } else {
            DegradationAction::DegradeAndFail
        }
    }
}

// A box that fails each call that can't make a connection.
fn strict_box(rt: &impl Abort, alloc: Global) -> Box<dyn DegradationFn> {
    let strict = SameAnswer {
        answer: DegradationAction::DegradeAndFail,
    };
    Box::new(alloc, strict).expect(rt, "memory")
}

// A box that passes each full subscriber over.
fn hasty_box(rt: &impl Abort, alloc: Global) -> Box<dyn BackpressureFn> {
    let hasty = Patience {
        retries: 0,
        last_answer: BackpressureAction::DiscardData,
    };
    Box::new(alloc, hasty).expect(rt, "memory")
}

#[test]
fn messages_arrive_between_ports_with_boxes(rt: HostRuntime) {
    let mut domain = domain(&rt, rt.alloc());
    let factory = domain
        .publisher_builder()
        .set_backpressure_handler(BackpressureHandler::Custom(hasty_box(&rt, rt.alloc())))
        .set_degradation_handler(DegradationHandler::Custom(strict_box(&rt, rt.alloc())));
    let publisher = factory.create(&mut domain).expect(&rt, "a publisher");
    let factory = domain
        .subscriber_builder()
        .set_degradation_handler(DegradationHandler::Custom(strict_box(&rt, rt.alloc())));
    let subscriber = factory.create(&mut domain).expect(&rt, "a subscriber");
    let updated = publisher.update_connections(&mut domain);
    let sent = publisher.send_copy(&mut domain, Reading { celsius: 21 });
    let count = receiver_count(sent.expect(&rt, "a send"));
    let read = next_reading(&mut domain, &subscriber).expect(&rt, "an answer");
    publisher.disown();
    subscriber.close(&mut domain);
    let refused = domain.refused_connections();
    drop(domain);
    assert!(rt; updated == Ok(()));
    assert!(rt; count == Some(1));
    assert!(rt; read == Some(21));
    assert!(rt; refused == 0);
}

// Counts how often it is asked, and goes on without the connection.
#[derive(Drop)]
struct Counting {
    asked: Rc<Cell<u64>>,
}

impl DegradationFn for Counting {
    ghost allows = { λ _ _ _ _. Unit {0} };

    fn call(&self, _: DegradationCause, _: &DegradationInfo) -> DegradationAction {
        self.asked.set(self.asked.get().wrapping_add(1));
        DegradationAction::Ignore
    }
}

// A subscriber whose box counts how often it is asked.
fn counted_subscriber(
    rt: &impl Abort,
    alloc: Global,
    domain: &mut Weather,
    asked: &Rc<Cell<u64>>,
) -> Subscriber {
    let asked = asked.clone().expect(rt, "memory");
    let counting: Box<dyn DegradationFn> = Box::new(alloc, Counting { asked }).expect(rt, "memory");
    let factory = domain
        .subscriber_builder()
        .set_degradation_handler(DegradationHandler::Custom(counting));
    factory.create(domain).expect(rt, "a subscriber")
}

// No memory holds a buffer of 2^58 messages, so no connection is made. Each is tried at its subscriber's making.
#[test]
fn the_box_of_each_of_six_subscribers_is_asked(rt: HostRuntime) {
    let config = ServiceConfig {
        max_subscribers: 6,
        subscriber_max_buffer_size: 1 << 58,
        ..settings()
    };
    let mut domain: Weather = Domain::new(rt.alloc(), config).expect(&rt, "a domain");
    let factory = domain
        .publisher_builder()
        .override_sample_preallocation(|_| 1);
    let publisher = factory.create(&mut domain).expect(&rt, "a publisher");
    let asked = Rc::new(rt.alloc(), Cell::new(0u64)).expect(&rt, "memory");
    for made in 0..6 {
        let before = asked.get();
        counted_subscriber(&rt, rt.alloc(), &mut domain, &asked).disown();
        assert!(rt; before == made && asked.get() == made.wrapping_add(1));
    }
    publisher.disown();
    drop(domain);
    drop(asked);
}

// No memory holds a buffer of 2^60 messages, so the subscriber's connection is refused. The publisher was
// made first.
#[test]
fn a_box_is_told_which_port_sends(rt: HostRuntime) {
    let config = ServiceConfig {
        subscriber_max_buffer_size: 1 << 60,
        ..settings()
    };
    let mut domain: Weather = Domain::new(rt.alloc(), config).expect(&rt, "a domain");
    let in_order: Box<dyn DegradationFn> = Box::new(rt.alloc(), InOrder).expect(&rt, "memory");
    let factory = domain
        .publisher_builder()
        .override_sample_preallocation(|_| 1)
        .set_degradation_handler(DegradationHandler::Custom(in_order));
    let publisher = factory.create(&mut domain).expect(&rt, "a publisher");
    let factory = domain.subscriber_builder();
    let subscriber = factory.create(&mut domain).expect(&rt, "a subscriber");
    let updated = publisher.update_connections(&mut domain);
    publisher.close(&mut domain);
    subscriber.close(&mut domain);
    let refused = domain.refused_connections();
    drop(domain);
    assert!(rt; updated == Ok(()));
    assert!(rt; refused == 2);
}
