//! Publishers that say whether a send of theirs is ever blocked, or failed by a handler.
use iox2_fixtures::{Weather, factory_for, settings};
use iox2_handler_fixtures::SameAnswer;
use iox2_machine::ServiceConfig;
use iox2_pubsub::{
    BackpressureAction, BackpressureHandler, BackpressureStrategy, DegradationAction,
    DegradationHandler, Domain, PortFactoryPublisher,
};
use std::alloc::Global;
use std::process::Abort;

// A domain with room for six publishers, which overflows or not.
fn domain(rt: &impl Abort, alloc: Global, enable_safe_overflow: bool) -> Weather {
    let config = ServiceConfig {
        max_publishers: 6,
        enable_safe_overflow,
        ..settings()
    };
    Domain::new(alloc, config).expect(rt, "a domain")
}

// What a publisher of the factory says.
fn answer(rt: &impl Abort, domain: &mut Weather, factory: PortFactoryPublisher) -> bool {
    let publisher = factory.create(domain).expect(rt, "a publisher");
    let never_waits = publisher.never_waits(domain);
    publisher.disown();
    never_waits
}

// What one with this handler for full buffers says.
fn answer_with(
    rt: &impl Abort,
    domain: &mut Weather,
    strategy: BackpressureStrategy,
    action: BackpressureAction,
) -> bool {
    let factory = factory_for(domain)
        .backpressure_strategy(strategy)
        .set_backpressure_handler(BackpressureHandler::new_with(action));
    answer(rt, domain, factory)
}

#[test]
fn a_publisher_that_discards_never_waits(rt: HostRuntime) {
    let mut domain = domain(&rt, rt.alloc(), false);
    let discarding = factory_for(&domain);
    let waiting = factory_for(&domain).backpressure_strategy(
        BackpressureStrategy::RetryUntilDelivered,
    );
    let by_strategy = [
        answer(&rt, &mut domain, discarding),
        answer(&rt, &mut domain, waiting),
    ];
    let discards = BackpressureStrategy::DiscardData;
    let waits = BackpressureStrategy::RetryUntilDelivered;
    let by_handler = [
        answer_with(&rt, &mut domain, waits, BackpressureAction::DiscardData),
        answer_with(&rt, &mut domain, discards, BackpressureAction::Retry),
        answer_with(
            &rt,
            &mut domain,
            discards,
            BackpressureAction::DiscardDataAndFail,
        ),
        answer_with(
            &rt,
            &mut domain,
            waits,
            BackpressureAction::FollowBackpressureyStrategy,
        ),
    ];
    drop(domain);
    assert!(rt; by_strategy == [true, false]);
    assert!(rt; by_handler == [true, false, false, false]);
}

// There no handler is asked about a full buffer. One for refused connections may fail a send all the same.
#[test]
fn a_publisher_of_a_service_that_overflows_never_waits(rt: HostRuntime) {
    let mut domain = domain(&rt, rt.alloc(), true);
    let waits = BackpressureStrategy::RetryUntilDelivered;
    let waiting = answer_with(
        &rt,
        &mut domain,
        waits,
        BackpressureAction::DiscardDataAndFail,
    );
    let strict = factory_for(&domain).set_degradation_handler(DegradationHandler::new_with(
        DegradationAction::DegradeAndFail,
    ));
    let strict = answer(&rt, &mut domain, strict);
    let lenient = SameAnswer {
        answer: DegradationAction::Ignore,
    };
    let lenient = Box::new(rt.alloc(), lenient).expect(&rt, "memory");
    let boxed = factory_for(&domain).set_degradation_handler(DegradationHandler::Custom(lenient));
    let boxed = answer(&rt, &mut domain, boxed);
    drop(domain);
    assert!(rt; waiting);
    assert!(rt; !strict);
    assert!(rt; !boxed);
}
