ghost use Rattle.std.specs.Prelude.{◌≡◌, ◌/◌, cond, nat_lt};
ghost use Rattle.std.specs.Duration.{as_nanos};
ghost use Rattle.iox2_machine.specs.declared.backpressure.BackpressureAction.TheVariants.{DiscardData, Retry};
ghost use Rattle.iox2_machine.specs.declared.degradation.DegradationAction.TheVariants.{DegradeAndFail, Warn};
ghost use Rattle.iox2_machine.specs.declared.degradation.DegradationCause.TheVariants.{ConnectionCorrupted, FailedToEstablishConnection};

use iox2_handler_fixtures::{Patience, SameAnswer};
use iox2_machine::{
    BackpressureAction, BackpressureFn, BackpressureInfo, DegradationAction, DegradationCause,
    DegradationFn, DegradationHandler, DegradationInfo,
};
use std::alloc::Global;
use std::process::Abort;
use std::time::Duration;

// What a degradation handler is told.
const REFUSED: DegradationInfo = DegradationInfo {
    service_id: 7,
    sender_port_id: 2,
    receiver_port_id: 1,
};

#[test]
fn a_boxed_backpressure_handler_answers(rt: HostRuntime) {
    let patience = Patience {
        retries: 2,
        last_answer: BackpressureAction::DiscardData,
    };
    let handler: Box<dyn BackpressureFn> = Box::new(rt.alloc(), patience).expect(&rt, "memory");
    let early = BackpressureInfo {
        service_id: 7,
        sender_port_id: 2,
        receiver_port_id: 1,
        retries: 1,
        elapsed_time: Duration::ZERO,
    };
    let late = BackpressureInfo {
        retries: 2,
        ..early
    };
    let answers = [handler.call(&early), handler.call(&late)];
    drop(handler);
    assert!(rt; answers == [BackpressureAction::Retry, BackpressureAction::DiscardData]);
}

// A box that goes on without any connection.
fn indifferent_box(rt: &impl Abort, alloc: Global) -> Box<dyn DegradationFn> {
    let indifferent = SameAnswer {
        answer: DegradationAction::Ignore,
    };
    Box::new(alloc, indifferent).expect(rt, "memory")
}

#[test]
fn a_boxed_degradation_handler_answers(rt: HostRuntime) {
    let handler = indifferent_box(&rt, rt.alloc());
    let answer = handler.call(DegradationCause::FailedToEstablishConnection, &REFUSED);
    drop(handler);
    assert!(rt; answer == DegradationAction::Ignore);
}

#[test]
fn a_handler_of_refused_connections_answers(rt: HostRuntime) {
    let strict = DegradationHandler::new_with(DegradationAction::DegradeAndFail);
    let first = strict.call(DegradationCause::FailedToEstablishConnection, &REFUSED);
    drop(strict);
    let indifferent: DegradationHandler = DegradationHandler::Custom(indifferent_box(
        &rt,
        rt.alloc(),
    ));
    let second = indifferent.call(DegradationCause::FailedToEstablishConnection, &REFUSED);
    drop(indifferent);
    assert!(rt; first == DegradationAction::DegradeAndFail);
    assert!(rt; second == DegradationAction::Ignore);
}

// Waits that many milliseconds for a full subscriber, and passes it over then.
#[derive(Drop)]
struct Deadline {
    milliseconds: u128,
}

impl BackpressureFn for Deadline {
    ghost allows = { λ deadline info action. action ≡ cond (nat_lt (as_nanos info.elapsed_time / 1_000_000) deadline.milliseconds) Retry DiscardData };

    fn call(&self, info: &BackpressureInfo) -> BackpressureAction {
        if info.elapsed_time.as_millis() < self.milliseconds {
            BackpressureAction::Retry
        } else {
            BackpressureAction::DiscardData
        }
    }
}

#[test]
fn a_handler_waits_until_its_deadline(rt: HostRuntime) {
    let deadline = Deadline { milliseconds: 2 };
    let early = BackpressureInfo {
        service_id: 7,
        sender_port_id: 2,
        receiver_port_id: 1,
        retries: 9,
        elapsed_time: Duration::from_micros(1999),
    };
    let late = BackpressureInfo {
        elapsed_time: Duration::from_millis(2),
        ..early
    };
    let answers = [deadline.call(&early), deadline.call(&late)];
    assert!(rt; answers == [BackpressureAction::Retry, BackpressureAction::DiscardData]);
}

// Has the domain warn of a connection that finds no memory, and fails with any other.
#[derive(Drop)]
struct Lenient;

impl DegradationFn for Lenient {
    ghost allows = { λ _ cause _ action. (cause ≡ FailedToEstablishConnection → action ≡ Warn) × (cause ≡ ConnectionCorrupted → action ≡ DegradeAndFail) };

    fn call(&self, cause: DegradationCause, _: &DegradationInfo) -> DegradationAction {
        match cause {
            DegradationCause::FailedToEstablishConnection => DegradationAction::Warn,
            DegradationCause::ConnectionCorrupted => DegradationAction::DegradeAndFail,
        }
    }
}

#[test]
fn a_handler_is_told_the_cause(rt: HostRuntime) {
    let answers = [
        Lenient.call(DegradationCause::FailedToEstablishConnection, &REFUSED),
        Lenient.call(DegradationCause::ConnectionCorrupted, &REFUSED),
    ];
    assert!(rt; answers == [DegradationAction::Warn, DegradationAction::DegradeAndFail]);
}
