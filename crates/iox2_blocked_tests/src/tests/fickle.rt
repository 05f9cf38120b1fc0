//! A publisher whose handler may give any answer, and gives another one each time.
use crate::tests::waiting_publishers::{
    give_up, next_reading, send, subscriber_of, waiting_domain,
};
use iox2_fixtures::Weather;
use iox2_pubsub::{
    BackpressureAction, BackpressureFn, BackpressureHandler, BackpressureInfo,
    BackpressureStrategy, Publisher, SendError, SendOutcome,
};
use std::alloc::Global;
use std::cell::Cell;
use std::process::Abort;
use std::rc::Rc;

// The answers in turn.
const ANSWERS: [BackpressureAction; 4] = [
    BackpressureAction::Retry,
    BackpressureAction::DiscardData,
    BackpressureAction::FollowBackpressureyStrategy,
    BackpressureAction::DiscardDataAndFail,
];

// The answer that is given when that many were given before.
fn answer(given: usize) -> BackpressureAction {
    ANSWERS[given % 4]
}

// Counts its answers.
#[derive(Drop)]
struct Fickle {
    given: Rc<Cell<usize>>,
}

impl BackpressureFn for Fickle {
    ghost allows = { λ _ _ _. Unit {0} };

    fn call(&self, _: &BackpressureInfo) -> BackpressureAction {
        let given = self.given.get();
        self.given.set(given.wrapping_add(1));
        answer(given)
    }
}

// A publisher with such a handler, which would wait for a full subscriber by its strategy.
fn fickle_publisher(
    rt: &impl Abort,
    alloc: Global,
    domain: &mut Weather,
    given: &Rc<Cell<usize>>,
) -> Publisher {
    let given = given.clone().expect(rt, "memory");
    let fickle: Box<dyn BackpressureFn> = Box::new(alloc, Fickle { given }).expect(rt, "memory");
    let factory = domain
        .publisher_builder()
        .backpressure_strategy(BackpressureStrategy::RetryUntilDelivered)
        .set_backpressure_handler(BackpressureHandler::Custom(fickle));
    factory.create(domain).expect(rt, "a publisher")
}

// How a send ends, where each of two subscribers that it waits for is given up.
fn ended(
    rt: &impl Abort,
    domain: &mut Weather,
    sent: Result<SendOutcome, SendError>,
) -> Result<usize, SendError> {
    let mut sent = sent;
    for _ in 0..2 {
        sent = match sent {
            Ok(SendOutcome::Blocked(waiting)) => give_up(rt, domain, waiting),
            other => other,
        };
    }
    match sent {
        Ok(SendOutcome::Delivered(count)) => Ok(count),
        Ok(SendOutcome::Blocked(waiting)) => {
            waiting.disown();
            panic!(rt; "the send is blocked")
        }
        Err(error) => Err(error),
    }
}

// What waits for two subscribers that have room for one message each, and how many answers were
// given.
#[derive(Clone, Copy)]
struct Expected {
    is_full: [bool; 2],
    given: usize,
}

impl Expected {
    // How a send to both has to end. Where the answer is to wait, the subscriber is given up.
    fn send(&mut self) -> Result<usize, SendError> {
        let mut count = 0usize;
        let mut has_failed = false;
        for place in 0..2 {
            if self.is_full[place] {
                has_failed |= answer(self.given) == BackpressureAction::DiscardDataAndFail;
                self.given = self.given.wrapping_add(1);
            } else {
                self.is_full[place] = true;
                count = count.wrapping_add(1);
            }
        }
        if has_failed {
            return Err(SendError::UnableToDeliver);
        }
        Ok(count)
    }
}

// Each subscriber receives and releases a message at every third send, the second one before the
// first. Each send ends as it has to, so that no loan is refused either.
#[test]
fn each_answer_of_a_fickle_handler_is_followed(rt: HostRuntime) {
    let given = Rc::new(rt.alloc(), Cell::new(0usize)).expect(&rt, "memory");
    let mut domain = waiting_domain(&rt, rt.alloc());
    let first = subscriber_of(&rt, &mut domain, 1);
    let second = subscriber_of(&rt, &mut domain, 1);
    let publisher = fickle_publisher(&rt, rt.alloc(), &mut domain, &given);
    let mut expected = Expected {
        is_full: [false, false],
        given: 0,
    };
    let mut differs = false;
    for round in 0..1200u64 {
        if round % 3 == 2 {
            differs |= next_reading(&rt, &mut domain, &first).is_some() != expected.is_full[0];
            expected.is_full[0] = false;
        }
        if round % 3 == 1 {
            differs |= next_reading(&rt, &mut domain, &second).is_some() != expected.is_full[1];
            expected.is_full[1] = false;
        }
        let sent = send(&rt, &mut domain, &publisher, round);
        differs |= ended(&rt, &mut domain, sent) != expected.send();
    }
    publisher.disown();
    first.disown();
    second.disown();
    drop(domain);
    assert!(rt; !differs && given.get() == expected.given);
    drop(given);
}
