//! What a port answers where it can't make a connection.
ghost use Rattle.std.specs.Prelude.{◌≡◌, cond, eqb};
ghost use Rattle.iox2_machine.specs.declared.degradation.DegradationAction.TheVariants.{DegradeAndFail, Ignore};

use iox2_domain::{Boxes, HandlerMark, PortBoxes, degradation_answer};
use iox2_machine::{
    BackpressureFn, DegradationAction, DegradationCause, DegradationFn, DegradationInfo,
};
use std::cell::Cell;

// Does without this subscriber's connections, and fails each call that can't make another.
#[derive(Drop)]
struct Unneeded {
    subscriber: u128,
}

impl DegradationFn for Unneeded {
    ghost allows = { λ unneeded cause info action. action ≡ cond (eqb info.receiver_port_id unneeded.subscriber) Ignore DegradeAndFail };

    fn call(&self, _: DegradationCause, info: &DegradationInfo) -> DegradationAction {
        if info.receiver_port_id == self.subscriber {
            DegradationAction::Ignore
        } else {
            DegradationAction::DegradeAndFail
        }
    }
}

const fn refused(receiver_port_id: u128) -> DegradationInfo {
    DegradationInfo {
        service_id: 7,
        sender_port_id: 5,
        receiver_port_id,
    }
}

#[test]
fn the_box_of_the_port_is_asked(rt: HostRuntime) {
    let mut boxes: Boxes<Box<dyn BackpressureFn>, Unneeded> = Boxes::new(rt.alloc());
    boxes.reserve_one().expect(&rt, "memory");
    let its = PortBoxes {
        backpressure: None,
        degradation: Some(Unneeded { subscriber: 2 }),
    };
    boxes.add(5, its);
    let told = degradation_answer(HandlerMark::Custom, &boxes, 5, &refused(2));
    let other = degradation_answer(HandlerMark::Custom, &boxes, 5, &refused(3));
    let fixed = HandlerMark::Fixed(DegradationAction::Ignore);
    let fixed = degradation_answer(fixed, &boxes, 5, &refused(3));
    let without = degradation_answer(HandlerMark::Custom, &boxes, 6, &refused(2));
    boxes.remove(5);
    let removed = degradation_answer(HandlerMark::Custom, &boxes, 5, &refused(3));
    drop(boxes);
    assert!(rt; told == DegradationAction::Ignore);
    assert!(rt; other == DegradationAction::DegradeAndFail);
    assert!(rt; fixed == DegradationAction::Ignore);
    assert!(rt; without == DegradationAction::Warn);
    assert!(rt; removed == DegradationAction::Warn);
}

// Counts how often it is asked, and does without the connection.
#[derive(Drop)]
struct Counting<'a> {
    asked: &'a Cell<u64>,
}

impl DegradationFn for Counting<'_> {
    ghost allows = { λ _ _ _ action. action ≡ Ignore };

    fn call(&self, _: DegradationCause, _: &DegradationInfo) -> DegradationAction {
        self.asked.set(self.asked.get().wrapping_add(1));
        DegradationAction::Ignore
    }
}

// No contract says how often a box is asked.
#[test]
fn a_box_is_asked_once_about_a_refused_connection(rt: HostRuntime) {
    let asked = Cell::new(0u64);
    let mut boxes: Boxes<Box<dyn BackpressureFn>, Counting<'_>> = Boxes::new(rt.alloc());
    boxes.reserve_one().expect(&rt, "memory");
    let its = PortBoxes {
        backpressure: None,
        degradation: Some(Counting { asked: &asked }),
    };
    boxes.add(5, its);
    let answer = degradation_answer(HandlerMark::Custom, &boxes, 5, &refused(2));
    drop(boxes);
    assert!(rt; answer == DegradationAction::Ignore);
    assert!(rt; asked.get() == 1);
}
