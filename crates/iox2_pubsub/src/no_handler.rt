//! The handlers of a domain whose ports have none of their own.
ghost use Rattle.std.specs.Prelude.{◌≡◌};
ghost use Rattle.iox2_machine.specs.declared.backpressure.BackpressureAction.TheVariants.{DiscardData};
ghost use Rattle.iox2_machine.specs.declared.degradation.DegradationAction.TheVariants.{Ignore};

use iox2_machine::{
    BackpressureAction, BackpressureFn, BackpressureInfo, DegradationAction, DegradationCause,
    DegradationFn, DegradationInfo,
};

/// The type of a domain's handlers if none of its ports has one of your own. Nobody makes a value of
/// it. A port may still have a handler that always gives the same answer
/// (`BackpressureHandler::new_with`).
///
/// A domain of this type has no boxes. So a function may make it and return it, and the prover's goals
/// show a short type.
///
/// Example (`crates/message_patterns/src/lib.rt`):
///
/// ```rust
/// pub type Numbers = Domain<u32, (), NoHandler, NoHandler>;
/// ```
///
/// This library's own.
#[derive(Drop)]
pub struct NoHandler {
    _nobody_makes_one: (),
}

impl BackpressureFn for NoHandler {
    ghost allows = { λ _ _ action. action ≡ DiscardData };

    fn call(&self, _: &BackpressureInfo) -> BackpressureAction {
        BackpressureAction::DiscardData
    }
}

impl DegradationFn for NoHandler {
    ghost allows = { λ _ _ _ action. action ≡ Ignore };

    fn call(&self, _: DegradationCause, _: &DegradationInfo) -> DegradationAction {
        DegradationAction::Ignore
    }
}
