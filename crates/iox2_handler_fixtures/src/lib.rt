//! Handlers that tests put into boxes. Only crates of tests use it.
#![tactic(auto)]

ghost use Rattle.std.specs.Prelude.{◌≡◌, cond, nat_lt};
ghost use Rattle.iox2_machine.specs.declared.backpressure.BackpressureAction.TheVariants.{Retry};

use iox2_machine::{
    BackpressureAction, BackpressureFn, BackpressureInfo, DegradationAction, DegradationCause,
    DegradationFn, DegradationInfo,
};

/// Tries a delivery again that many times, and gives its last answer then.
#[derive(Drop)]
pub struct Patience {
    /// How many times a delivery is tried again.
    pub retries: u64,
    /// The answer once it was tried so often.
    pub last_answer: BackpressureAction,
}

impl BackpressureFn for Patience {
    ghost allows = { λ patience info action. action ≡ cond (nat_lt info.retries patience.retries) Retry patience.last_answer };

    fn call(&self, info: &BackpressureInfo) -> BackpressureAction {
        if info.retries < self.retries {
            return BackpressureAction::Retry;
        }
        self.last_answer
    }
}

/// Gives the same answer to each connection that can't be made.
#[derive(Drop)]
pub struct SameAnswer {
    /// The answer.
    pub answer: DegradationAction,
}

impl DegradationFn for SameAnswer {
    ghost allows = { λ handler _ _ action. action ≡ handler.answer };

    fn call(&self, _: DegradationCause, _: &DegradationInfo) -> DegradationAction {
        self.answer
    }
}
