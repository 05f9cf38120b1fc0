//! The thermometer's handler of a full display.
ghost use Rattle.std.specs.Prelude.{◌≡◌, cond, nat_lt};
ghost use Rattle.iox2_pubsub.specs.declared.BackpressureAction.TheVariants.{DiscardData, Retry};

use iox2_pubsub::{BackpressureAction, BackpressureFn, BackpressureInfo};

/// Has a reading wait for the display while it was tried again fewer than `retries` times. After that
/// the display isn't given the reading.
#[derive(Drop)]
pub struct Patience {
    pub retries: u64,
}

impl BackpressureFn for Patience {
    ghost allows = { λ patience info action. action ≡ cond (nat_lt info.retries patience.retries) Retry DiscardData };

    fn call(&self, info: &BackpressureInfo) -> BackpressureAction {
        if info.retries < self.retries {
            BackpressureAction::Retry
        } else {
            BackpressureAction::DiscardData
        }
    }
}
