//! A publisher's handler of full buffers.
ghost use Rattle.std.specs.Prelude.{◌≡◌};
ghost use Rattle.iox2_machine.specs.BackpressureHandlers.{MayAnswer};

use crate::backpressure::{BackpressureAction, BackpressureFn, BackpressureInfo};

/// What answers for a publisher at a full buffer.
///
/// Example (`crates/slow_display/src/main.rt`):
///
/// ```rust
/// let publisher = domain
///     .publisher_builder()
///     .set_backpressure_handler(BackpressureHandler::Custom(patience))
///     .create(domain)?;
/// ```
///
/// iceoryx2's `port::BackpressureHandler` (`src/port/mod.rs`).
#[derive(Drop)]
pub enum BackpressureHandler<F = Box<dyn BackpressureFn>> {
    /// Always this action.
    Fixed(BackpressureAction),
    /// What the caller's own says.
    Custom(F),
}

impl BackpressureHandler {
    /// A handler that always answers with this action.
    pub fn new_with(action: BackpressureAction) -> BackpressureHandler
        ensures { result ≡ BackpressureHandler.Fixed action }
    {
        BackpressureHandler::Fixed(action)
    }
}

impl<F: BackpressureFn> BackpressureHandler<F> {
    /// The fixed action, or what the caller's own answers.
    pub fn call(&self, info: &BackpressureInfo) -> BackpressureAction
        ensures { MayAnswer F.allows self.now info.now result }
    {
        match self {
            BackpressureHandler::Fixed(action) => *action,
            BackpressureHandler::Custom(function) => function.call(info),
        }
    }
}
