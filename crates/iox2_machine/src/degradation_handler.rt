//! A port's handler of refused connections.
ghost use Rattle.std.specs.Prelude.{◌≡◌};
ghost use Rattle.iox2_machine.specs.DegradationHandlers.{MayDegrade};

use crate::degradation::{DegradationAction, DegradationCause, DegradationFn, DegradationInfo};

/// What answers for a port when memory for a connection is refused.
///
/// Example (`crates/refused_rows/src/ports.rt`):
///
/// ```rust
/// domain
///     .subscriber_builder()
///     .set_degradation_handler(handler)
///     .create(domain)
/// ```
///
/// iceoryx2's `port::DegradationHandler` (`src/port/mod.rs`).
#[derive(Drop)]
pub enum DegradationHandler<G = Box<dyn DegradationFn>> {
    /// Always this action.
    Fixed(DegradationAction),
    /// What the caller's own says.
    Custom(G),
}

impl DegradationHandler {
    /// A handler that always answers with this action.
    pub fn new_with(action: DegradationAction) -> DegradationHandler
        ensures { result ≡ DegradationHandler.Fixed action }
    {
        DegradationHandler::Fixed(action)
    }
}

impl<G: DegradationFn> DegradationHandler<G> {
    /// The fixed action, or what the caller's own answers.
    pub fn call(&self, cause: DegradationCause, info: &DegradationInfo) -> DegradationAction
        ensures { MayDegrade G.allows self.now cause info.now result }
    {
        match self {
            DegradationHandler::Fixed(action) => *action,
            DegradationHandler::Custom(function) => function.call(cause, info),
        }
    }
}
