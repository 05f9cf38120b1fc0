//! What a factory is told of refused connections.
ghost use Rattle.std.specs.Prelude.{◌≡◌};
ghost use Rattle.iox2_domain.specs.Handlers.{handler_of};
ghost use Rattle.iox2_pubsub.specs.Factories.{answer_of, degrading_box};

use iox2_domain::HandlerMark;
use iox2_machine::{DegradationAction, DegradationHandler};

/// What stands for the handler in its port.
pub(crate) fn mark_of<G>(handler: &DegradationHandler<G>) -> HandlerMark<DegradationAction>
    ensures { handler_of result ≡ answer_of handler.now }
{
    match handler {
        DegradationHandler::Fixed(action) => HandlerMark::Fixed(*action),
        DegradationHandler::Custom(_) => HandlerMark::Custom,
    }
}

/// The box that the handler is, if it is one.
pub(crate) fn box_in<G>(handler: DegradationHandler<G>) -> Option<G>
    ensures { result ≡ degrading_box handler }
{
    match handler {
        DegradationHandler::Fixed(_) => None,
        DegradationHandler::Custom(function) => Some(function),
    }
}
