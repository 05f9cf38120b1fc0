//! What a port answers when it can't make a connection.
ghost use Rattle.iox2_machine.specs.machine.Connections.{DegradationAnswers};
ghost use Rattle.iox2_domain.specs.Boxes.{answers_of};
ghost use Rattle.iox2_domain.specs.Handlers.{handler_of};

use crate::boxes::Boxes;
use crate::handlers::HandlerMark;
use iox2_machine::{
    BackpressureFn, DegradationAction, DegradationCause, DegradationFn, DegradationInfo,
};

/// What a port with an id and this mark answers when memory for a connection is refused. A box is
/// looked for now; if there is none, the answer is to warn.
pub fn degradation_answer<F: BackpressureFn, G: DegradationFn>(
    mark: HandlerMark<DegradationAction>,
    boxes: &Boxes<F, G>,
    id: u128,
    info: &DegradationInfo,
) -> DegradationAction
    ensures { DegradationAnswers (answers_of F.allows G.allows (boxes.now).boxes) id (handler_of mark) info.now result }
{
    match mark {
        HandlerMark::Fixed(action) => action,
        HandlerMark::Custom => match boxes.degradation_of(id) {
            Some(function) => { function.call(DegradationCause::FailedToEstablishConnection, info) }
            None => DegradationAction::Warn,
        },
    }
}
