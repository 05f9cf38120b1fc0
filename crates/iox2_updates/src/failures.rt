//! What a port does without a connection, and what its update fails with.
ghost use Rattle.std.specs.Prelude.{◌≡◌};
ghost use Rattle.iox2_machine.specs.machine.Connections.{DegradationAnswers, failure_of, first_failure, warnings_after};
ghost use Rattle.iox2_machine.specs.machine.Limits.{warning_limit};
ghost use Rattle.iox2_domain.specs.Boxes.{answers_of};
ghost use Rattle.iox2_domain.specs.Handlers.{handler_of};
ghost use Rattle.iox2_domain.specs.Updates.{refused_between};
ghost use Rattle.iox2_domain.specs.WarningRing.{warning_ring};

use iox2_connections::Home;
use iox2_domain::{Boxes, HandlerMark, Warnings, degradation_answer};
use iox2_machine::{
    BackpressureFn, ConnectionFailure, DegradationAction, DegradationFn, DegradationInfo,
    UniquePublisherId, UniqueSubscriberId, Warning, ZeroCopyCreationError,
};

/// What the port with an id and this mark, of the service with a number, answers if memory for the
/// connection there is refused. A box is among these boxes.
pub(crate) fn ask<F: BackpressureFn, G: DegradationFn>(
    mark: HandlerMark<DegradationAction>,
    boxes: &Boxes<F, G>,
    port: u128,
    service_id: u128,
    home: Home,
) -> DegradationAction
    ensures { DegradationAnswers (answers_of F.allows G.allows (boxes.now).boxes) port (handler_of mark) (refused_between service_id home) result }
{
    let info = DegradationInfo {
        service_id,
        sender_port_id: home.publisher,
        receiver_port_id: home.subscriber,
    };
    degradation_answer(mark, boxes, port, &info)
}

/// What a port does if memory for the connection there is refused: as its handler answers, it goes
/// on, or warns, or its update fails. The connection is counted.
pub(crate) fn degrade(
    warnings: &mut Warnings,
    answer: DegradationAction,
    home: Home,
) -> Option<ConnectionFailure>
    requires { warnings.old.capacity ≡ warning_limit }
    ensures warnings { warnings.new ≡ warning_ring (warnings_after home.publisher home.subscriber answer warnings.old.items) warning_limit }
    ensures failure { result ≡ failure_of answer }
{
    warnings.count_refusal();
    match answer {
        DegradationAction::Ignore => None,
        DegradationAction::Warn => {
            warnings.warn(Warning::ConnectionNotMade {
                sender: UniquePublisherId::new(home.publisher),
                receiver: UniqueSubscriberId::new(home.subscriber),
            });
            None
        }
        DegradationAction::DegradeAndFail => {
            Some(ConnectionFailure::FailedToEstablishConnection(ZeroCopyCreationError::OutOfMemory))
        }
    }
}

/// The failure that came first.
pub(crate) fn first_of(
    first: Option<ConnectionFailure>,
    later: Option<ConnectionFailure>,
) -> Option<ConnectionFailure>
    ensures { result ≡ first_failure first later }
{
    match first {
        Some(failure) => Some(failure),
        None => later,
    }
}
