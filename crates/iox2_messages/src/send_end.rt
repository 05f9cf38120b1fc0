//! How a send ended.
ghost use Rattle.std.specs.Prelude.{◌≡◌};
ghost use Rattle.iox2_domain.specs.Deliveries.{result_of_delivery};
ghost use Rattle.iox2_messages.specs.SendEnds.{IsKept, end_result};

use iox2_connections::sender::DeliveryOutcome;
use iox2_machine::ConnectionFailure;

/// How a send ended, or that it waits. It is small enough to be returned in registers, as the outcome
/// of a delivery isn't.
#[derive(Clone, Copy)]
pub enum SendEnd {
    /// That many receivers took the message.
    Delivered(usize),
    /// It went over all receivers, and the handler failed it at some of them.
    Undelivered,
    /// It waits for a full receiver.
    Blocked,
    /// The publisher is gone, and the loan with it.
    Lost,
    /// The publisher's connections couldn't be updated, and the loan was given back.
    Unconnected(ConnectionFailure),
}

impl SendEnd {
    /// How a send with this outcome of its delivery ended.
    #[inline(always)]
    pub(crate) fn of(outcome: DeliveryOutcome) -> SendEnd
        ensures same { end_result result ≡ result_of_delivery outcome }
        ensures kept { IsKept result }
    {
        match outcome {
            DeliveryOutcome::Complete {
                has_failed: true,
                ..
            } => SendEnd::Undelivered,
            DeliveryOutcome::Complete { count, .. } => SendEnd::Delivered(count),
            DeliveryOutcome::Suspended(_) => SendEnd::Blocked,
        }
    }
}
