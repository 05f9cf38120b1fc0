//! A subscriber of slices receives, also bytes of the caller's own.

use crate::custom_markers::CustomPayloadMarker;
use crate::domain::Domain;
use crate::slice::{Sample, Subscriber};
use iox2_machine::{BackpressureFn, DegradationFn, ReceiveError};

impl Subscriber {
    ghost use Rattle.iox2_domain.specs.Boxes.{answers_of};
    ghost use Rattle.iox2_pubsub.specs.Live.{IsLiveSubscriber};
    ghost use Rattle.iox2_pubsub.specs.ReceivedSamples.{ReceivesSample};
    ghost use Rattle.iox2_pubsub.specs.Handles.{as_subscriber};

    /// Updates the subscriber's connections and receives the oldest message that waits from one
    /// publisher, if it may borrow one more from that publisher. Closed publishers come first. It isn't
    /// promised which of several publishers comes first, so a message of another may have
    /// waited longer. `None` if no message waits. The values stay where they lie.
    ///
    /// Fails with `ReceiveError::ExceedsMaxBorrows` if messages wait, but no more may be borrowed
    /// from any of their publishers. The update stays done then, and no message moves.
    /// Fails with `ReceiveError::ConnectionFailure` if the update does, as
    /// `UpdateConnections::update_connections` says.
    ///
    /// iceoryx2's `Subscriber::receive` (`src/port/subscriber.rs`).
    #[inline(always)]
    pub fn receive<T: Drop, U: Default + Drop, F: BackpressureFn, G: DegradationFn>(
        &self,
        domain: &mut Domain<T, U, F, G>,
    ) -> Result<Option<Sample>, ReceiveError>
        requires live { IsLiveSubscriber domain.old (as_subscriber self.now) }
        ensures { ReceivesSample (answers_of F.allows G.allows (domain.old.boxes).subscribers) (as_subscriber self.now) result domain.old domain.new }
    {
        match self.subscriber.receive(domain) {
            Ok(Some(sample)) => Ok(Some(sample.into_kind())),
            Ok(None) => Ok(None),
            Err(error) => Err(error),
        }
    }

    /// Receives a message as `receive` does, whatever the variant of the domain. Its sample has each
    /// byte of each of its elements.
    ///
    /// iceoryx2's `Subscriber::receive_custom_payload` (`src/port/subscriber.rs`).
    pub fn receive_custom_payload<U: Default + Drop, F: BackpressureFn, G: DegradationFn>(
        &self,
        domain: &mut Domain<CustomPayloadMarker, U, F, G>,
    ) -> Result<Option<Sample>, ReceiveError>
        requires live { IsLiveSubscriber domain.old (as_subscriber self.now) }
        ensures { ReceivesSample (answers_of F.allows G.allows (domain.old.boxes).subscribers) (as_subscriber self.now) result domain.old domain.new }
    {
        self.receive(domain)
    }
}
