//! A subscriber receives.

use crate::domain::Domain;
use crate::sample::Sample;
use crate::subscriber::Subscriber;
use iox2_domain::Receipt;
use iox2_machine::{BackpressureFn, DegradationFn, ReceiveError};
use iox2_messages::receive_at;
use std::marker::PhantomData;

impl Subscriber {
    ghost use Rattle.iox2_domain.specs.Boxes.{answers_of};
    ghost use Rattle.iox2_pubsub.specs.Live.{IsLiveSubscriber};
    ghost use Rattle.iox2_pubsub.specs.ReceivedSamples.{ReceivesSample};

    /// Updates the subscriber's connections and receives the oldest message that waits from one
    /// publisher, if it may borrow one more from that publisher. Closed publishers come first. It isn't
    /// promised which of several publishers comes first, so a message of another may have
    /// waited longer. `None` if no message waits.
    ///
    /// Fails with `ReceiveError::ExceedsMaxBorrows` if messages wait, but no more may be borrowed
    /// from any of their publishers. The update stays done then, and no message moves.
    /// Fails with `ReceiveError::ConnectionFailure` if the update does, as
    /// `UpdateConnections::update_connections` says.
    ///
    /// iceoryx2's `Subscriber::receive` (`src/port/subscriber.rs`).
    #[inline(always)]
    pub fn receive<T: Drop, U: Default + Drop, F: BackpressureFn, G: DegradationFn>(
        &self,
        domain: &mut Domain<T, U, F, G>,
    ) -> Result<Option<Sample>, ReceiveError>
        requires live { IsLiveSubscriber domain.old self.now }
        ensures { ReceivesSample (answers_of F.allows G.allows (domain.old.boxes).subscribers) self.now result domain.old domain.new }
    {
        let receipt = receive_at(&mut domain.state, &domain.subscriber_boxes, self.place)?;
        let Some(receipt) = receipt else {
            return Ok(None);
        };
        let Receipt { publisher, sample } = receipt;
        Ok(Some(Sample {
            service_id: self.service_id,
            origin: publisher,
            sample,
            kind: PhantomData,
        }))
    }
}
