//! A subscriber of slices updates its connections.

use crate::domain::Domain;
use crate::slice::Subscriber;
use crate::update_connections::UpdateConnections;
use iox2_machine::{BackpressureFn, ConnectionFailure, DegradationFn};

/// A subscriber gets its connections with new publishers, which a receive does too.
///
/// iceoryx2's `UpdateConnections` of `Subscriber` (`src/port/subscriber.rs`).
impl<T: Drop, U: Default + Drop, F: BackpressureFn, G: DegradationFn> UpdateConnections<T, U, F, G>
    for Subscriber {
    ghost use Rattle.iox2_domain.specs.Boxes.{answers_of};
    ghost use Rattle.iox2_machine.specs.machine.SubscriberUpdate.{UpdateSubscriber};
    ghost use Rattle.iox2_pubsub.specs.Live.{IsLiveSubscriber, IsUpToDate, KeepsAll, WaitingStays};
    ghost use Rattle.iox2_pubsub.specs.UpdateCalls.{subscriber_stays};
    ghost use Rattle.iox2_pubsub.specs.Handles.{as_subscriber, subscriber_id};

    ghost is_live = { λ domain subscriber. IsLiveSubscriber domain (as_subscriber subscriber) };

    ghost live_stays = { λ old new subscriber. subscriber_stays old new (as_subscriber subscriber) };

    ghost updates = { λ old s subscriber s' failure. UpdateSubscriber
        (answers_of F.allows G.allows (old.boxes).subscribers) s (subscriber_id (as_subscriber subscriber)) s' failure };

    ghost is_updated = { λ domain subscriber. IsUpToDate domain (as_subscriber subscriber) };

    ghost leaves = { λ old new subscriber. KeepsAll old (as_subscriber subscriber) → WaitingStays old new };

    ghost adds = { λ domain. 0 };

    fn update_connections(&self, domain: &mut Domain<T, U, F, G>) -> Result<(), ConnectionFailure> {
        self.subscriber.update_connections(domain)
    }
}
