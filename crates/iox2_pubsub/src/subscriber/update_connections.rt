//! A subscriber updates its connections.

use crate::domain::Domain;
use crate::subscriber::Subscriber;
use crate::update_connections::{UpdateConnections, outcome_of};
use iox2_machine::{BackpressureFn, ConnectionFailure, DegradationFn};
use iox2_updates::update_subscriber;

/// A subscriber gets its connections with new publishers, which a receive does too.
///
/// iceoryx2's `UpdateConnections` of `Subscriber` (`src/port/subscriber.rs`).
impl<T: Drop, U: Default + Drop, F: BackpressureFn, G: DegradationFn> UpdateConnections<T, U, F, G>
    for Subscriber {
    ghost use Rattle.iox2_domain.specs.Boxes.{answers_of};
    ghost use Rattle.iox2_machine.specs.machine.SubscriberUpdate.{UpdateSubscriber};
    ghost use Rattle.iox2_pubsub.specs.Live.{IsLiveSubscriber, IsUpToDate, KeepsAll, WaitingStays};
    ghost use Rattle.iox2_pubsub.specs.UpdateCalls.{subscriber_stays};
    ghost use Rattle.iox2_pubsub.specs.Handles.{subscriber_id};

    ghost is_live = { IsLiveSubscriber };

    ghost live_stays = { subscriber_stays };

    ghost updates = { λ old s subscriber s' failure. UpdateSubscriber
        (answers_of F.allows G.allows (old.boxes).subscribers) s (subscriber_id subscriber) s' failure };

    ghost is_updated = { IsUpToDate };

    ghost leaves = { λ old new subscriber. KeepsAll old subscriber → WaitingStays old new };

    ghost adds = { λ domain. 0 };

    fn update_connections(&self, domain: &mut Domain<T, U, F, G>) -> Result<(), ConnectionFailure> {
        outcome_of(update_subscriber(&mut domain.state, &domain.subscriber_boxes, self.place))
    }
}
