//! A publisher updates its connections.

use crate::domain::Domain;
use crate::publisher::Publisher;
use crate::update_connections::{UpdateConnections, outcome_of};
use iox2_machine::{BackpressureFn, ConnectionFailure, DegradationFn};
use iox2_messages::catch_up;

/// A publisher gets its connections with new subscribers, which a send does too. If its memory grew, it
/// drops what lies in older slots that nobody holds any more.
///
/// iceoryx2's `UpdateConnections` of `Publisher` (`src/port/publisher.rs`).
impl<T: Drop, U: Default + Drop, F: BackpressureFn, G: DegradationFn> UpdateConnections<T, U, F, G>
    for Publisher {
    ghost use Rattle.iox2_domain.specs.Boxes.{answers_of};
    ghost use Rattle.iox2_machine.specs.machine.PublisherUpdate.{UpdatePublisher};
    ghost use Rattle.iox2_pubsub.specs.Live.{IsReadyPublisher, Connected};
    ghost use Rattle.iox2_pubsub.specs.UpdateCalls.{ready_stays};
    ghost use Rattle.iox2_pubsub.specs.Handles.{publisher_id};

    ghost is_live = { IsReadyPublisher };

    ghost live_stays = { ready_stays };

    ghost updates = { λ old s publisher s' failure. UpdatePublisher
        (answers_of F.allows G.allows (old.boxes).publishers) s (publisher_id publisher) s' failure };

    ghost is_updated = { λ domain publisher. Unit {0} };

    ghost leaves = { λ old new publisher. Connected (publisher_id publisher) old new };

    ghost adds = { λ domain. (domain.config).history_size };

    fn update_connections(&self, domain: &mut Domain<T, U, F, G>) -> Result<(), ConnectionFailure> {
        outcome_of(catch_up(&mut domain.state, &domain.boxes, self.place))
    }
}
