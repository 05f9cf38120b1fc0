//! A publisher of slices updates its connections.

use crate::domain::Domain;
use crate::slice::Publisher;
use crate::update_connections::UpdateConnections;
use iox2_machine::{BackpressureFn, ConnectionFailure, DegradationFn};

/// A publisher gets its connections with new subscribers, which a send does too.
///
/// iceoryx2's `UpdateConnections` of `Publisher` (`src/port/publisher.rs`).
impl<T: Drop, U: Default + Drop, F: BackpressureFn, G: DegradationFn> UpdateConnections<T, U, F, G>
    for Publisher {
    ghost use Rattle.iox2_domain.specs.Boxes.{answers_of};
    ghost use Rattle.iox2_machine.specs.machine.PublisherUpdate.{UpdatePublisher};
    ghost use Rattle.iox2_pubsub.specs.Live.{IsReadyPublisher, Connected};
    ghost use Rattle.iox2_pubsub.specs.UpdateCalls.{ready_stays};
    ghost use Rattle.iox2_pubsub.specs.Handles.{as_publisher, publisher_id};

    ghost is_live = { λ domain publisher. IsReadyPublisher domain (as_publisher publisher) };

    ghost live_stays = { λ old new publisher. ready_stays old new (as_publisher publisher) };

    ghost updates = { λ old s publisher s' failure. UpdatePublisher
        (answers_of F.allows G.allows (old.boxes).publishers) s (publisher_id (as_publisher publisher)) s' failure };

    ghost is_updated = { λ domain publisher. Unit {0} };

    ghost leaves = { λ old new publisher. Connected (publisher_id (as_publisher publisher)) old new };

    ghost adds = { λ domain. (domain.config).history_size };

    fn update_connections(&self, domain: &mut Domain<T, U, F, G>) -> Result<(), ConnectionFailure> {
        self.publisher.update_connections(domain)
    }
}
