//! Ports close.
ghost use Rattle.std.specs.Prelude.{◌≡◌, None, Some, slice_index_or, IsSome};
ghost use Rattle.iox2_machine.specs.machine.Ports.{publisher_closed, subscriber_closed};
ghost use Rattle.iox2_domain.specs.Fields.{kept_of, publisher_of, subscriber_of};
ghost use Rattle.iox2_domain.specs.Invariant.{IsDomain};
ghost use Rattle.iox2_domain.specs.Kept.{state_of};
ghost use Rattle.iox2_domain.specs.Ports.{PublisherFields, SubscriberFields};
ghost use Rattle.iox2_domain.specs.Reaches.{Reaches};
ghost use Rattle.iox2_domain.specs.Updates.{IsUnblockedAt};

use crate::{publisher_closes, subscriber_closes};
use iox2_domain::DomainState;
use iox2_updates::{unmark_publisher, unmark_subscriber};

/// Closes the publisher at a place, which has no blocked delivery. Its place is free, and its loans
/// stay out. What waits for an open subscriber that has its end stays there, and what waits for
/// anybody else is lost. A connection with nothing in it is gone, and so is the publisher's book if
/// nobody holds a slot of it. Every subscriber is due for an update.
///
/// iceoryx2's `Publisher` drops its state (`src/port/publisher.rs`).
pub fn close_publisher<T: Drop, U: Default + Drop>(state: &mut DomainState<T, U>, place: usize)
    requires agrees { IsDomain state.old }
    requires stands { (x : PublisherFields) × (slice_index_or state.old.publishers place None ≡ Some x) }
    requires unblocked { IsUnblockedAt state.old.publishers place }
    ensures { (x : PublisherFields) → slice_index_or state.old.publishers place None ≡ Some x
        → Reaches state.old state.new
        (publisher_closed (state_of (kept_of state.old)) x.id (publisher_of (state.old).books (state.old).connections x).port) }
{
    unmark_publisher(state, place);
    publisher_closes::close_publisher(state, place);
}

/// Closes the subscriber at a place. It takes no messages any more, and what waits for it from
/// publishers that are gone is lost. It leaves its place if it has borrowed nothing; else it
/// stays until its last sample is released.
///
/// iceoryx2's `Subscriber`'s drop (`src/port/subscriber.rs`).
pub fn close_subscriber<T: Drop, U: Default + Drop>(state: &mut DomainState<T, U>, place: usize)
    requires agrees { IsDomain state.old }
    requires stands { IsSome (slice_index_or state.old.subscribers place None) }
    ensures { (y : SubscriberFields) → slice_index_or state.old.subscribers place None ≡ Some y
        → Reaches state.old state.new (subscriber_closed (state_of (kept_of state.old)) y.id ((subscriber_of state.old.books state.old.connections y).port)) }
{
    unmark_subscriber(state, place);
    subscriber_closes::close_subscriber(state, place);
}
