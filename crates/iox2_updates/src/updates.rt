//! Updates: a port gets its connections with the ports of the other side.
ghost use Rattle.std.specs.Prelude.{◌≡◌, ◌^◌, Some, None, slice_index_or};
ghost use Rattle.iox2_domain.specs.Boxes.{answers_of};
ghost use Rattle.iox2_domain.specs.Ports.{PublisherFields};
ghost use Rattle.iox2_domain.specs.Invariant.{IsDomain};
ghost use Rattle.iox2_domain.specs.Updates.{IsUnblockedAt};
ghost use Rattle.iox2_domain.specs.Connects.{UpdatesKeptPublisher};
ghost use Rattle.iox2_updates.specs.Ends.{IsSenderDue};
ghost use Rattle.iox2_updates.specs.Holders.{HasFewHolders};

use crate::connects::update_sender_place;
use crate::failures::first_of;
use crate::places::Places;
use crate::reclaims::reclaim;
use iox2_domain::{Boxes, DomainState, clear_due, is_due_at};
use iox2_machine::{BackpressureFn, ConnectionFailure, DegradationFn};

/// Updates the publisher at a place, if it is due: it goes over the subscribers' places. An end to
/// the subscriber that is there stays; if it is closed, what waits for it is lost. Any other
/// end goes, and one to an open subscriber is made. If memory for one is refused, its handler is
/// asked, which may fail the update. The first failure is returned.
///
/// iceoryx2's `PublisherSharedState::force_update_connections` (`src/port/publisher.rs`).
pub fn update_publisher<T: Drop, U: Default + Drop, F: BackpressureFn, G: DegradationFn>(
    state: &mut DomainState<T, U>,
    boxes: &Boxes<F, G>,
    place: usize,
) -> Option<ConnectionFailure>
    requires agrees { IsDomain state.old }
    requires stands { (x : PublisherFields) × (slice_index_or state.old.publishers place None ≡ Some x) }
    requires unblocked { IsUnblockedAt state.old.publishers place }
    ensures { (x : PublisherFields) → slice_index_or state.old.publishers place None ≡ Some x
        → UpdatesKeptPublisher (answers_of F.allows G.allows (boxes.now).boxes) state.old place x state.new result }
{
    if is_due_at(&state.publishers, place) {
        connect_publisher(state, boxes, place)
    } else {
        None
    }
}

// The publisher at a place, which is due, reclaims what was given back to it, and goes over the
// subscribers' places.
#[inline(never)]
fn connect_publisher<T: Drop, U: Default + Drop, F: BackpressureFn, G: DegradationFn>(
    state: &mut DomainState<T, U>,
    boxes: &Boxes<F, G>,
    place: usize,
) -> Option<ConnectionFailure>
    requires { IsSenderDue state.old place }
    ensures { (due : IsSenderDue state.old place)
        → UpdatesKeptPublisher (answers_of F.allows G.allows (boxes.now).boxes) state.old place due.publisher
        state.new result }
{
    reclaim(state, place);
    walk_places(state, boxes, place)
}

// The publisher at a place, which is due, goes over the subscribers' places. Each slot of it has few
// holders, and gets one more at most for each place.
fn walk_places<T: Drop, U: Default + Drop, F: BackpressureFn, G: DegradationFn>(
    state: &mut DomainState<T, U>,
    boxes: &Boxes<F, G>,
    place: usize,
) -> Option<ConnectionFailure>
    requires due { IsSenderDue state.old place }
    requires few { (due : IsSenderDue state.old place) → HasFewHolders (state.old).books due.publisher.book (2 ^ 62) }
    ensures { (due : IsSenderDue state.old place)
        → UpdatesKeptPublisher (answers_of F.allows G.allows (boxes.now).boxes) state.old place due.publisher
        state.new result }
{
    clear_due(&mut state.publishers, place);
    let mut first = None;
    for other in 0..state.subscribers.len() {
        let at = Places {
            publisher: place,
            subscriber: other,
        };
        let failure = update_sender_place(state, boxes, at);
        first = first_of(first, failure);
    }
    first
}
