//! A publisher does what it is due for before its next message.
ghost use Rattle.std.specs.Prelude.{◌≡◌, IsTrue, false, slice_index_or, None, Some};
ghost use Rattle.iox2_domain.specs.Boxes.{answers_of};
ghost use Rattle.iox2_domain.specs.Invariant.{IsDomain};
ghost use Rattle.iox2_domain.specs.Ports.{PublisherFields};
ghost use Rattle.iox2_domain.specs.Updates.{IsUnblockedAt};
ghost use Rattle.iox2_messages.specs.CatchingUp.{CatchesUp};

use crate::older_slots::let_go_of_older;
use iox2_domain::{Boxes, DomainState};
use iox2_machine::{BackpressureFn, ConnectionFailure, DegradationFn};
use iox2_updates::update_publisher;

/// The publisher at a place does what it is due for. It drops what is in older slots that nobody holds
/// any more, and updates its connections. Returns the first failure of the update.
pub fn catch_up<T: Drop, U: Default + Drop, F: BackpressureFn, G: DegradationFn>(
    state: &mut DomainState<T, U>,
    boxes: &Boxes<F, G>,
    place: usize,
) -> Option<ConnectionFailure>
    requires agrees { IsDomain state.old }
    requires stands { (x : PublisherFields) × (slice_index_or state.old.publishers place None ≡ Some x) }
    requires unblocked { IsUnblockedAt state.old.publishers place }
    ensures { (x : PublisherFields) → slice_index_or state.old.publishers place None ≡ Some x
        → CatchesUp (answers_of F.allows G.allows (boxes.now).boxes) state.old place x state.new result }
{
    if has_caught_up(state, place) {
        return None;
    }
    let_go_of_older(state, place);
    update_publisher(state, boxes, place)
}

// Whether the publisher at a place is due for nothing. This one test is all that a message of a publisher
// with a handler pays.
#[inline(always)]
fn has_caught_up<T, U>(state: &DomainState<T, U>, place: usize) -> bool
    requires { (x : PublisherFields) × (slice_index_or state.now.publishers place None ≡ Some x) }
    ensures { IsTrue result → (x : PublisherFields) → slice_index_or state.now.publishers place None ≡ Some x → x.is_due ≡ false }
{
    let Some(publisher) = &state.publishers[place] else {
        unreachable!();
    };
    publisher.due.is_nothing()
}
