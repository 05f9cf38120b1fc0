//! Whether messages wait.
ghost use Rattle.std.specs.Prelude.{◌≡◌, None, Some, slice_index_or};
ghost use Rattle.iox2_domain.specs.Boxes.{answers_of};
ghost use Rattle.iox2_domain.specs.Invariant.{IsDomain};
ghost use Rattle.iox2_domain.specs.Ports.{SubscriberFields};
ghost use Rattle.iox2_domain.specs.Questions.{IsWhetherWaiting, AnswersAs};

use iox2_connections::receiver::has_samples;
use iox2_domain::{Boxes, DomainState};
use iox2_machine::{BackpressureFn, ConnectionFailure, DegradationFn};
use iox2_updates::update_subscriber;

/// The subscriber at a place is updated, and then asked whether any message waits for it, also one
/// that it may not borrow yet. If the update fails, that is the answer, and the update stands.
pub fn has_samples_at<T: Drop, U: Default + Drop, F: BackpressureFn, G: DegradationFn>(
    state: &mut DomainState<T, U>,
    boxes: &Boxes<F, G>,
    place: usize,
) -> Result<bool, ConnectionFailure>
    requires agrees { IsDomain state.old }
    requires stands { (y : SubscriberFields) × (slice_index_or state.old.subscribers place None ≡ Some y) }
    ensures { (y : SubscriberFields) → slice_index_or state.old.subscribers place None ≡ Some y
        → AnswersAs (answers_of F.allows G.allows (boxes.now).boxes) state.old y.id result state.new }
{
    match update_subscriber(state, boxes, place) {
        Some(failure) => Err(failure),
        None => Ok(has_data_at(state, place)),
    }
}

// Whether any message waits for the subscriber at a place.
//
// iceoryx2's `Receiver::has_samples` (`src/port/details/receiver.rs`).
fn has_data_at<T: Drop, U: Default + Drop>(state: &DomainState<T, U>, place: usize) -> bool
    requires agrees { IsDomain state.now }
    requires stands { (y : SubscriberFields) × (slice_index_or state.now.subscribers place None ≡ Some y) }
    ensures { (y : SubscriberFields) → slice_index_or state.now.subscribers place None ≡ Some y → IsWhetherWaiting state.now y.id result }
{
    let Some(subscriber) = &state.subscribers[place] else {
        unreachable!()
    };
    has_samples(&state.connections, &subscriber.expired, &subscriber.keys)
}
