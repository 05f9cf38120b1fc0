//! What works for each type of payload, of user header and of handlers.
ghost use Rattle.iox2_pubsub.specs.Live.{IsLivePublisher, IsLiveSubscriber, IsSingleValued, Stays};

use crate::failure::Failure;
use iox2_pubsub::{BackpressureFn, DegradationFn, Domain, Publisher, Subscriber};

/// Sends a value, receives the next that waits, and gives it back. Returns whether one waited.
pub fn pass_value<T: Drop, U: Default + Drop, F: BackpressureFn, G: DegradationFn>(
    domain: &mut Domain<T, U, F, G>,
    publisher: &Publisher,
    subscriber: &Subscriber,
    value: T,
) -> Result<bool, Failure>
    requires single_valued { IsSingleValued domain.old }
    requires publisher { IsLivePublisher domain.old publisher.now }
    requires subscriber { IsLiveSubscriber domain.old subscriber.now }
    ensures stays { Stays domain.old domain.new }
{
    publisher.send_copy(domain, value)?.delivered();
    let Some(sample) = subscriber.receive(domain)? else {
        return Ok(false);
    };
    sample.release(domain);
    Ok(true)
}
