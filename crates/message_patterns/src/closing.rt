//! Several subscribers are closed.
ghost use Rattle.std.specs.Prelude.{◌≢◌, [], ◌∷◌};
ghost use Rattle.iox2_pubsub.specs.Handles.{subscriber_id};
ghost use Rattle.iox2_pubsub.specs.Live.{IsLiveSubscriber, StaysBut, subscriber_ports};

use crate::Numbers;
use iox2_pubsub::Subscriber;

/// Closes two subscribers. All else stays.
pub fn close_both(domain: &mut Numbers, first: Subscriber, second: Subscriber)
    requires first { IsLiveSubscriber domain.old first }
    requires second { IsLiveSubscriber domain.old second }
    requires apart { subscriber_id first ≢ subscriber_id second }
    ensures stays { StaysBut (subscriber_ports (subscriber_id first ∷ subscriber_id second ∷ [])) domain.old domain.new }
{
    second.close(domain);
    first.close(domain);
}
