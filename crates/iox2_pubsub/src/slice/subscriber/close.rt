//! A subscriber of slices is closed.
ghost use Rattle.std.specs.Prelude.{◌≡◌};

use crate::domain::Domain;
use crate::slice::Subscriber;
use iox2_machine::{BackpressureFn, DegradationFn};

impl Subscriber {
    ghost use Rattle.std.specs.Prelude.{None, Some};
    ghost use Rattle.iox2_machine.specs.machine.Ports.{subscriber_closed};
    ghost use Rattle.iox2_machine.specs.machine.Records.{Subscriber as Record};
    ghost use Rattle.iox2_machine.specs.machine.State.{State, Messages};
    ghost use Rattle.iox2_pubsub.specs.Leaves.{LeavesWithout};
    ghost use Rattle.iox2_pubsub.specs.Live.{IsLiveSubscriber, IsSubscriberKey, subscriber_box, subscriber_key};
    ghost use Rattle.iox2_domain.specs.Shows.{Shows};
    ghost use Rattle.iox2_pubsub.specs.Handles.{as_subscriber};

    /// Closes the subscriber, as one of single values is closed.
    ///
    /// iceoryx2's `Subscriber`, when it is dropped (`src/port/subscriber.rs`).
    pub fn close<T: Drop, U: Default + Drop, F: BackpressureFn, G: DegradationFn>(
        self,
        domain: &mut Domain<T, U, F, G>,
    )
        requires live { IsLiveSubscriber domain.old (as_subscriber self) }
        ensures closed { (m : Messages T U) (s : State T U) (y : Record) → Shows domain.old m s
            → s.subscribers (subscriber_key (as_subscriber self)).port ≡ Some y
            → Shows domain.new m (subscriber_closed s (subscriber_key (as_subscriber self)).port y) }
        ensures spent { IsSubscriberKey domain.new (subscriber_key (as_subscriber self)) → ⊥ }
        ensures unboxed { subscriber_box domain.new (subscriber_key (as_subscriber self)).port ≡ None }
        ensures leaves { LeavesWithout (as_subscriber self) domain.old domain.new }
    {
        let Subscriber { subscriber } = self;
        subscriber.close(domain);
    }
}
