//! A subscriber is closed.
ghost use Rattle.std.specs.Prelude.{◌≡◌};

use crate::domain::Domain;
use crate::subscriber::Subscriber;
use iox2_machine::{BackpressureFn, DegradationFn};
use iox2_ports::close_subscriber;

impl Subscriber {
    ghost use Rattle.std.specs.Prelude.{None, Some};
    ghost use Rattle.iox2_machine.specs.machine.Ports.{subscriber_closed};
    ghost use Rattle.iox2_machine.specs.machine.Records.{Subscriber as Record};
    ghost use Rattle.iox2_machine.specs.machine.State.{State, Messages};
    ghost use Rattle.iox2_pubsub.specs.Leaves.{LeavesWithout};
    ghost use Rattle.iox2_pubsub.specs.Live.{IsLiveSubscriber, IsSubscriberKey, subscriber_box, subscriber_key};
    ghost use Rattle.iox2_domain.specs.Shows.{Shows};

    /// Closes the subscriber: it takes no messages any more, and what waits for it is lost. Its
    /// samples live and read on until they are released; with the last of them its place is free for
    /// another, or at once if it has none. Takes no memory.
    ///
    /// iceoryx2's `Subscriber`, when it is dropped (`src/port/subscriber.rs`).
    pub fn close<T: Drop, U: Default + Drop, F: BackpressureFn, G: DegradationFn>(
        self,
        domain: &mut Domain<T, U, F, G>,
    )
        requires live { IsLiveSubscriber domain.old self }
        ensures closed { (m : Messages T U) (s : State T U) (y : Record) → Shows domain.old m s → s.subscribers (subscriber_key self).port ≡ Some y
            → Shows domain.new m (subscriber_closed s (subscriber_key self).port y) }
        ensures spent { IsSubscriberKey domain.new (subscriber_key self) → ⊥ }
        ensures unboxed { subscriber_box domain.new (subscriber_key self).port ≡ None }
        ensures leaves { LeavesWithout self domain.old domain.new }
    {
        let Subscriber {
            service_id: _,
            id,
            place,
            buffer_size: _,
        } = self;
        close_subscriber(&mut domain.state, place);
        domain.subscriber_boxes.remove(id.value());
    }
}
