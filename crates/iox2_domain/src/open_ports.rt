//! The ports of a domain that weren't closed.
ghost use Rattle.std.specs.Prelude.{◌↔◌, IsTrue};
ghost use Rattle.iox2_machine.specs.machine.SingleCalls.{HoldsPublisher, HoldsSubscriber};

use crate::state::DomainState;
use iox2_machine::{UniquePublisherId, UniqueSubscriberId};

impl<T: Drop, U: Default + Drop> DomainState<T, U> {
    ghost use Rattle.iox2_domain.specs.Kept.{state_of};
    ghost use Rattle.iox2_domain.specs.Fields.{kept_of};
    ghost use Rattle.iox2_domain.specs.Invariant.{IsDomain};

    /// Whether a publisher has this id and wasn't closed.
    pub fn has_publisher(&self, id: UniquePublisherId) -> bool
        requires { IsDomain self.now }
        ensures { IsTrue result ↔ HoldsPublisher (state_of (kept_of self.now)) id }
    {
        self.find_publisher(id, 0).is_some()
    }

    /// Whether a subscriber has this id and wasn't closed.
    pub fn has_open_subscriber(&self, id: UniqueSubscriberId) -> bool
        requires { IsDomain self.now }
        ensures { IsTrue result ↔ HoldsSubscriber (state_of (kept_of self.now)) id }
    {
        let Some(place) = self.find_subscriber(id, 0) else {
            return false;
        };
        match &self.subscribers[place] {
            Some(subscriber) => subscriber.is_open,
            None => false,
        }
    }
}
