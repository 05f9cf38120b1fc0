//! The subscribers of a client's responses: one for each request that may wait for responses.
ghost use Rattle.std.specs.Prelude.{◌≡◌, slice_set};
ghost use Rattle.iox2_pubsub.specs.Handles.{subscriber_id};
ghost use Rattle.iox2_request_response.specs.Slots.{IsPlaceInUse, IsIdleTakenOut, slot_id};
ghost use Rattle.iox2_request_response.specs.declared.slots.Slot.TheVariants.{Idle};

use iox2_pubsub::{Subscriber, UniqueSubscriberId};
use std::mem;

/// A subscriber that no request uses, or the id of one that a request has.
pub(crate) enum Slot {
    Idle(Subscriber),
    InUse(UniqueSubscriberId),
}

impl Slot {
    // Names the subscriber, wherever it is.
    fn id(&self) -> UniqueSubscriberId
        ensures { result ≡ slot_id self.now }
    {
        match self {
            Slot::Idle(subscriber) => subscriber.id(),
            Slot::InUse(id) => *id,
        }
    }
}

/// Takes an idle subscriber out, with its index. `None` if all are in use.
pub(crate) fn take_idle(slots: &mut Vec<Slot>) -> Option<(usize, Subscriber)>
    ensures { IsIdleTakenOut slots.old.items result slots.new.items }
{
    for index in 0..slots.len() {
        let id = slots[index].id();
        match mem::replace(&mut slots[index], Slot::InUse(id)) {
            Slot::Idle(subscriber) => return Some((index, subscriber)),
            Slot::InUse(_) => {}
        }
    }
    None
}

/// Puts a subscriber back, where its slot is in use.
pub(crate) fn put_back(slots: &mut Vec<Slot>, index: usize, subscriber: Subscriber)
    requires { IsPlaceInUse slots.old.items index (subscriber_id subscriber) }
    ensures { slots.new.items ≡ slice_set slots.old.items index (Idle subscriber) }
{
    match mem::replace(&mut slots[index], Slot::Idle(subscriber)) {
        Slot::Idle(other) => {
            other.disown();
            unreachable!()
        }
        Slot::InUse(_) => {}
    }
}
