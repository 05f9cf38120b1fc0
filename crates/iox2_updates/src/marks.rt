//! Connections are marked as open while both their ports are there and open, so that a message asks
//! nothing about them.
ghost use Rattle.iox2_domain.specs.Invariant.{IsDomain};
ghost use Rattle.iox2_domain.specs.OpenMarks.{ChangesMarks, ClearsEnd};
ghost use Rattle.iox2_updates.specs.Marks.{UnmarksReceiver, UnmarksSender};

use iox2_domain::{DomainState, is_open_at, key_at, stands_at};

/// The connection that the publisher at a place has at a subscriber's place is marked as open, if
/// that subscriber is there and is open, and channel 0 isn't closed.
pub fn mark_end<T: Drop, U: Default + Drop>(
    state: &mut DomainState<T, U>,
    publisher_place: usize,
    subscriber_place: usize,
)
    requires { IsDomain state.old }
    ensures { ChangesMarks state.old state.new }
{
    let Some(key) = key_at(&state.publishers, publisher_place, subscriber_place) else {
        return;
    };
    let subscriber = state.connections[key].home().subscriber;
    if stands_at(&state.subscribers, subscriber_place, subscriber)
        && is_open_at(&state.subscribers, subscriber_place)
    {
        state.connections[key].set_open(true);
    }
}

// The connection that the publisher at a place has at a subscriber's place is marked as open no more.
fn unmark_end<T: Drop, U: Default + Drop>(
    state: &mut DomainState<T, U>,
    publisher_place: usize,
    subscriber_place: usize,
)
    requires { IsDomain state.old }
    ensures { ClearsEnd state.old publisher_place subscriber_place state.new }
{
    if let Some(key) = key_at(&state.publishers, publisher_place, subscriber_place) {
        state.connections[key].set_open(false);
    }
}

/// No connection of the publisher at a place is marked as open any more.
pub fn unmark_publisher<T: Drop, U: Default + Drop>(state: &mut DomainState<T, U>, place: usize)
    requires { IsDomain state.old }
    ensures { UnmarksSender state.old place state.new }
{
    for subscriber_place in 0..state.subscribers.len() {
        unmark_end(state, place, subscriber_place);
    }
}

/// No connection of the subscriber at a place is marked as open any more.
pub fn unmark_subscriber<T: Drop, U: Default + Drop>(state: &mut DomainState<T, U>, place: usize)
    requires { IsDomain state.old }
    ensures { UnmarksReceiver state.old place state.new }
{
    for publisher_place in 0..state.publishers.len() {
        unmark_end(state, publisher_place, place);
    }
}
