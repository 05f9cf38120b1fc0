//! A departed publisher's connection leaves its place at a subscriber.
ghost use Rattle.std.specs.Prelude.{◌≡◌, ◌<◌, true, false, Some, length};
ghost use Rattle.slab.specs.Slab.{get, ContainsKey};
ghost use Rattle.iox2_connections.specs.Link.{Link};
ghost use Rattle.iox2_slots.specs.SlotBook.{Book};
ghost use Rattle.iox2_machine.specs.machine.Limits.{expired_limit};
ghost use Rattle.iox2_machine.specs.machine.Numbers.{contains};
ghost use Rattle.iox2_machine.specs.machine.SubscriberUpdate.{Keep_expired, Evict, Discard_data};
ghost use Rattle.iox2_machine.specs.declared.warning.Warning.TheVariants.{ExpiredDataDiscarded};
ghost use Rattle.iox2_connections.specs.Retires.{has_borrowed, chosen};
ghost use Rattle.iox2_domain.specs.Invariant.{IsDomain};
ghost use Rattle.iox2_domain.specs.ReceiverSteps.{LosesConnection, RetiresReceiver};
ghost use Rattle.iox2_updates.specs.Ends.{DepartedAt, RetiresAt};

use crate::departures::settle_book_if_left;
use crate::places::Places;
use iox2_connections::Home;
use iox2_connections::drops::drop_waiting_at;
use iox2_connections::retirement::{Retirement, choose_retirement};
use iox2_domain::{DomainState, clear_key_at, expire_at, make_due, replace_expired_at};
use iox2_machine::{ServiceConfig, UniquePublisherId, UniqueSubscriberId, Warning};

// That what waited in the connection was lost.
fn data_dropped(home: Home) -> Warning
    ensures { result ≡ ExpiredDataDiscarded home.publisher home.subscriber }
{
    Warning::ExpiredDataDiscarded {
        sender: UniquePublisherId::new(home.publisher),
        receiver: UniqueSubscriberId::new(home.subscriber),
    }
}

// How many departed publishers a subscriber keeps at most.
fn expired_limit(config: &ServiceConfig) -> usize
    ensures { result ≡ expired_limit config.now }
{
    config
        .subscriber_expired_connection_buffer
        .max(config.subscriber_max_borrowed_samples)
}

// The connection at a key goes, and with it what waits there; a warning says so. Returns the key of
// its publisher's book.
fn drop_connection<T: Drop, U: Default + Drop>(state: &mut DomainState<T, U>, key: usize) -> usize
    requires agrees { IsDomain state.old }
    requires stands { ContainsKey (state.old).connections key }
    ensures { (c : Link) (b : Book) → get (state.old).connections key ≡ Some c → get (state.old).books c.home.book ≡ Some b
        → (result ≡ c.home.book) × LosesConnection state.old key c b state.new }
{
    let home = state.connections[key].home();
    drop_waiting_at(&mut state.connections, key, &mut state.books[home.book]);
    state.connections.remove(key);
    state.warnings.warn(data_dropped(home));
    home.book
}

// The end at a publisher's place is kept among the expired ones.
fn keep_expired<T: Drop, U: Default + Drop>(state: &mut DomainState<T, U>, at: Places, key: usize)
    requires departed { DepartedAt state.old at key }
    requires few { (departed : DepartedAt state.old at key) → length departed.subscriber.expired < expired_limit (state.old).config }
    ensures { (departed : DepartedAt state.old at key) → RetiresAt departed Keep_expired state.new }
{
    expire_at(&mut state.subscribers, at.subscriber, at.publisher, key);
}

// The same, and the expired connection at another key goes in its place.
fn replace_expired<T: Drop, U: Default + Drop>(
    state: &mut DomainState<T, U>,
    at: Places,
    key: usize,
    first: usize,
)
    requires departed { DepartedAt state.old at key }
    requires first { (departed : DepartedAt state.old at key) → contains departed.subscriber.expired first ≡ true }
    requires unborrowed { has_borrowed (get (state.old).connections first) ≡ false }
    ensures { (departed : DepartedAt state.old at key) (d : Link) → get (state.old).connections first ≡ Some d
        → RetiresAt departed (Evict d.home.publisher) state.new }
{
    let book = drop_connection(state, first);
    replace_expired_at(
        &mut state.subscribers,
        at.subscriber,
        at.publisher,
        key,
        first,
    );
    settle_book_if_left(state, book);
}

// The end at a publisher's place goes, and what waits there is lost.
fn drop_end<T: Drop, U: Default + Drop>(state: &mut DomainState<T, U>, at: Places, key: usize)
    requires departed { DepartedAt state.old at key }
    requires unborrowed { has_borrowed (get (state.old).connections key) ≡ false }
    ensures { (departed : DepartedAt state.old at key) → RetiresAt departed Discard_data state.new }
{
    let book = drop_connection(state, key);
    clear_key_at(&mut state.subscribers, at.subscriber, at.publisher);
    settle_book_if_left(state, book);
}

// What becomes of the end that the subscriber at a place has at a key.
fn choose<T: Drop, U: Default + Drop>(
    state: &DomainState<T, U>,
    at: Places,
    key: usize,
) -> Retirement
    requires { DepartedAt state.now at key }
    ensures { (departed : DepartedAt state.now at key)
        → result ≡ chosen state.now.connections (expired_limit (state.now).config) departed.subscriber.expired key }
{
    let Some(subscriber) = &state.subscribers[at.subscriber] else {
        unreachable!()
    };
    choose_retirement(
        &state.connections,
        expired_limit(&state.config),
        &subscriber.expired,
        key,
    )
}

/// The departed publisher, whose connection is at the key that the subscriber at a place has at
/// a publisher's place, is retired from there. Returns whether it is: if it is refused, the
/// subscriber is due again.
///
/// iceoryx2's `Receiver::prepare_connection_removal` (`src/port/details/receiver.rs`).
pub(crate) fn retire<T: Drop, U: Default + Drop>(
    state: &mut DomainState<T, U>,
    at: Places,
    key: usize,
) -> bool
    requires { DepartedAt state.old at key }
    ensures { (departed : DepartedAt state.old at key)
        → RetiresReceiver state.old at.subscriber at.publisher departed.subscriber departed.link.home.publisher
        state.new result }
{
    match choose(state, at, key) {
        Retirement::KeepExpired => keep_expired(state, at, key),
        Retirement::Evict(first) => replace_expired(state, at, key, first),
        Retirement::DiscardData => drop_end(state, at, key),
        Retirement::Refuse => {
            make_due(&mut state.subscribers, at.subscriber);
            return false;
        }
    }
    true
}
