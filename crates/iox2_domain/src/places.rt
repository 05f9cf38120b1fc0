//! The places of a domain's ports.
ghost use Rattle.std.specs.Prelude.{◌≡◌, ◌==◌, ◌<◌, ◌≤◌, ◌↔◌, cond, nat_lt, slice_index_or, slice_set, vec_capacity, IsTrue, IsSomeAnd, MatchOption, OnOk};
ghost use Rattle.iox2_connections.specs.LookUp.{look_up};
ghost use Rattle.iox2_domain.specs.Placed.{placed, lowest_empty};

use crate::ports::Port;
use crate::state::DomainState;
use iox2_machine::{UniquePublisherId, UniqueSubscriberId};
use std::alloc::AllocError;

/// The lowest empty place, if it is below the limit.
pub fn free_place<P>(places: &[Option<P>], limit: usize) -> Option<usize>
    ensures { result ≡ cond (nat_lt (lowest_empty places.now) limit) (Some (lowest_empty places.now)) None }
{
    let place = lowest_place(places);
    if place < limit { Some(place) } else { None }
}

fn lowest_place<P>(places: &[Option<P>]) -> usize
    ensures { result ≡ lowest_empty places.now }
{
    for place in 0..places.len() {
        if places[place].is_none() {
            return place;
        }
    }
    places.len()
}

/// Puts something at a place, for which there is room. The list grows if it is too short.
pub fn put_at_place<P: Drop>(places: &mut Vec<Option<P>>, place: usize, value: P)
    requires { place < vec_capacity places.old }
    ensures items { places.new.items ≡ placed places.old.items place value }
    ensures capacity { vec_capacity places.new ≡ vec_capacity places.old }
{
    while places.len() <= place {
        places.push_reserved(None);
    }
    places[place] = Some(value);
}

/// Whether the port with this id is at the place.
pub fn stands_at<P: Port>(ports: &[Option<P>], place: usize, id: u128) -> bool
    ensures { IsTrue result ↔ IsSomeAnd (slice_index_or ports.now place None) (λ x. P.number x ≡ id) }
{
    if place >= ports.len() {
        return false;
    }
    match &ports[place] {
        Some(port) => port.number() == id,
        None => false,
    }
}

fn find_place<P: Port>(ports: &[Option<P>], id: u128, hint: usize) -> Option<usize>
    ensures { MatchOption result (look_up (λ x. P.number x == id) ports.now ≡ None) (λ i. IsSomeAnd (slice_index_or ports.now i None) (λ x. P.number x ≡ id)) }
{
    if stands_at(ports, hint, id) {
        return Some(hint);
    }
    search_places(ports, id)
}

// The place of a port that is there.
fn find_live_place<P: Port>(ports: &[Option<P>], id: u128, hint: usize) -> usize
    requires { look_up (λ x. P.number x == id) ports.now ≡ None → ⊥ }
    ensures { IsSomeAnd (slice_index_or ports.now result None) (λ x. P.number x ≡ id) }
{
    if stands_at(ports, hint, id) {
        return hint;
    }
    let Some(place) = search_places(ports, id) else {
        unreachable!()
    };
    place
}

#[inline(never)]
fn search_places<P: Port>(ports: &[Option<P>], id: u128) -> Option<usize>
    ensures { MatchOption result (look_up (λ x. P.number x == id) ports.now ≡ None) (λ i. IsSomeAnd (slice_index_or ports.now i None) (λ x. P.number x ≡ id)) }
{
    for place in 0..ports.len() {
        if stands_at(ports, place, id) {
            return Some(place);
        }
    }
    None
}

impl<T: Drop, U: Default + Drop> DomainState<T, U> {
    ghost use Rattle.iox2_domain.specs.Ports.{PublisherFields, SubscriberFields};
    ghost use Rattle.iox2_domain.specs.Invariant.{is_publisher, is_subscriber};

    /// The place of the publisher with an id, and `None` if there is none. It is looked for at the
    /// hint first.
    pub fn find_publisher(&self, id: UniquePublisherId, hint: usize) -> Option<usize>
        ensures { MatchOption result (look_up (is_publisher id) self.now.publishers ≡ None)
            (λ i. (x : PublisherFields) × (slice_index_or self.now.publishers i None ≡ Some x) × (x.id ≡ id)) }
    {
        find_place(&self.publishers, id.value(), hint)
    }

    /// The place of a publisher that is there. It is looked for at the hint first.
    pub fn find_live_publisher(&self, id: UniquePublisherId, hint: usize) -> usize
        requires { look_up (is_publisher id) self.now.publishers ≡ None → ⊥ }
        ensures { (x : PublisherFields) × (slice_index_or self.now.publishers result None ≡ Some x) × (x.id ≡ id) }
    {
        find_live_place(&self.publishers, id.value(), hint)
    }

    /// The place of the subscriber with an id, and `None` if there is none. It is looked for at the
    /// hint first.
    pub fn find_subscriber(&self, id: UniqueSubscriberId, hint: usize) -> Option<usize>
        ensures { MatchOption result (look_up (is_subscriber id) self.now.subscribers ≡ None)
            (λ i. (y : SubscriberFields) × (slice_index_or self.now.subscribers i None ≡ Some y) × (y.id ≡ id)) }
    {
        find_place(&self.subscribers, id.value(), hint)
    }
}

/// Makes room for a place, which may be past the end of the list.
pub fn reserve_place<A>(places: &mut Vec<A>, place: usize) -> Result<(), AllocError>
    ensures items { places.new.items ≡ places.old.items }
    ensures grows { vec_capacity places.old ≤ vec_capacity places.new }
    ensures room { OnOk result (place < vec_capacity places.new) }
{
    let len = places.len();
    if place < len {
        return Ok(());
    }
    let Some(additional) = (place - len).checked_add(1) else {
        return Err(AllocError);
    };
    places.try_reserve(additional)
}

/// Clears the key at a place.
pub(crate) fn clear_in(keys: &mut Vec<Option<usize>>, place: usize)
    ensures items { keys.new.items ≡ slice_set keys.old.items place None }
    ensures capacity { vec_capacity keys.new ≡ vec_capacity keys.old }
{
    if place < keys.len() {
        keys[place] = None;
    }
}
