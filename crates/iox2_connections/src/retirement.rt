//! What becomes of a departed publisher's connection when its place at a subscriber is needed.
ghost use Rattle.std.specs.Prelude.{◌≡◌, ℕ, true};
ghost use Rattle.slab.specs.Slab.{get, ContainsKey};
ghost use Rattle.iox2_machine.specs.machine.Numbers.{contains};
ghost use Rattle.iox2_connections.specs.Retires.{has_borrowed, first_unborrowed, chosen};

use crate::connection::Connection;
use slab::Slab;

/// What becomes of a departed publisher's connection.
#[derive(Clone, Copy)]
pub enum Retirement {
    /// It is kept among the expired ones.
    KeepExpired,
    /// The same, and the expired one at this key goes to make room.
    Evict(usize),
    /// What waits in it is lost.
    DiscardData,
    /// It stays where it is, and the update fails.
    Refuse,
}

// Whether something is borrowed from the connection at a key.
fn has_borrowed(connections: &Slab<Connection>, key: usize) -> bool
    requires { ContainsKey connections.now key }
    ensures { result ≡ has_borrowed (get connections.now key) }
{
    !connections[key].borrowed().is_empty()
}

// The key of the first of these connections from which nothing is borrowed.
fn first_unborrowed(connections: &Slab<Connection>, keys: &[usize]) -> Option<usize>
    requires { (key : ℕ) → contains keys.now key ≡ true → ContainsKey connections.now key }
    ensures { result ≡ first_unborrowed connections.now keys.now }
{
    for index in 0..keys.len() {
        if !has_borrowed(connections, keys[index]) {
            return Some(keys[index]);
        }
    }
    None
}

/// What becomes of the connection at a key, if `limit` expired ones may be kept and these already
/// are.
///
/// iceoryx2's `Receiver::prepare_connection_removal` (`src/port/details/receiver.rs`).
pub fn choose_retirement(
    connections: &Slab<Connection>,
    limit: usize,
    expired: &[usize],
    key: usize,
) -> Retirement
    requires at { ContainsKey connections.now key }
    requires expired { (key : ℕ) → contains expired.now key ≡ true → ContainsKey connections.now key }
    ensures { result ≡ chosen connections.now limit expired.now key }
{
    if expired.len() < limit {
        return Retirement::KeepExpired;
    }
    if !has_borrowed(connections, key) {
        return Retirement::DiscardData;
    }
    match first_unborrowed(connections, expired) {
        Some(first) => Retirement::Evict(first),
        None => Retirement::Refuse,
    }
}
