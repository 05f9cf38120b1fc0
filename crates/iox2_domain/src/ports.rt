//! What publishers and subscribers have in common.
ghost use Rattle.std.specs.Prelude.{◌≡◌, ◌<◌, ◌≤◌, ℕ, Bool, true, false, List, None, Some, length, map, slice_index_or, OnOk};
ghost use Rattle.std.specs.Option.{option_map};
ghost use Rattle.iox2_domain.specs.Handlers.{handler_of};
ghost use Rattle.iox2_domain.specs.Updates.{changed_at, is_due_at, key_at, room_at};

use crate::handlers::HandlerMark;
use iox2_machine::DegradationAction;
use std::alloc::AllocError;

/// Names a port, and says where it is looked for first.
#[derive(Drop)]
pub struct PortAt<I> {
    /// Its id.
    pub id: I,
    /// The place at which it is looked for first.
    pub place: usize,
}

/// A port has an id, which no other port of its side has, and the keys of its connections by the
/// places of the other side's ports. It may be due for an update.
pub trait Port {
    ghost use Rattle.std.specs.declared.option.Option.{Option};
    ghost use Rattle.iox2_machine.specs.machine.Records.{Handler};
    ghost use Rattle.iox2_machine.specs.declared.degradation.DegradationAction.{DegradationAction};

    ghost number: { Self → ℕ };

    ghost keys: { Self → List (Option ℕ) };

    ghost key_room: { Self → ℕ };

    ghost is_due: { Self → Bool };

    ghost degradation: { Self → Handler DegradationAction };

    ghost with_key: { (place key : ℕ) → Self → Self };

    ghost without_key: { (place : ℕ) → Self → Self };

    ghost with_room: { (room : ℕ) → Self → Self };

    ghost with_due: { (due : Bool) → Self → Self };

    /// The number of its id.
    fn number(&self) -> u128
        ensures { result ≡ number self.now };

    /// The key of its connection with the port at a place of the other side.
    fn key(&self, place: usize) -> Option<usize>
        ensures { result ≡ slice_index_or (keys self.now) place None };

    /// Makes room for the key of its connection with the port at a place of the other side.
    fn reserve_key(&mut self, place: usize) -> Result<(), AllocError>
        ensures same { self.new ≡ with_room (key_room self.new) self.old }
        ensures grows { key_room self.old ≤ key_room self.new }
        ensures room { OnOk result (place < key_room self.new) };

    /// Gives it the key of its connection with the port at a place of the other side.
    fn set_key(&mut self, place: usize, key: usize)
        requires { place < key_room self.old }
        ensures { self.new ≡ with_key place key self.old };

    /// It has no key at a place of the other side any more.
    fn clear_key(&mut self, place: usize)
        ensures { self.new ≡ without_key place self.old };

    /// Whether it is due for an update.
    fn is_due(&self) -> bool
        ensures { result ≡ is_due self.now };

    /// Says whether it is due for an update.
    fn set_due(&mut self, due: bool)
        ensures { self.new ≡ with_due due self.old };

    /// What answers for it when it can't make a connection.
    fn degradation(&self) -> HandlerMark<DegradationAction>
        ensures { degradation self.now ≡ handler_of result };
}

/// The key that the port at a place has for its connection with the port at another place, of the
/// other side.
pub fn key_at<P: Port>(ports: &[Option<P>], place: usize, other: usize) -> Option<usize>
    ensures { result ≡ key_at P.keys ports.now place other }
{
    match ports.get(place) {
        Some(Some(port)) => port.key(other),
        _ => None,
    }
}

/// Makes room in the port at a place for the key of its connection with the port at another place,
/// of the other side.
pub fn reserve_key_at<P: Port>(
    ports: &mut [Option<P>],
    place: usize,
    other: usize,
) -> Result<(), AllocError>
    requires stands { place < length ports.old }
    ensures same { ports.new ≡ changed_at (P.with_room (room_at P.key_room ports.new place)) ports.old place }
    ensures grows { room_at P.key_room ports.old place ≤ room_at P.key_room ports.new place }
    ensures room { OnOk result ((x : _) → slice_index_or ports.new place None ≡ Some x → other < P.key_room x) }
{
    match &mut ports[place] {
        Some(port) => port.reserve_key(other),
        None => Ok(()),
    }
}

/// Gives the port at a place the key of its connection with the port at another place, of the other
/// side.
pub fn set_key_at<P: Port>(ports: &mut [Option<P>], place: usize, other: usize, key: usize)
    requires stands { place < length ports.old }
    requires room { (x : _) → slice_index_or ports.old place None ≡ Some x → other < P.key_room x }
    ensures { ports.new ≡ changed_at (P.with_key other key) ports.old place }
{
    if let Some(port) = &mut ports[place] {
        port.set_key(other, key);
    }
}

/// The port at a place no longer has a key at another place, of the other side.
pub fn clear_key_at<P: Port>(ports: &mut [Option<P>], place: usize, other: usize)
    requires { place < length ports.old }
    ensures { ports.new ≡ changed_at (P.without_key other) ports.old place }
{
    if let Some(port) = &mut ports[place] {
        port.clear_key(other);
    }
}

/// Whether a port at the place is due for an update.
pub fn is_due_at<P: Port>(ports: &[Option<P>], place: usize) -> bool
    requires { place < length ports.now }
    ensures { result ≡ is_due_at P.is_due ports.now place }
{
    match &ports[place] {
        Some(port) => port.is_due(),
        None => false,
    }
}

/// What answers for the port at a place when it can't make a connection.
pub fn degradation_at<P: Port>(ports: &[Option<P>], place: usize) -> HandlerMark<DegradationAction>
    requires { (x : _) × (slice_index_or ports.now place None ≡ Some x) }
    ensures { (x : _) → slice_index_or ports.now place None ≡ Some x → P.degradation x ≡ handler_of result }
{
    let Some(port) = &ports[place] else {
        unreachable!();
    };
    port.degradation()
}

/// The port at the place isn't due any more.
pub fn clear_due<P: Port>(ports: &mut [Option<P>], place: usize)
    requires { place < length ports.old }
    ensures { ports.new ≡ changed_at (P.with_due false) ports.old place }
{
    set_due(&mut ports[place], false);
}

/// The port at the place is due for an update.
pub fn make_due<P: Port>(ports: &mut [Option<P>], place: usize)
    requires { place < length ports.old }
    ensures { ports.new ≡ changed_at (P.with_due true) ports.old place }
{
    set_due(&mut ports[place], true);
}

/// Each port is due for an update.
pub fn make_all_due<P: Port>(ports: &mut [Option<P>])
    ensures { ports.new ≡ map (option_map (P.with_due true)) ports.old }
{
    for place in 0..ports.len() {
        set_due(&mut ports[place], true);
    }
}

fn set_due<P: Port>(port: &mut Option<P>, due: bool)
    ensures { port.new ≡ option_map (P.with_due due) port.old }
{
    if let Some(port) = port {
        port.set_due(due);
    }
}
