ghost use Rattle.std.specs.Prelude.{◌≡◌, ◌<◌, ◌∷◌, [], length};
ghost use Rattle.iox2_connections.specs.Link.{empty_link};

use iox2_connections::{CHANNEL_STATE_CLOSED, CHANNEL_STATE_OPEN, Connection, Home, PutOutcome};
use std::alloc::Global;
use std::process::Abort;

const HOME: Home = Home {
    publisher: 1,
    subscriber: 2,
    publisher_place: 3,
    subscriber_place: 4,
    book: 5,
};

// A connection in which two slots may wait and one may be borrowed.
fn connection(rt: &impl Abort, alloc: Global) -> Connection
    ensures { result ≡ empty_link result.home 2 1 1 }
{
    Connection::new(alloc, HOME, 2, 1, 1).expect(rt, "a connection")
}

#[test]
fn a_connection_knows_its_ports_and_the_mark_that_was_set_last(rt: HostRuntime) {
    let mut connection = connection(&rt, rt.alloc());
    let home = connection.home();
    let buffer = connection.buffer();
    let unmarked = connection.is_open();
    connection.set_open(true);
    let marked = connection.is_open();
    connection.set_open(false);
    let cleared = connection.is_open();
    drop(connection);
    assert!(rt; home == HOME && buffer == 2);
    assert!(rt; [unmarked, marked, cleared] == [false, true, false]);
}

#[test]
fn a_slot_that_waits_can_be_received(rt: HostRuntime) {
    let mut connection = connection(&rt, rt.alloc());
    let empty = connection.has_data();
    let put = connection.put(0, 7, false);
    let ready = [connection.has_data(), connection.can_receive()];
    drop(connection);
    assert!(rt; !empty && put == PutOutcome::Taken && ready == [true, true]);
}

// A connection from which the slot 7 is borrowed.
fn lending_seven(rt: &impl Abort, alloc: Global) -> Connection
    ensures { result.borrowed ≡ 7 ∷ [] }
{
    let mut connection = connection(rt, alloc);
    connection.put(0, 7, false);
    connection.take();
    assert!(rt; connection.borrowed() == [7].as_slice());
    connection
}

#[test]
fn a_borrowed_slot_goes_back(rt: HostRuntime) {
    let mut connection = lending_seven(&rt, rt.alloc());
    let held = [connection.is_borrowed(7), connection.is_borrowed(8)];
    let full = connection.can_receive();
    connection.release(7);
    let borrowed = connection.is_borrowed(7);
    let reclaimed = [connection.reclaim(), connection.reclaim()];
    drop(connection);
    assert!(rt; held == [true, false] && !full && !borrowed);
    assert!(rt; reclaimed == [Some(7), None]);
}

#[test]
fn a_borrowed_slot_is_let_go(rt: HostRuntime) {
    let mut connection = lending_seven(&rt, rt.alloc());
    let held = connection.is_empty();
    connection.let_go(7);
    let left = [connection.is_borrowed(7), connection.is_empty()];
    let reclaimed = connection.reclaim();
    drop(connection);
    assert!(rt; !held && left == [false, true] && reclaimed == None);
}

#[test]
fn waiting_slots_go(rt: HostRuntime) {
    let mut connection = connection(&rt, rt.alloc());
    connection.put(0, 7, false);
    connection.put(0, 8, false);
    let unused = connection.has_borrowed();
    let taken = connection.take();
    let gone = [connection.drop_first(), connection.drop_first()];
    let left = [connection.has_data(), connection.has_borrowed()];
    drop(connection);
    assert!(rt; !unused && taken == Some(7));
    assert!(rt; gone == [Some(8), None] && left == [false, true]);
}

#[test]
fn too_much_room_is_refused(rt: HostRuntime) {
    for (buffer, limit) in [(usize::MAX, 1), (1, usize::MAX - 1)] {
        assert!(rt; Connection::new(rt.alloc(), HOME, buffer, limit, 1).is_err());
    }
}

// The states of three channels, and that of one which isn't there.
fn states(connection: &Connection) -> [u64; 4] {
    [
        connection.channel_state(0),
        connection.channel_state(1),
        connection.channel_state(2),
        connection.channel_state(3),
    ]
}

// Whether a disconnect is hinted in each of them.
fn hints(connection: &Connection) -> [bool; 4] {
    [
        connection.has_disconnect_hint(0),
        connection.has_disconnect_hint(1),
        connection.has_disconnect_hint(2),
        connection.has_disconnect_hint(3),
    ]
}

#[test]
fn each_channel_has_a_state_of_its_own(rt: HostRuntime) {
    let mut connection = Connection::new(rt.alloc(), HOME, 2, 1, 3).expect(&rt, "a connection");
    connection.set_open(true);
    connection.change_state(2, 5, 6);
    connection.change_state(2, CHANNEL_STATE_OPEN, CHANNEL_STATE_CLOSED);
    connection.set_disconnect_hint(1, CHANNEL_STATE_OPEN);
    connection.set_disconnect_hint(3, CHANNEL_STATE_OPEN);
    let states = states(&connection);
    let hints = hints(&connection);
    let marked = connection.is_open() && !connection.is_closed(0);
    connection.change_state(0, CHANNEL_STATE_OPEN, CHANNEL_STATE_CLOSED);
    let unmarked = !connection.is_open() && connection.is_closed(0) && !connection.is_closed(1);
    drop(connection);
    assert!(rt; states == [0, 0, u64::MAX, 0]);
    assert!(rt; hints == [false, true, false, false]);
    assert!(rt; marked && unmarked);
}

// Fills the second of three channels. Two slots may wait in each channel.
fn fill(connection: &mut Connection) -> [PutOutcome; 6]
    requires channels { length connection.old.channels ≡ 3 }
    requires returned { connection.old.returned ≡ [] }
    requires borrowed { connection.old.borrowed ≡ [] }
    requires limit { connection.old.limit ≡ 1 }
    ensures { length connection.new.borrowed < connection.new.limit }
{
    [
        connection.put(2, 5, false),
        connection.put(1, 6, false),
        connection.put(1, 7, false),
        connection.put(1, 8, false),
        connection.put(1, 8, true),
        connection.put(0, 9, false),
    ]
}

#[test]
fn each_channel_fills_by_itself_and_they_are_emptied_by_rising_number(rt: HostRuntime) {
    let made = Connection::new(rt.alloc(), HOME, 2, 1, 3);
    let mut connection = made.expect(&rt, "a connection");
    let put = fill(&mut connection);
    let waits = [connection.has_data(), connection.has_other_data()];
    let taken = connection.take();
    let gone = [
        connection.drop_other(),
        connection.drop_other(),
        connection.drop_other(),
        connection.drop_other(),
    ];
    drop(connection);
    let expected = [
        PutOutcome::Taken,
        PutOutcome::Taken,
        PutOutcome::Taken,
        PutOutcome::Full,
        PutOutcome::Overwrote(6),
        PutOutcome::Taken,
    ];
    assert!(rt; put == expected && waits == [true, true]);
    assert!(rt; taken == Some(9) && gone == [Some(7), Some(8), Some(5), None]);
}
