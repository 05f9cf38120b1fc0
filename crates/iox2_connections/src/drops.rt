//! What waits in a connection is lost.
ghost use Rattle.std.specs.Prelude.{◌≡◌, [], IsSomeAnd};
ghost use Rattle.slab.specs.Slab.{get};
ghost use Rattle.iox2_connections.specs.Counters.{with_counters};
ghost use Rattle.iox2_connections.specs.Reclaims.{IsHeld};
ghost use Rattle.iox2_connections.specs.Drops.{DropsFrom, DropsWaiting};

use crate::connection::Connection;
use iox2_slots::SlotBook;
use slab::Slab;

/// Lets go of all slots that wait in a connection. Each of them has one holder less.
pub fn drop_waiting(connection: &mut Connection, book: &mut SlotBook)
    requires { IsHeld book.old.holders connection.old }
    ensures book { book.new ≡ with_counters book.old book.new.holders }
    ensures drops { DropsFrom book.old.holders connection.old book.new.holders connection.new }
    ensures all { connection.new.waiting ≡ [] }
    ensures others { connection.new.others ≡ [] }
{
    while let Some(slot) = connection.drop_first() {
        book.release(slot);
    }
    drop_others(connection, book);
}

// The same of the channels other than 0.
fn drop_others(connection: &mut Connection, book: &mut SlotBook)
    requires { IsHeld book.old.holders connection.old }
    ensures book { book.new ≡ with_counters book.old book.new.holders }
    ensures drops { DropsFrom book.old.holders connection.old book.new.holders connection.new }
    ensures kept { connection.new ≡ record connection.old { others = [] } }
{
    while let Some(slot) = connection.drop_other() {
        book.release(slot);
    }
}

/// Lets go of all slots that wait in the connection at a key. Each of them has one holder less in the
/// book of its publisher.
///
/// This library's own: in iceoryx2 a connection that its receiver has left takes the offsets in its
/// submission queue with it (`src/port/details/receiver.rs`).
pub fn drop_waiting_at(connections: &mut Slab<Connection>, key: usize, book: &mut SlotBook)
    requires { IsSomeAnd (get connections.old key) (IsHeld book.old.holders) }
    ensures book { book.new ≡ with_counters book.old book.new.holders }
    ensures drops { DropsWaiting key book.old.holders connections.old book.new.holders connections.new }
{
    drop_waiting(&mut connections[key], book);
}
