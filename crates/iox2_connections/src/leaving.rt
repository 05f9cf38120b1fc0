//! A publisher that closes leaves its connections and its history.
ghost use Rattle.std.specs.Prelude.{◌≡◌, ℕ, ◌≤◌};
ghost use Rattle.iox2_slots.specs.SlotBook.{holders_at};
ghost use Rattle.iox2_connections.specs.Counters.{times, with_counters};
ghost use Rattle.iox2_connections.specs.Reclaims.{IsHeld};
ghost use Rattle.iox2_connections.specs.Leaves.{left_link, ReleasesFrom, Releases};

use crate::connection::Connection;
use crate::drops::drop_waiting;
use crate::sender::reclaim_from;
use circular_buffer::HeapCircularBuffer;
use iox2_slots::SlotBook;

/// Leaves a connection, as a publisher that closes does. What was given back is reclaimed, and what
/// waits is lost if nobody awaits it. Each slot that went has one holder less.
///
/// iceoryx2's `Sender` drops its end of the connection (`src/port/details/sender.rs`).
pub fn leave(connection: &mut Connection, book: &mut SlotBook, awaited: bool)
    requires { IsHeld book.old.holders connection.old }
    ensures connection { connection.new ≡ left_link awaited connection.old }
    ensures book { book.new ≡ with_counters book.old book.new.holders }
    ensures releases { ReleasesFrom book.old.holders connection.old book.new.holders connection.new }
{
    reclaim_from(connection, book);
    if !awaited {
        drop_waiting(connection, book);
    }
}

/// Lets go of the slots of a publisher's history. Each of them has one holder less.
///
/// iceoryx2's `PublisherSharedState` drops its history (`src/port/publisher.rs`).
pub fn let_go_of_history(history: &HeapCircularBuffer<usize>, book: &mut SlotBook)
    requires { (slot : ℕ) → times slot history.now.items ≤ holders_at book.old slot }
    ensures book { book.new ≡ with_counters book.old book.new.holders }
    ensures releases { Releases history.now.items book.old.holders book.new.holders }
{
    for index in 0..history.len() {
        if let Some(slot) = history.get(index) {
            book.release(*slot);
        }
    }
}
