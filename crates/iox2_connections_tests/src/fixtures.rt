//! What the tests start from: a publisher with one slot and a subscriber, between which there is one
//! connection.
ghost use Rattle.std.specs.Prelude.{◌≡◌, IfOk};
ghost use Rattle.iox2_slots.specs.SlotBook.{holders_at};

use iox2_connections::Home;
use iox2_connections::sender::ReceiverDetails;
use iox2_machine::{UniqueNodeId, UniquePublisherId};
use iox2_slots::SlotBook;
use std::alloc::{AllocError, Global};

/// Where the connection is.
pub(crate) const HOME: Home = Home {
    publisher: 1,
    subscriber: 2,
    publisher_place: 0,
    subscriber_place: 0,
    book: 0,
};

/// The subscriber, for which that many messages may wait.
pub(crate) fn receiver(buffer_size: usize, is_open: bool) -> ReceiverDetails
    ensures port { result.port_id ≡ 2 }
    ensures buffer { result.buffer_size ≡ buffer_size }
    ensures open { result.is_open ≡ is_open }
{
    ReceiverDetails {
        port_id: 2,
        buffer_size,
        is_open,
    }
}

/// The publisher's book, and its slot, which is taken.
pub(crate) fn taken_slot(alloc: Global) -> Result<(SlotBook, usize), AllocError>
    ensures { IfOk result (λ it. holders_at it.0 it.1 ≡ 1) }
{
    let node = UniqueNodeId::new(1);
    let mut book = SlotBook::new(alloc, node, UniquePublisherId::new(1), 1)?;
    let slot = book.take(1, 1).unwrap();
    Ok((book, slot))
}
