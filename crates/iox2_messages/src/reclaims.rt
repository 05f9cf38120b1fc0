//! A publisher reclaims the slots that its subscribers gave back.
ghost use Rattle.std.specs.Prelude.{◌≡◌, ◌<◌, ◌↔◌, IsTrue};
ghost use Rattle.std.specs.List.{All};
ghost use Rattle.iox2_connections.specs.Counters.{IsCovered, with_counters};
ghost use Rattle.iox2_connections.specs.Homes.{IsApart, IsSenderLinked};
ghost use Rattle.iox2_connections.specs.Reclaims.{Reclaims};
ghost use Rattle.iox2_connections.specs.Receivers.{HasReclaimed};

use iox2_connections::Connection;
use iox2_connections::sender::reclaim_all;
use iox2_domain::PublisherState;
use iox2_slots::SlotBook;
use slab::Slab;

/// A publisher reclaims every slot of its book that was given back in its connections, if none of its
/// slots is free. A slot that nobody else holds is free then. Returns whether none is free even so. The
/// book is asked anew only where slots were reclaimed
/// (docs/DECISIONS.md, "What a message takes is cleared and asked once").
#[inline(always)]
pub(crate) fn reclaim_if_full(
    publisher: &PublisherState,
    connections: &mut Slab<Connection>,
    book: &mut SlotBook,
) -> bool
    requires linked { IsSenderLinked publisher.now.id connections.old publisher.now.keys }
    requires apart { IsApart connections.old }
    requires covered { IsCovered publisher.now.id book.old.holders connections.old.slots }
    ensures book { book.new ≡ with_counters book.old book.new.holders }
    ensures reclaims { Reclaims publisher.now.id book.old.holders connections.old book.new.holders connections.new }
    ensures all { All (λ n. 0 < n) book.new.holders → HasReclaimed connections.new publisher.now.keys }
    ensures kept { (All (λ n. 0 < n) book.old.holders → ⊥) → book.new ≡ book.old }
    ensures full { IsTrue result ↔ All (λ n. 0 < n) book.new.holders }
{
    if !book.is_full() {
        return false;
    }
    reclaim_into(publisher, connections, book);
    book.is_full()
}

// A publisher reclaims every slot of its book that was given back in its connections.
#[cold]
#[inline(never)]
fn reclaim_into(publisher: &PublisherState, connections: &mut Slab<Connection>, book: &mut SlotBook)
    requires linked { IsSenderLinked publisher.now.id connections.old publisher.now.keys }
    requires apart { IsApart connections.old }
    requires covered { IsCovered publisher.now.id book.old.holders connections.old.slots }
    ensures book { book.new ≡ with_counters book.old book.new.holders }
    ensures reclaims { Reclaims publisher.now.id book.old.holders connections.old book.new.holders connections.new }
    ensures all { HasReclaimed connections.new publisher.now.keys }
{
    reclaim_all(publisher.id.value(), connections, book, &publisher.keys);
}
