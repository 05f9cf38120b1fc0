//! A publisher reclaims the slots that its subscribers gave back.
ghost use Rattle.std.specs.Prelude.{◌≡◌, ◌^◌, None, Some, slice_index_or};
ghost use Rattle.iox2_connections.specs.Receivers.{HasReclaimed};
ghost use Rattle.iox2_domain.specs.Ports.{PublisherFields};
ghost use Rattle.iox2_domain.specs.Kept.{state_of};
ghost use Rattle.iox2_domain.specs.Fields.{kept_of};
ghost use Rattle.iox2_domain.specs.Invariant.{IsDomain};
ghost use Rattle.iox2_domain.specs.Reaches.{Reaches};
ghost use Rattle.iox2_updates.specs.Holders.{HasFewHolders};

use iox2_connections::sender::reclaim_all;
use iox2_domain::DomainState;

/// The publisher at a place reclaims every slot that was given back in its connections. After that
/// each connection has a slot at most once.
#[inline(never)]
pub fn reclaim<T: Drop, U: Default + Drop>(state: &mut DomainState<T, U>, place: usize)
    requires agrees { IsDomain state.old }
    requires stands { (x : PublisherFields) × (slice_index_or state.old.publishers place None ≡ Some x) }
    ensures reaches { Reaches state.old state.new (state_of (kept_of state.old)) }
    ensures only { state.new ≡ record state.old { connections = state.new.connections; books = state.new.books } }
    ensures reclaimed { (x : PublisherFields) → slice_index_or state.old.publishers place None ≡ Some x → HasReclaimed state.new.connections x.keys }
    ensures few { (x : PublisherFields) → slice_index_or state.old.publishers place None ≡ Some x → HasFewHolders state.new.books x.book (2 ^ 62) }
{
    let Some(publisher) = &state.publishers[place] else {
        unreachable!();
    };
    reclaim_all(
        publisher.id.value(),
        &mut state.connections,
        &mut state.books[publisher.book],
        &publisher.keys,
    );
}
