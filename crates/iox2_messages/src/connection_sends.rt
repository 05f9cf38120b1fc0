//! A loan is sent to one connection of its publisher.
ghost use Rattle.std.specs.Prelude.{◌≡◌, ◌<◌, false, None, Some, length, slice_index_or};
ghost use Rattle.std.specs.Option.{is_some};
ghost use Rattle.slab.specs.Slab.{get};
ghost use Rattle.iox2_slots.specs.SlotBook.{Book};
ghost use Rattle.iox2_machine.specs.machine.Limits.{channel_count};
ghost use Rattle.iox2_machine.specs.machine.State.{is_blocked};
ghost use Rattle.iox2_domain.specs.Boxes.{answers_of};
ghost use Rattle.iox2_domain.specs.ConnectionSends.{begun_at, begun_delivery, with_begun, SendsKeptLoanTo};
ghost use Rattle.iox2_domain.specs.Fields.{kept_of};
ghost use Rattle.iox2_domain.specs.Invariant.{IsDomain};
ghost use Rattle.iox2_domain.specs.Kept.{state_of};
ghost use Rattle.iox2_domain.specs.LoanCalls.{HoldsWritten};
ghost use Rattle.iox2_domain.specs.Ports.{PublisherFields};
ghost use Rattle.iox2_messages.specs.SendEnds.{end_result};

use crate::blocked_sends::{Resumption, go_on};
use crate::discards::discard_loan;
use crate::hinted_loans::find_live_loan;
use crate::send_end::SendEnd;
use iox2_connections::sender::Progress;
use iox2_domain::{BlockedDelivery, Boxes, DomainState, LoanAt, Port};
use iox2_machine::{BackpressureFn, DegradationFn};
use iox2_slots::SlotMark;
use iox2_updates::reclaim;
use std::time::Duration;

// Whether the publisher at a place has a connection at that place of its own.
fn has_connection<T: Drop, U: Default + Drop>(
    state: &DomainState<T, U>,
    place: usize,
    connection: usize,
) -> bool
    requires { (x : PublisherFields) × (slice_index_or state.now.publishers place None ≡ Some x) }
    ensures { (x : PublisherFields) → slice_index_or state.now.publishers place None ≡ Some x → result ≡ is_some (slice_index_or x.keys connection None) }
{
    let Some(publisher) = &state.publishers[place] else {
        unreachable!();
    };
    publisher.key(connection).is_some()
}

// The receiver of the connection wasn't asked yet.
fn begun_at(connection: usize) -> Progress
    ensures { result ≡ begun_at connection }
{
    Progress {
        place: connection,
        ..Progress::default()
    }
}

// The publisher at a place waits with its loan in a slot for the receiver of one connection, which
// wasn't asked yet. The loan is a message from then on.
fn begin<T: Drop, U: Default + Drop>(
    state: &mut DomainState<T, U>,
    place: usize,
    slot: usize,
    channel: usize,
    connection: usize,
)
    requires { (x : PublisherFields) × (b : Book) × (slice_index_or state.old.publishers place None ≡ Some x)
        × (get state.old.books x.book ≡ Some b) × (slot < length b.holders) }
    ensures { (x : PublisherFields) (b : Book) → slice_index_or state.old.publishers place None ≡ Some x → get state.old.books x.book ≡ Some b
        → state.new ≡ with_begun state.old place x (begun_delivery slot channel connection) b }
{
    let Some(publisher) = &mut state.publishers[place] else {
        unreachable!();
    };
    publisher.blocked = Some(BlockedDelivery {
        slot,
        channel,
        is_alone: true,
        progress: begun_at(connection),
    });
    let book = &mut state.books[publisher.book];
    book.set_mark(slot, SlotMark::Sent);
}

/// Sends a publisher's written loan into a channel of the connection at one of the publisher's places,
/// and to nobody else. Connections aren't updated, and the message enters no history. Without that
/// connection nobody gets the message. Of a publisher that is gone the loan is lost. The loan is out no
/// more afterwards, unless the send is blocked. It takes no memory.
///
/// It is a send that waits at that connection before anybody was asked, and that goes on: so retrying
/// it and giving it up are those of any other.
///
/// iceoryx2's `Sender::deliver_offset_to_connection` (`src/port/details/sender.rs`).
pub fn send_to_connection<T: Drop, U: Default + Drop, F: BackpressureFn, G: DegradationFn>(
    state: &mut DomainState<T, U>,
    boxes: &Boxes<F, G>,
    loan: LoanAt,
    channel: usize,
    connection: usize,
) -> SendEnd
    requires agrees { IsDomain state.old }
    requires live { HoldsWritten (state_of (kept_of state.old)) loan.publisher loan.number }
    requires unblocked { is_blocked (state_of (kept_of state.old)) loan.publisher ≡ false }
    requires channel { channel < channel_count state.old.config }
    ensures { SendsKeptLoanTo (answers_of F.allows G.allows (boxes.now).boxes) state.old state.new loan.number channel connection (end_result result) }
{
    let Some(place) = state.find_publisher(loan.publisher, loan.place) else {
        discard_loan(state, loan);
        return SendEnd::Lost;
    };
    if !has_connection(state, place, connection) {
        discard_loan(state, loan);
        return SendEnd::Delivered(0);
    }
    let at = find_live_loan(state, &loan);
    begin(state, place, at.slot, channel, connection);
    reclaim(state, place);
    let from = Resumption {
        start: begun_at(connection),
        elapsed: Duration::ZERO,
    };
    SendEnd::of(go_on(state, boxes, place, from))
}
