//! Where a sample lies. The slot that its handle names is tested first.
ghost use Rattle.std.specs.Prelude.{◌≡◌, ◌↔◌, IsTrue};
ghost use Rattle.iox2_machine.specs.machine.SingleCalls.{HoldsSample};
ghost use Rattle.iox2_domain.specs.Kept.{state_of};
ghost use Rattle.iox2_domain.specs.Fields.{kept_of};
ghost use Rattle.iox2_domain.specs.Invariant.{HasNumber, IsDomain};
ghost use Rattle.iox2_domain.specs.SampleSlots.{IsReturnable, LiesAtHint, LiesBorrowed};

use iox2_connections::Connection;
use iox2_connections::receiver::{BorrowedMessage, is_last_at};
use iox2_domain::{DomainState, SampleAt, SampleSlot};

/// The slot that the sample names is in use and has its number. No other slot in use has it.
fn is_at_slot<T: Drop, U: Default + Drop>(state: &DomainState<T, U>, sample: &SampleAt) -> bool
    ensures { IsTrue result ↔ HasNumber state.now.books sample.now.book sample.now.slot sample.now.number }
{
    match state.books.get(sample.book) {
        Some(book) => book.has(sample.slot, sample.number),
        None => false,
    }
}

// The connection is the subscriber's, and the book that the sample names is its publisher's.
fn is_named(connection: &Connection, sample: &SampleAt) -> bool
    ensures { IsTrue result ↔ ((connection.now.home.subscriber ≡ sample.now.subscriber) × (connection.now.home.book ≡ sample.now.book)) }
{
    let home = connection.home();
    home.subscriber == sample.subscriber.value() && home.book == sample.book
}

/// The message of a sample, as the subscriber's end names it.
pub(crate) fn message_of(sample: &SampleAt) -> BorrowedMessage
    ensures { result ≡ record { subscriber = sample.now.subscriber; book = sample.now.book; slot = sample.now.slot; number = sample.now.number } }
{
    BorrowedMessage {
        subscriber: sample.subscriber.value(),
        book: sample.book,
        slot: sample.slot,
        number: sample.number,
    }
}

/// Whether a sample lies in the connection and the slot that it names, and was borrowed last there, and
/// both ports of that connection stay: the publisher is there, and the subscriber is open. It is mostly
/// so.
pub fn is_last_at_hint<T: Drop, U: Default + Drop>(
    state: &mut DomainState<T, U>,
    sample: &SampleAt,
) -> bool
    requires { IsDomain state.old }
    ensures returnable { IsTrue result → IsReturnable state.old sample.now }
    ensures same { state.new ≡ state.old }
{
    is_last_at(
        &state.connections,
        &mut state.books,
        sample.connection,
        message_of(sample),
    )
}

// Whether a live sample lies in the connection and the slot that it names.
fn is_at_hint<T: Drop, U: Default + Drop>(state: &DomainState<T, U>, sample: &SampleAt) -> bool
    requires domain { IsDomain state.now }
    requires live { HoldsSample (state_of (kept_of state.now)) sample.now.subscriber sample.now.number }
    ensures { IsTrue result → LiesAtHint state.now sample.now }
{
    match state.connections.get(sample.connection) {
        Some(connection) => is_named(connection, sample) && is_at_slot(state, sample),
        None => false,
    }
}

/// Where a live sample lies. The connection and the slot that it names are tested first.
pub(crate) fn find_live_sample<T: Drop, U: Default + Drop>(
    state: &DomainState<T, U>,
    sample: &SampleAt,
) -> SampleSlot
    requires domain { IsDomain state.now }
    requires live { HoldsSample (state_of (kept_of state.now)) sample.now.subscriber sample.now.number }
    ensures { LiesBorrowed state.now sample.now.subscriber sample.now.number result }
{
    if is_at_hint(state, sample) {
        return SampleSlot {
            connection: sample.connection,
            book: sample.book,
            slot: sample.slot,
        };
    }
    state.search_sample(sample)
}
