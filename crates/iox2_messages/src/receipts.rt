//! Messages that a subscriber takes from its connections, and gives back.
ghost use Rattle.std.specs.Prelude.{◌≡◌, ◌<◌, ℕ, None, Some, length, slice_index_or, Contains, IsTrue, IsSomeAnd};
ghost use Rattle.slab.specs.Slab.{get};
ghost use Rattle.iox2_domain.specs.Boxes.{answers_of};
ghost use Rattle.iox2_machine.specs.machine.Mailbox.{is_borrowed};
ghost use Rattle.iox2_machine.specs.machine.Releases.{released, subscriber_pruned, unborrowed};
ghost use Rattle.iox2_machine.specs.machine.SingleCalls.{HoldsSample};
ghost use Rattle.iox2_domain.specs.Ports.{SubscriberFields};
ghost use Rattle.iox2_domain.specs.Kept.{state_of};
ghost use Rattle.iox2_domain.specs.Fields.{kept_of, number_in_slot};
ghost use Rattle.iox2_domain.specs.Invariant.{IsDomain};
ghost use Rattle.iox2_domain.specs.Reaches.{Reaches};
ghost use Rattle.iox2_domain.specs.Midway.{IsMidway};
ghost use Rattle.iox2_domain.specs.Receipts.{IsReceiptFor, TakesAs, ReceivesAs};
ghost use Rattle.iox2_domain.specs.Updates.{is_subscriber_due};

use crate::hinted_samples::{find_live_sample, message_of};
use iox2_connections::receiver::{Taken, let_go, receive, release, release_if_last};
use iox2_connections::{Connection, Home};
use iox2_domain::{Boxes, DomainState, Receipt, SampleAt, SampleSlot, stands_at};
use iox2_machine::{
    BackpressureFn, DegradationFn, ReceiveError, UniquePublisherId, UniqueSubscriberId,
};
use iox2_slots::SlotBook;
use iox2_updates::{forget_if_empty, leave_if_unused, settle_book_if_left, update_subscriber};
use slab::Slab;

// The receipt of a message that was taken. Where the connection stands is read from it as it is now,
// after the message was taken, so that a release which follows finds it read and compared. Look-ups in
// what may be written test less, and nothing is written.
// (docs/DECISIONS.md, "A receipt reads its connection after the message was taken".)
fn receipt_of(
    connections: &mut Slab<Connection>,
    books: &mut Slab<SlotBook>,
    taken: Taken,
) -> Receipt
    requires home { IsSomeAnd (get connections.old taken.connection) (λ c. c.home ≡ taken.home) }
    requires within { IsSomeAnd (get books.old (taken.home).book) (λ b. taken.slot < length b.holders) }
    ensures receipt { IsReceiptFor books.old taken result }
    ensures same_connections { connections.new ≡ connections.old }
    ensures same_books { books.new ≡ books.old }
{
    let connection = &mut connections[taken.connection];
    let home = connection.home();
    let book = &mut books[home.book];
    let sample = SampleAt {
        subscriber: UniqueSubscriberId::new(home.subscriber),
        number: book.number(taken.slot),
        connection: taken.connection,
        book: home.book,
        slot: taken.slot,
    };
    Receipt {
        publisher: UniquePublisherId::new(home.publisher),
        sample,
    }
}

// The subscriber at a place borrows a message, if one waits in a connection from which it may borrow
// one more.
#[inline(always)]
fn take_at<T: Drop, U: Default + Drop>(
    state: &mut DomainState<T, U>,
    place: usize,
) -> Result<Option<Receipt>, ReceiveError>
    requires agrees { IsDomain state.old }
    requires stands { (y : SubscriberFields) × (slice_index_or state.old.subscribers place None ≡ Some y) }
    ensures { (y : SubscriberFields) → slice_index_or state.old.subscribers place None ≡ Some y → TakesAs state.old y.id result state.new }
{
    let Some(subscriber) = &mut state.subscribers[place] else {
        unreachable!()
    };
    let taken = receive(
        &mut state.connections,
        &subscriber.expired,
        &subscriber.keys,
        &mut subscriber.last_place,
    )?;
    let Some(taken) = taken else {
        return Ok(None);
    };
    Ok(Some(receipt_of(&mut state.connections, &mut state.books, taken)))
}

// Whether the subscriber at a place is due for an update.
#[inline(always)]
fn is_due<T, U>(state: &DomainState<T, U>, place: usize) -> bool
    requires { (y : SubscriberFields) × (slice_index_or state.now.subscribers place None ≡ Some y) }
    ensures { result ≡ is_subscriber_due state.now.subscribers place }
{
    let Some(subscriber) = &state.subscribers[place] else {
        unreachable!()
    };
    subscriber.is_due
}

/// The subscriber at a place is updated, and then borrows the message that has waited longest in
/// some connection. `None` if no message waits. The message lies where the receipt says.
///
/// `ExceedsMaxBorrows` if messages wait, but only in connections from which as many are borrowed as
/// may be, and `ConnectionFailure` if the update fails. The update stays done then.
#[inline(always)]
pub fn receive_at<T: Drop, U: Default + Drop, F: BackpressureFn, G: DegradationFn>(
    state: &mut DomainState<T, U>,
    boxes: &Boxes<F, G>,
    place: usize,
) -> Result<Option<Receipt>, ReceiveError>
    requires agrees { IsDomain state.old }
    requires stands { (y : SubscriberFields) × (slice_index_or state.old.subscribers place None ≡ Some y) }
    ensures { (y : SubscriberFields) → slice_index_or state.old.subscribers place None ≡ Some y
        → ReceivesAs (answers_of F.allows G.allows (boxes.now).boxes) state.old y.id result state.new }
{
    if is_due(state, place) {
        if let Some(failure) = update_subscriber(state, boxes, place) {
            return Err(ReceiveError::ConnectionFailure(failure));
        }
    }
    take_at(state, place)
}

// The slot that is borrowed in a connection is given back to its publisher. If that is gone, it
// has one holder less at once, and the subscriber forgets the publisher with its last message.
fn release_borrowed_slot<T: Drop, U: Default + Drop>(
    state: &mut DomainState<T, U>,
    at: SampleSlot,
    home: Home,
)
    requires agrees { IsDomain state.old }
    requires borrowed { IsSomeAnd (get state.old.connections at.connection) (λ c. (c.home ≡ home) × Contains c.borrowed at.slot) }
    ensures midway { IsMidway state.old state.new
        (subscriber_pruned (unborrowed (state_of (kept_of state.old)) home.publisher home.subscriber
        (number_in_slot state.old.books home.publisher at.slot)) home.subscriber) home.book }
    ensures stands { (y : SubscriberFields) × (slice_index_or state.new.subscribers home.subscriber_place None ≡ Some y) × (y.id ≡ home.subscriber) }
{
    if stands_at(&state.publishers, home.publisher_place, home.publisher) {
        release(&mut state.connections, at.connection, at.slot);
    } else {
        let_go(
            &mut state.connections,
            &mut state.books[home.book],
            at.connection,
            at.slot,
        );
        forget_if_empty(state, at.connection, home);
    }
}

/// The subscriber gives back a message that it has borrowed. Its slot is free again once the
/// publisher reclaims it and nobody else holds it. A publisher that is gone is forgotten with its
/// last message, and a subscriber that was closed leaves with the last one that it has borrowed.
///
/// iceoryx2's `Sample`'s drop (`src/sample.rs`).
#[inline(always)]
pub fn release_sample<T: Drop, U: Default + Drop>(state: &mut DomainState<T, U>, sample: SampleAt)
    requires agrees { IsDomain state.old }
    requires live { HoldsSample (state_of (kept_of state.old)) sample.subscriber sample.number }
    ensures stays { IsDomain state.new }
    ensures released { (publisher : ℕ) → IsTrue (is_borrowed sample.number ((state_of (kept_of state.old)).mailboxes publisher sample.subscriber))
        → Reaches state.old state.new (released (state_of (kept_of state.old)) publisher sample.subscriber sample.number) }
{
    if release_if_last(
        &mut state.connections,
        &mut state.books,
        sample.connection,
        message_of(&sample),
    ) {
        return;
    }
    search_and_release(state, sample);
}

// The same, wherever the sample lies and whichever of its ports is gone. It takes the sample itself: a
// reference would have the usual release keep it in memory
// (docs/DECISIONS.md, "What a usual message asks about departed ports").
#[cold]
#[inline(never)]
fn search_and_release<T: Drop, U: Default + Drop>(state: &mut DomainState<T, U>, sample: SampleAt)
    requires agrees { IsDomain state.old }
    requires live { HoldsSample (state_of (kept_of state.old)) sample.subscriber sample.number }
    ensures stays { IsDomain state.new }
    ensures released { (publisher : ℕ) → IsTrue (is_borrowed sample.number ((state_of (kept_of state.old)).mailboxes publisher sample.subscriber))
        → Reaches state.old state.new (released (state_of (kept_of state.old)) publisher sample.subscriber sample.number) }
{
    let at = find_live_sample(state, &sample);
    let home = state.connections[at.connection].home();
    release_borrowed_slot(state, at, home);
    leave_if_unused(state, home.subscriber_place);
    settle_book_if_left(state, home.book);
}
