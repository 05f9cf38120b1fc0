//! A publisher delivers a message.
ghost use Rattle.std.specs.Prelude.{◌≡◌, ℕ, ◌+◌, ◌<◌, ◌≤◌, ◌^◌, None, Some, length, slice_index_or};
ghost use Rattle.std.specs.Option.{is_some};
ghost use Rattle.iox2_slots.specs.SlotBook.{IsInUse, holders_at};
ghost use Rattle.iox2_machine.specs.machine.Environments.{fixed_handlers};
ghost use Rattle.iox2_connections.specs.Counters.{times};
ghost use Rattle.iox2_connections.specs.Handlers.{asked, marks_of};
ghost use Rattle.iox2_domain.specs.Boxes.{answers_of};
ghost use Rattle.iox2_domain.specs.Handlers.{AsksFor};
ghost use Rattle.iox2_domain.specs.Ports.{PublisherFields};
ghost use Rattle.iox2_domain.specs.Invariant.{IsDomain};
ghost use Rattle.iox2_domain.specs.Deliveries.{CanSend, SendsSlot, sender_after, book_after, with_history_holder};
ghost use Rattle.iox2_domain.specs.Deliveries.{pushed, leaving, result_of_delivery, with_left, with_sent};
ghost use Rattle.iox2_connections.specs.declared.sender.DeliveryOutcome.{DeliveryOutcome};
ghost use Rattle.iox2_messages.specs.SendEnds.{IsKept, end_result};

use crate::loans::remove_loan;
use crate::send_end::SendEnd;
use iox2_connections::sender::{Delivery, DeliveryOutcome, Progress, deliver};
use iox2_domain::{AskedBox, BlockedDelivery, Boxes, DomainState, PublisherState};
use iox2_machine::{BackpressureFn, BackpressureHandler, DegradationFn};
use iox2_slots::{SlotBook, SlotMark};
use std::time::Duration;

// The message in a slot is sent, and is last in the history. What leaves the history for it has
// one holder less.
#[inline(always)]
fn remember(publisher: &mut PublisherState, book: &mut SlotBook, slot: usize)
    requires below { slot < length book.old.holders }
    requires leaves { (oldest : ℕ) → leaving publisher.old.history slot ≡ Some oldest → IsInUse book.old oldest }
    ensures publisher { publisher.new ≡ record publisher.old { history = pushed publisher.old.history slot } }
    ensures book { book.new ≡ with_left (leaving publisher.old.history slot) (with_sent slot book.old) }
{
    book.set_mark(slot, SlotMark::Sent);
    if let Some(oldest) = publisher.history.push_back(slot) {
        book.release(oldest);
    }
}

// The loan in a slot was delivered, and its message enters the history. Either it is out no more, or its
// publisher waits for a receiver, and there is one holder more for the history. Each of the two says how
// the send ended, so that nothing is asked again behind them. The progress is copied field by field: a copy
// of the whole takes what lies between its fields too, which would be cleared at each message
// (docs/DECISIONS.md, "What a message takes is cleared and asked once").
#[inline(always)]
fn conclude(
    publisher: &mut PublisherState,
    book: &mut SlotBook,
    slot: usize,
    outcome: DeliveryOutcome,
) -> SendEnd
    requires once { times slot publisher.old.loans ≤ 1 }
    requires in_use { IsInUse book.old slot }
    requires fits { holders_at book.old slot + 1 < 2 ^ 64 }
    requires leaves { (oldest : ℕ) → leaving publisher.old.history slot ≡ Some oldest → IsInUse (with_history_holder outcome slot book.old) oldest }
    ensures publisher { publisher.new ≡ sender_after outcome slot publisher.old }
    ensures book { book.new ≡ book_after outcome slot publisher.old book.old }
    ensures same { end_result result ≡ result_of_delivery outcome }
    ensures kept { IsKept result }
{
    match outcome {
        DeliveryOutcome::Complete { count, has_failed } => {
            remove_loan(publisher, slot);
            remember(publisher, book, slot);
            if has_failed {
                SendEnd::Undelivered
            } else {
                SendEnd::Delivered(count)
            }
        }
        DeliveryOutcome::Suspended(progress) => {
            book.hold(slot);
            publisher.blocked = Some(BlockedDelivery {
                slot,
                channel: 0,
                is_alone: false,
                progress: Progress {
                    place: progress.place,
                    retries: progress.retries,
                    count: progress.count,
                    has_failed: progress.has_failed,
                },
            });
            remember(publisher, book, slot);
            SendEnd::Blocked
        }
    }
}

/// Whether anything answers for the publisher at a place at a full buffer.
#[inline(always)]
pub(crate) fn has_handler_at<T: Drop, U: Default + Drop>(
    state: &DomainState<T, U>,
    place: usize,
) -> bool
    requires { (x : PublisherFields) × (slice_index_or state.now.publishers place None ≡ Some x) }
    ensures { (x : PublisherFields) → slice_index_or state.now.publishers place None ≡ Some x → result ≡ is_some x.backpressure_handler }
{
    let Some(publisher) = &state.publishers[place] else {
        unreachable!();
    };
    publisher.backpressure_handler.is_some()
}

// What answers for the publisher at a place at a full buffer.
fn handler_at<'a, T: Drop, U: Default + Drop, F: BackpressureFn, G: DegradationFn>(
    state: &DomainState<T, U>,
    boxes: &'a Boxes<F, G>,
    place: usize,
) -> Option<BackpressureHandler<AskedBox<'a, F, G>>>
    requires { (x : PublisherFields) × (slice_index_or state.now.publishers place None ≡ Some x) }
    ensures marks { (x : PublisherFields) → slice_index_or state.now.publishers place None ≡ Some x → marks_of result ≡ x.backpressure_handler }
    ensures asks { (x : PublisherFields) → slice_index_or state.now.publishers place None ≡ Some x → AsksFor x.id (boxes.now).boxes result }
{
    let Some(publisher) = &state.publishers[place] else {
        unreachable!();
    };
    publisher.handler(boxes)
}

// Delivers the loan in a slot of the publisher at a place, for which the handler answers. If it
// reached all receivers it is out no more afterwards, else its publisher waits for a receiver.
#[inline(always)]
fn send_slot<T: Drop, U: Default + Drop, X: BackpressureFn>(
    state: &mut DomainState<T, U>,
    place: usize,
    slot: usize,
    handler: &Option<BackpressureHandler<X>>,
) -> SendEnd
    requires agrees { IsDomain state.old }
    requires can { (x : PublisherFields) × (slice_index_or state.old.publishers place None ≡ Some x) × CanSend state.old x slot }
    requires handler { (x : PublisherFields) → slice_index_or state.old.publishers place None ≡ Some x → marks_of handler.now ≡ x.backpressure_handler }
    ensures sends { (outcome : DeliveryOutcome) × (end_result result ≡ result_of_delivery outcome)
        × ((x : PublisherFields) → slice_index_or state.old.publishers place None ≡ Some x
        → SendsSlot (asked X.allows handler.now) state.old place x slot outcome state.new) }
    ensures kept { IsKept result }
{
    let Some(publisher) = &mut state.publishers[place] else {
        unreachable!();
    };
    let book = &mut state.books[publisher.book];
    let delivery = Delivery {
        publisher: publisher.id.value(),
        slot,
        channel: 0,
        strategy: publisher.strategy,
        start: Progress::default(),
        elapsed: Duration::ZERO,
    };
    let outcome = deliver(
        &state.config,
        &delivery,
        handler,
        &mut state.connections,
        book,
        &publisher.keys,
        &state.subscribers,
    );
    conclude(publisher, book, slot, outcome)
}

/// Delivers the loan in a slot of the publisher at a place, which has no handler. If it reached
/// all receivers it is out no more afterwards, else its publisher waits for a receiver. Nothing of a
/// handler is on the path of the message.
#[inline(always)]
pub(crate) fn send_unasked<T: Drop, U: Default + Drop>(
    state: &mut DomainState<T, U>,
    place: usize,
    slot: usize,
) -> SendEnd
    requires agrees { IsDomain state.old }
    requires can { (x : PublisherFields) × (slice_index_or state.old.publishers place None ≡ Some x) × CanSend state.old x slot }
    requires unasked { (x : PublisherFields) → slice_index_or state.old.publishers place None ≡ Some x → None ≡ x.backpressure_handler }
    ensures sends { (outcome : DeliveryOutcome) × (end_result result ≡ result_of_delivery outcome)
        × ((x : PublisherFields) → slice_index_or state.old.publishers place None ≡ Some x
        → SendsSlot fixed_handlers state.old place x slot outcome state.new) }
    ensures kept { IsKept result }
{
    send_slot(state, place, slot, &None::<BackpressureHandler>)
}

/// The same, whether the publisher has a handler or not. A box is among these boxes.
// (docs/DECISIONS.md, "A publisher without a handler pays one look for it")
#[inline(never)]
pub(crate) fn send_ready<T: Drop, U: Default + Drop, F: BackpressureFn, G: DegradationFn>(
    state: &mut DomainState<T, U>,
    boxes: &Boxes<F, G>,
    place: usize,
    slot: usize,
) -> SendEnd
    requires agrees { IsDomain state.old }
    requires can { (x : PublisherFields) × (slice_index_or state.old.publishers place None ≡ Some x) × CanSend state.old x slot }
    ensures sends { (outcome : DeliveryOutcome) × (end_result result ≡ result_of_delivery outcome)
        × ((x : PublisherFields) → slice_index_or state.old.publishers place None ≡ Some x
        → SendsSlot (answers_of F.allows G.allows (boxes.now).boxes) state.old place x slot outcome state.new) }
    ensures kept { IsKept result }
{
    let handler = handler_at(state, boxes, place);
    send_slot(state, place, slot, &handler)
}
