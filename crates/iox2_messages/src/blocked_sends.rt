//! A blocked send is tried again, or given up.
ghost use Rattle.std.specs.Prelude.{◌≡◌, ◌≤◌, ◌<◌, ◌+◌, ◌↔◌, IsTrue, None, Some, length, slice_index_or, is_some};
ghost use Rattle.iox2_slots.specs.SlotBook.{IsInUse};
ghost use Rattle.iox2_machine.specs.machine.ChannelCalls.{receiver_at};
ghost use Rattle.iox2_machine.specs.machine.Sends.{more_retries};
ghost use Rattle.iox2_machine.specs.machine.SingleCalls.{HoldsBlocked};
ghost use Rattle.iox2_machine.specs.machine.State.{is_blocked};
ghost use Rattle.iox2_connections.specs.Counters.{times, with_counters};
ghost use Rattle.iox2_domain.specs.Boxes.{answers_of};
ghost use Rattle.iox2_domain.specs.Ports.{PublisherFields};
ghost use Rattle.iox2_domain.specs.declared.publisher_state.BlockedDelivery.{BlockedDelivery};
ghost use Rattle.iox2_domain.specs.Fields.{kept_of, within_reach};
ghost use Rattle.iox2_domain.specs.Kept.{state_of};
ghost use Rattle.iox2_domain.specs.Invariant.{IsDomain};
ghost use Rattle.iox2_domain.specs.BlockedSends.{with_outcome, counters_after, HasBlocked, GoesOn, RetriesAs, GivesUpAs};
ghost use Rattle.iox2_messages.specs.BlockedPublishers.{CanTakeUp, HasPublisherAt};
ghost use Rattle.iox2_messages.specs.SendEnds.{IsKept, end_result};

use crate::channels::receiver_at;
use crate::loans::remove_loan;
use crate::send_end::SendEnd;
use iox2_connections::sender::{Delivery, DeliveryOutcome, Progress, deliver};
use iox2_domain::{BlockedDelivery, Boxes, DomainState, PublisherState};
use iox2_machine::{BackpressureFn, DegradationFn, UniquePublisherId, UniqueSubscriberId};
use iox2_slots::SlotBook;
use iox2_updates::reclaim;
use std::time::Duration;

// One retry more; the greatest number stays.
fn more_retries(retries: u64) -> u64
    ensures { result ≡ more_retries retries }
{
    if retries < u64::MAX {
        retries + 1
    } else {
        retries
    }
}

// A delivery that had been blocked is over, or waits for a receiver again.
fn conclude_blocked(
    publisher: &mut PublisherState,
    book: &mut SlotBook,
    blocked: BlockedDelivery,
    outcome: DeliveryOutcome,
)
    requires once { times blocked.slot publisher.old.loans ≤ 1 }
    requires in_use { IsInUse book.old blocked.slot }
    ensures publisher { publisher.new ≡ with_outcome outcome blocked publisher.old }
    ensures book { book.new ≡ with_counters book.old (counters_after outcome blocked.slot book.old.holders) }
{
    match outcome {
        DeliveryOutcome::Complete { .. } => {
            remove_loan(publisher, blocked.slot);
            publisher.blocked = None;
            book.release(blocked.slot);
        }
        DeliveryOutcome::Suspended(progress) => {
            publisher.blocked = Some(BlockedDelivery {
                progress,
                ..blocked
            });
        }
    }
}

// The keys of the connections to which a blocked delivery may go: its publisher's, or none behind the one
// for which it waits.
fn keys_within<'a>(keys: &'a [Option<usize>], blocked: &BlockedDelivery) -> &'a [Option<usize>]
    requires { (blocked.now.progress).place < length keys.now }
    ensures { result.now ≡ within_reach blocked.now keys.now }
{
    if blocked.is_alone {
        &keys[..blocked.progress.place + 1]
    } else {
        keys
    }
}

/// Where a blocked delivery is taken up, and how long its receiver has been waited for.
#[derive(Clone, Copy)]
pub(crate) struct Resumption {
    pub start: Progress,
    pub elapsed: Duration,
}

/// The blocked delivery of the publisher at a place, which has reclaimed what was given back, is taken
/// up there.
pub(crate) fn go_on<T: Drop, U: Default + Drop, F: BackpressureFn, G: DegradationFn>(
    state: &mut DomainState<T, U>,
    boxes: &Boxes<F, G>,
    place: usize,
    from: Resumption,
) -> DeliveryOutcome
    requires { CanTakeUp state.old place from.start }
    ensures { (may : CanTakeUp state.old place from.start)
        → GoesOn (answers_of F.allows G.allows (boxes.now).boxes) state.old place may.publisher may.delivery
        from.start from.elapsed result state.new }
{
    let Some(publisher) = &mut state.publishers[place] else {
        unreachable!();
    };
    let Some(blocked) = publisher.blocked else {
        unreachable!();
    };
    let book = &mut state.books[publisher.book];
    let delivery = Delivery {
        publisher: publisher.id.value(),
        slot: blocked.slot,
        channel: blocked.channel,
        strategy: publisher.strategy,
        start: from.start,
        elapsed: from.elapsed,
    };
    let handler = publisher.handler(boxes);
    let outcome = deliver(
        &state.config,
        &delivery,
        &handler,
        &mut state.connections,
        book,
        keys_within(&publisher.keys, &blocked),
        &state.subscribers,
    );
    conclude_blocked(publisher, book, blocked, outcome);
    outcome
}

// How far the blocked delivery of the publisher at a place has come.
fn progress_at<T: Drop, U: Default + Drop>(state: &DomainState<T, U>, place: usize) -> Progress
    requires { HasBlocked state.now place }
    ensures { (x : PublisherFields) (b : BlockedDelivery) → slice_index_or state.now.publishers place None ≡ Some x → x.blocked ≡ Some b → result ≡ b.progress }
{
    let Some(publisher) = &state.publishers[place] else {
        unreachable!();
    };
    let Some(blocked) = publisher.blocked else {
        unreachable!();
    };
    blocked.progress
}

// Behind the receiver that the blocked delivery of the publisher at a place waits for.
fn progress_behind<T: Drop, U: Default + Drop>(state: &DomainState<T, U>, place: usize) -> Progress
    requires agrees { IsDomain state.now }
    requires waits { HasBlocked state.now place }
    ensures { (x : PublisherFields) (b : BlockedDelivery) → slice_index_or state.now.publishers place None ≡ Some x → x.blocked ≡ Some b
        → result ≡ record b.progress { place = (b.progress).place + 1; retries = 0 } }
{
    let Some(publisher) = &state.publishers[place] else {
        unreachable!();
    };
    let Some(blocked) = publisher.blocked else {
        unreachable!();
    };
    Progress {
        place: blocked.progress.place + 1,
        retries: 0,
        ..blocked.progress
    }
}

/// The blocked send of the publisher at a place is tried again at the receiver that it waits for,
/// which is asked with one retry more and with the time that is handed in. Connections aren't
/// updated. It takes no memory.
pub fn retry_send<T: Drop, U: Default + Drop, F: BackpressureFn, G: DegradationFn>(
    state: &mut DomainState<T, U>,
    boxes: &Boxes<F, G>,
    place: usize,
    elapsed: Duration,
) -> SendEnd
    requires agrees { IsDomain state.old }
    requires waits { HasBlocked state.old place }
    ensures goes { (x : PublisherFields) (b : BlockedDelivery) → slice_index_or state.old.publishers place None ≡ Some x → x.blocked ≡ Some b
        → RetriesAs (answers_of F.allows G.allows (boxes.now).boxes) state.old state.new x b elapsed (end_result result) }
    ensures kept { IsKept result }
{
    reclaim(state, place);
    let progress = progress_at(state, place);
    let start = Progress {
        retries: more_retries(progress.retries),
        ..progress
    };
    SendEnd::of(go_on(state, boxes, place, Resumption { start, elapsed }))
}

/// The blocked send of the publisher at a place goes on behind the receiver that it waits for, which
/// is skipped. It takes no memory.
pub fn give_up_send<T: Drop, U: Default + Drop, F: BackpressureFn, G: DegradationFn>(
    state: &mut DomainState<T, U>,
    boxes: &Boxes<F, G>,
    place: usize,
) -> SendEnd
    requires agrees { IsDomain state.old }
    requires waits { HasBlocked state.old place }
    ensures goes { (x : PublisherFields) (b : BlockedDelivery) → slice_index_or state.old.publishers place None ≡ Some x → x.blocked ≡ Some b
        → GivesUpAs (answers_of F.allows G.allows (boxes.now).boxes) state.old state.new x b (end_result result) }
    ensures kept { IsKept result }
{
    reclaim(state, place);
    let start = progress_behind(state, place);
    let elapsed = Duration::ZERO;
    SendEnd::of(go_on(state, boxes, place, Resumption { start, elapsed }))
}

/// The subscriber that the blocked send of the publisher at a place waits for.
pub fn blocking_subscriber<T: Drop, U: Default + Drop>(
    state: &DomainState<T, U>,
    place: usize,
) -> UniqueSubscriberId
    requires agrees { IsDomain state.now }
    requires waits { HasBlocked state.now place }
    ensures { (x : PublisherFields) (b : BlockedDelivery) → slice_index_or state.now.publishers place None ≡ Some x → x.blocked ≡ Some b
        → receiver_at (state_of (kept_of state.now)) x.id (b.progress).place ≡ Some result }
{
    let progress = progress_at(state, place);
    let Some(subscriber) = receiver_at(state, place, progress.place) else {
        unreachable!();
    };
    UniqueSubscriberId::new(subscriber)
}

// Whether the publisher that is at a place waits for a receiver.
fn waits_at<T: Drop, U: Default + Drop>(state: &DomainState<T, U>, place: usize) -> bool
    requires { (x : PublisherFields) × (slice_index_or state.now.publishers place None ≡ Some x) }
    ensures { (x : PublisherFields) → slice_index_or state.now.publishers place None ≡ Some x → result ≡ is_some x.blocked }
{
    let Some(publisher) = &state.publishers[place] else {
        unreachable!();
    };
    publisher.blocked.is_some()
}

/// Whether a send of a publisher is blocked, which is looked for at the hint first.
pub fn is_waiting<T: Drop, U: Default + Drop>(
    state: &DomainState<T, U>,
    publisher: UniquePublisherId,
    hint: usize,
) -> bool
    requires { IsDomain state.now }
    ensures { result ≡ is_blocked (state_of (kept_of state.now)) publisher }
{
    let Some(place) = state.find_publisher(publisher, hint) else {
        return false;
    };
    waits_at(state, place)
}

// Whether the publisher that is at a place waits with the message with this number.
fn waits_with<T: Drop, U: Default + Drop>(
    state: &DomainState<T, U>,
    place: usize,
    number: u128,
) -> bool
    requires { HasPublisherAt state.now place }
    ensures { (there : HasPublisherAt state.now place) → IsTrue result ↔ HoldsBlocked (state_of (kept_of state.now)) there.publisher.id number }
{
    let Some(publisher) = &state.publishers[place] else {
        unreachable!();
    };
    let Some(blocked) = publisher.blocked else {
        return false;
    };
    state.books[publisher.book].number(blocked.slot) == number
}

/// Whether a publisher waits with the message with this number.
pub fn has_blocked_send<T: Drop, U: Default + Drop>(
    state: &DomainState<T, U>,
    publisher: UniquePublisherId,
    number: u128,
) -> bool
    requires { IsDomain state.now }
    ensures { IsTrue result ↔ HoldsBlocked (state_of (kept_of state.now)) publisher number }
{
    let Some(place) = state.find_publisher(publisher, 0) else {
        return false;
    };
    waits_with(state, place, number)
}
