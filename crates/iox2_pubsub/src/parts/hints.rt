//! What a handle made of numbers names is looked for first where the numbers say.
ghost use Rattle.std.specs.Prelude.{◌≡◌, ◌↔◌, ◌<◌, ◌≤◌, [], true, false, length, slice_get, slice_index_or, is_some, IfSome, IsTrue, MatchOption, None, Some};
ghost use Rattle.iox2_machine.specs.declared.allocation.AllocationStrategy.TheVariants.{Static};
ghost use Rattle.iox2_machine.specs.machine.Limits.{last_number};
ghost use Rattle.iox2_machine.specs.machine.SingleCalls.{HoldsLoan, HoldsSample, HoldsSubscriber};
ghost use Rattle.iox2_domain.specs.Kept.{state_of};
ghost use Rattle.iox2_domain.specs.Fields.{kept_of};
ghost use Rattle.iox2_domain.specs.Invariant.{IsDomain};
ghost use Rattle.iox2_domain.specs.LoanCalls.{HoldsWritten};
ghost use Rattle.iox2_domain.specs.Ports.{PublisherFields, SubscriberFields};
ghost use Rattle.iox2_domain.specs.LoanSlots.{IsLoanSlot, LiesInSlot};
ghost use Rattle.iox2_domain.specs.SampleSlots.{LiesBorrowed};
ghost use Rattle.iox2_slots.specs.declared.slots.mark.SlotMark.{SlotMark};
ghost use Rattle.iox2_pubsub.specs.Parts.{HoldsMarked, written_mark};

use iox2_domain::{DomainState, LoanAt, MessageSlot, SampleAt, SampleSlot, is_loan_slot};
use iox2_machine::{AllocationStrategy, UniquePublisherId, UniqueSubscriberId};
use iox2_slots::{SlotBook, SlotMark};

/// Whether a publisher has this id, wasn't closed and stands at the place.
pub(crate) fn has_publisher_at_hint<T: Drop, U: Default + Drop>(
    state: &DomainState<T, U>,
    id: UniquePublisherId,
    place: usize,
) -> bool
    ensures { IsTrue result ↔ (x : PublisherFields) × (slice_index_or state.now.publishers place None ≡ Some x) × (x.id ≡ id) }
{
    let Some(Some(publisher)) = state.publishers.get(place) else {
        return false;
    };
    publisher.id.value() == id.value()
}

/// The place of the subscriber with this id, where it wasn't closed. It is looked for at the place
/// first.
pub(crate) fn find_open_subscriber<T: Drop, U: Default + Drop>(
    state: &DomainState<T, U>,
    id: UniqueSubscriberId,
    place: usize,
) -> Option<usize>
    requires { IsDomain state.now }
    ensures { MatchOption result (HoldsSubscriber (state_of (kept_of state.now)) id → ⊥)
        (λ i. HoldsSubscriber (state_of (kept_of state.now)) id × (y : SubscriberFields)
        × (slice_index_or state.now.subscribers i None ≡ Some y) × (y.id ≡ id)) }
{
    let Some(place) = state.find_subscriber(id, place) else {
        return None;
    };
    let Some(subscriber) = &state.subscribers[place] else {
        return None;
    };
    if !subscriber.is_open {
        return None;
    }
    Some(place)
}

// The publisher with this id stands at the place, and has the book at the key.
fn has_book<T: Drop, U: Default + Drop>(
    state: &DomainState<T, U>,
    place: usize,
    id: UniquePublisherId,
    book: usize,
) -> bool
    ensures { IsTrue result → (x : PublisherFields) × (slice_index_or state.now.publishers place None ≡ Some x) × (x.id ≡ id) × (x.book ≡ book) }
{
    let Some(Some(publisher)) = state.publishers.get(place) else {
        return false;
    };
    publisher.id.value() == id.value() && publisher.book == book
}

/// Whether the publisher's loan is out, and lies in the slot that is named, in the book of the
/// publisher that stands at its place.
pub(crate) fn is_lent_at_hint<T: Drop, U: Default + Drop>(
    state: &DomainState<T, U>,
    loan: &LoanAt,
) -> bool
    requires { IsDomain state.now }
    ensures lies { IsTrue result → LiesInSlot state.now loan.now.publisher loan.now.number loan.now.book loan.now.slot }
    ensures placed { IsTrue result → (x : PublisherFields) × (slice_index_or state.now.publishers loan.now.place None ≡ Some x) × (x.id ≡ loan.now.publisher) }
{
    if !has_book(state, loan.place, loan.publisher, loan.book) {
        return false;
    }
    match state.books.get(loan.book) {
        Some(book) => is_loan_slot(book, loan.slot, loan.number),
        None => false,
    }
}

/// Whether the publisher at the place may send at once: it is due for nothing, has no handler for
/// full buffers, and no send of it waits. It returns at each test that fails, as `is_ready` does.
pub(crate) fn sends_at_once<T, U>(state: &DomainState<T, U>, place: usize) -> bool
    ensures { IsTrue result → (x : PublisherFields) → slice_index_or state.now.publishers place None ≡ Some x
        → (is_some x.blocked ≡ false) × (x.is_due ≡ false) × (is_some x.backpressure_handler ≡ false) }
{
    let Some(Some(publisher)) = state.publishers.get(place) else {
        return false;
    };
    if publisher.blocked.is_some() {
        return false;
    }
    if !publisher.due.is_nothing() {
        return false;
    }
    if publisher.backpressure_handler.is_some() {
        return false;
    }
    true
}

/// Whether the publisher at the place may lend this number of elements at once, if it has a free slot: its
/// memory doesn't grow, no send of it waits, and neither its loans nor the domain's numbers are used up.
pub(crate) fn lends_at_once<T, U>(state: &DomainState<T, U>, place: usize, len: usize) -> bool
    ensures publisher { IsTrue result → (x : PublisherFields) → slice_index_or state.now.publishers place None ≡ Some x
        → (is_some x.blocked ≡ false) × (x.allocation ≡ Static) × (len ≤ x.initial_max_slice_len) × (length x.loans < x.max_loaned_samples) }
    ensures numbers { IsTrue result → state.now.next_message < last_number }
{
    let Some(Some(publisher)) = state.publishers.get(place) else {
        return false;
    };
    if publisher.blocked.is_some() {
        return false;
    }
    if publisher.allocation != AllocationStrategy::Static {
        return false;
    }
    if publisher.initial_max_slice_len < len {
        return false;
    }
    if publisher.loans.len() >= publisher.max_loaned_samples {
        return false;
    }
    state.next_message != u128::MAX
}

/// Whether the subscriber at the place receives without an update, and from no publisher that is gone.
pub(crate) fn receives_at_once<T, U>(state: &DomainState<T, U>, place: usize) -> bool
    ensures { IsTrue result → (y : SubscriberFields) → slice_index_or state.now.subscribers place None ≡ Some y → (y.is_due ≡ false) × (y.expired ≡ []) }
{
    let Some(Some(subscriber)) = state.subscribers.get(place) else {
        return false;
    };
    if subscriber.is_due {
        return false;
    }
    subscriber.expired.is_empty()
}

// Whether a written loan with this number lies in the slot.
fn is_written_slot(book: &SlotBook, slot: usize, number: u128) -> bool
    ensures loan { IsTrue result → IsLoanSlot book.now slot number }
    ensures written { IsTrue result → (mark : SlotMark) × (slice_get book.now.marks slot ≡ Some mark) × (written_mark mark ≡ true) }
{
    if slot >= book.len() {
        return false;
    }
    if !is_written(book.mark(slot)) {
        return false;
    }
    is_loan_slot(book, slot, number)
}

// The key of the book of the publisher with this id, where it stands at the place.
fn book_of<T: Drop, U: Default + Drop>(
    state: &DomainState<T, U>,
    place: usize,
    id: UniquePublisherId,
) -> Option<usize>
    ensures { IfSome result (λ key. (x : PublisherFields) × (slice_index_or state.now.publishers place None ≡ Some x) × (x.id ≡ id) × (x.book ≡ key)) }
{
    let Some(Some(publisher)) = state.publishers.get(place) else {
        return None;
    };
    if publisher.id.value() != id.value() {
        return None;
    }
    Some(publisher.book)
}

/// The key of the book in which the publisher's loan lies, where the loan is out and written and lies in
/// the slot that is named, and the publisher stands at its place. The book that is named isn't looked
/// at: a publisher that stands has one, so that it needs no test whether it is there.
pub(crate) fn written_at_hint<T: Drop, U: Default + Drop>(
    state: &DomainState<T, U>,
    loan: &LoanAt,
) -> Option<usize>
    requires { IsDomain state.now }
    ensures written { IfSome result (λ _. HoldsWritten (state_of (kept_of state.now)) loan.now.publisher loan.now.number) }
    ensures placed { IfSome result (λ _. (x : PublisherFields)
        × (slice_index_or state.now.publishers loan.now.place None ≡ Some x) × (x.id ≡ loan.now.publisher)) }
{
    let Some(key) = book_of(state, loan.place, loan.publisher) else {
        return None;
    };
    if is_written_slot(&state.books[key], loan.slot, loan.number) {
        Some(key)
    } else {
        None
    }
}

fn is_written(mark: SlotMark) -> bool
    ensures { result ≡ written_mark mark }
{
    matches!(mark, SlotMark::Written)
}

// Where the publisher's loan lies, where it is out. The slot that is named is looked at first.
#[inline(always)]
fn find_lent<T: Drop, U: Default + Drop>(
    state: &DomainState<T, U>,
    loan: &LoanAt,
) -> Option<MessageSlot>
    requires { IsDomain state.now }
    ensures { MatchOption result (HoldsLoan (state_of (kept_of state.now)) loan.now.publisher loan.now.number → ⊥)
        (λ at. LiesInSlot state.now loan.now.publisher loan.now.number at.book at.slot) }
{
    if is_lent_at_hint(state, loan) {
        return Some(MessageSlot {
            book: loan.book,
            slot: loan.slot,
        });
    }
    search_lent(state, loan.publisher, loan.number)
}

// The same, where the loan doesn't lie in the slot that is named. The publisher's loans are gone
// through.
#[inline(never)]
fn search_lent<T: Drop, U: Default + Drop>(
    state: &DomainState<T, U>,
    publisher: UniquePublisherId,
    number: u128,
) -> Option<MessageSlot>
    requires { IsDomain state.now }
    ensures { MatchOption result (HoldsLoan (state_of (kept_of state.now)) publisher number → ⊥) (λ at. LiesInSlot state.now publisher number at.book at.slot) }
{
    state.find_loan(publisher, number)
}

/// Where the publisher's loan lies, where it is out and is written as `wants_written` says.
#[inline(always)]
pub(crate) fn find_marked<T: Drop, U: Default + Drop>(
    state: &DomainState<T, U>,
    loan: &LoanAt,
    wants_written: bool,
) -> Option<MessageSlot>
    requires { IsDomain state.now }
    ensures { MatchOption result (HoldsMarked (state_of (kept_of state.now)) loan.now.publisher loan.now.number wants_written → ⊥)
        (λ at. HoldsMarked (state_of (kept_of state.now)) loan.now.publisher loan.now.number wants_written
        × LiesInSlot state.now loan.now.publisher loan.now.number at.book at.slot) }
{
    let Some(at) = find_lent(state, loan) else {
        return None;
    };
    if is_written(state.books[at.book].mark(at.slot)) != wants_written {
        return None;
    }
    Some(at)
}

/// Where the message is that the subscriber has borrowed. The connection that is named is looked at first.
pub(crate) fn find_borrowed<T: Drop, U: Default + Drop>(
    state: &DomainState<T, U>,
    sample: &SampleAt,
) -> Option<SampleSlot>
    requires { IsDomain state.now }
    ensures { MatchOption result (HoldsSample (state_of (kept_of state.now)) sample.now.subscriber sample.now.number
        → ⊥) (LiesBorrowed state.now sample.now.subscriber sample.now.number) }
{
    let found = state.find_sample_at(sample.connection, sample.subscriber, sample.number);
    if found.is_some() {
        return found;
    }
    if !state.has_sample(sample.subscriber, sample.number) {
        return None;
    }
    Some(state.search_sample(sample))
}

/// Whether a subscriber has this id, wasn't closed and stands at the place.
pub(crate) fn has_subscriber_at_hint<T: Drop, U: Default + Drop>(
    state: &DomainState<T, U>,
    id: UniqueSubscriberId,
    place: usize,
) -> bool
    ensures { IsTrue result ↔ (y : SubscriberFields) × (slice_index_or state.now.subscribers place None ≡ Some y) × (y.id ≡ id) × (y.is_open ≡ true) }
{
    let Some(Some(subscriber)) = state.subscribers.get(place) else {
        return false;
    };
    subscriber.id.value() == id.value() && subscriber.is_open
}
