//! A publisher lends the slots of its book.
ghost use Rattle.std.specs.Prelude.{◌≡◌, ◌*◌, ◌^◌, ◌<◌, ◌≤◌, ◌&&◌, nat_lt, false, length, slice_index_or, None, Some, IfOk, IsSomeAnd};
ghost use Rattle.iox2_machine.specs.machine.Loans.{is_static};
ghost use Rattle.iox2_machine.specs.declared.service_config.TypeVariant.TheVariants.{FixedSize};
ghost use Rattle.iox2_connections.specs.Counters.{times};
ghost use Rattle.iox2_domain.specs.Deliveries.{with_loan_out};
ghost use Rattle.iox2_domain.specs.Lending.{MayStart, Starts, IsNamed, LoanReaches, lending};
ghost use Rattle.iox2_domain.specs.LoanSlots.{LiesInSlot};
ghost use Rattle.iox2_domain.specs.Ports.{PublisherFields};
ghost use Rattle.iox2_domain.specs.Invariant.{IsDomain};
ghost use Rattle.iox2_messages.specs.ReadySlots.{MayPrepare};

use crate::growing_loans::prepare;
use crate::reclaims::reclaim_if_full;
use iox2_connections::take_slot;
use iox2_contents::Contents;
use iox2_domain::{DomainState, LoanAt, PublisherState};
use iox2_machine::{AllocationStrategy, LoanError};

// A loan of `len` elements, each of `units_per_element` units, starts in the slot, which nobody holds.
fn start<T: Drop, U: Default + Drop>(
    contents: &mut Option<Contents<T, U>>,
    slot: usize,
    len: usize,
    units_per_element: usize,
)
    requires fits { 1 < len → len * units_per_element < 2 ^ 64 }
    requires ready { IsSomeAnd contents.old (λ cs. MayStart cs slot (len * units_per_element)) }
    ensures { Starts U.is_default contents.old contents.new slot (len * units_per_element) }
{
    let Some(contents) = contents else {
        unreachable!();
    };
    contents.start(slot, len * units_per_element);
}

/// The publisher at a place lends a slot for a message of `len` elements, with a default user
/// header. It takes memory only for a further segment. Returns the loan, which has the number that
/// was the next and lies in its slot.
///
/// Of a static publisher: `ExceedsMaxLoanSize` if the length counts and is more than it lends,
/// then `ExceedsMaxLoans` if as many loans are out as it may have, then `OutOfMemory` if each
/// of its slots is in use, then `InternalFailure` if no message number is left. Of one whose
/// memory grows: `ExceedsMaxLoans`, then `InternalFailure` if no number is left; then, if its
/// current segment has no free slot that is long enough, `OutOfMemory` if all its segments were
/// made, and `InternalFailure` if memory for a further one is refused or its size doesn't fit.
/// Nothing changes then that can be seen.
#[inline(always)]
pub fn loan<T: Drop, U: Default + Drop>(
    state: &mut DomainState<T, U>,
    place: usize,
    checks_length: bool,
    len: usize,
) -> Result<LoanAt, LoanError>
    requires agrees { IsDomain state.old }
    requires stands { (x : PublisherFields) × (slice_index_or state.old.publishers place None ≡ Some x) }
    requires unchecked { checks_length ≡ false → (state.old.config).variant ≡ FixedSize }
    requires single { (state.old.config).variant ≡ FixedSize → len ≡ 1 }
    ensures reaches { IsSomeAnd (slice_index_or state.old.publishers place None)
        (λ x. LoanReaches U.is_default checks_length len state.old x result state.new) }
    ensures named { IfOk result (λ loan. IsSomeAnd (slice_index_or state.old.publishers place None) (λ x. IsNamed state.old x loan)) }
    ensures lies { IfOk result (λ loan. LiesInSlot state.new loan.publisher loan.number loan.book loan.slot) }
    ensures placed { IfOk result (λ loan. loan.place ≡ place) }
{
    prepare_if_growing(state, place, len)?;
    // What follows refuses only a static publisher. It is one body for both kinds, since the write and
    // the send then know the loan's book and slot (docs/DECISIONS.md, "What a publisher that
    // doesn't grow pays for those that do").
    let Some(publisher) = &mut state.publishers[place] else {
        unreachable!();
    };
    let key = publisher.book;
    let book = &mut state.books[key];
    if is_too_long(publisher, checks_length, len) {
        return Err(LoanError::ExceedsMaxLoanSize);
    }
    if publisher.loans.len() >= publisher.max_loaned_samples {
        return Err(LoanError::ExceedsMaxLoans);
    }
    if reclaim_if_full(publisher, &mut state.connections, book) {
        return Err(LoanError::OutOfMemory);
    }
    if state.next_message == u128::MAX {
        return Err(LoanError::InternalFailure);
    }
    let publisher_id = publisher.id;
    let number = state.next_message;
    let Some(slot) = book.take_from(publisher.segment_start, number, len as u64) else {
        unreachable!();
    };
    state.next_message += 1;
    start(
        &mut state.contents[key],
        slot,
        len,
        state.config.units_per_element,
    );
    lend(publisher, slot, len);
    Ok(LoanAt {
        publisher: publisher_id,
        number,
        place,
        book: key,
        slot,
    })
}

// Readies a slot where the publisher's memory grows. A static one has all its slots from the start.
#[inline(always)]
fn prepare_if_growing<T: Drop, U: Default + Drop>(
    state: &mut DomainState<T, U>,
    place: usize,
    len: usize,
) -> Result<(), LoanError>
    requires agrees { IsDomain state.old }
    requires stands { (x : PublisherFields) × (slice_index_or state.old.publishers place None ≡ Some x) }
    ensures { (x : PublisherFields) → slice_index_or state.old.publishers place None ≡ Some x → MayPrepare state.old place x len result state.new }
{
    if is_static_at(state, place) {
        return Ok(());
    }
    prepare(state, place, len)
}

// Whether the publisher at a place has one segment for its whole life.
#[inline(always)]
fn is_static_at<T, U>(state: &DomainState<T, U>, place: usize) -> bool
    requires { (x : PublisherFields) × (slice_index_or state.now.publishers place None ≡ Some x) }
    ensures { (x : PublisherFields) → slice_index_or state.now.publishers place None ≡ Some x → result ≡ is_static x.allocation }
{
    let Some(publisher) = &state.publishers[place] else {
        unreachable!();
    };
    publisher.allocation == AllocationStrategy::Static
}

// The slot is a loan of `len` elements that is out.
fn lend(publisher: &mut PublisherState, slot: usize, len: usize)
    requires { length publisher.old.loans < publisher.old.loan_room }
    ensures { publisher.new ≡ lending len slot publisher.old.segments publisher.old }
{
    publisher.loans.push_reserved(slot);
    if publisher.longest_granted < len {
        publisher.longest_granted = len;
    }
}

/// The loan in a slot is out no more.
pub(crate) fn remove_loan(publisher: &mut PublisherState, slot: usize)
    requires { times slot publisher.old.loans ≤ 1 }
    ensures { publisher.new ≡ with_loan_out slot publisher.old }
{
    take_slot(&mut publisher.loans, slot);
}

// The length counts, and is more than the publisher's current segment was made for.
fn is_too_long(publisher: &PublisherState, checks_length: bool, len: usize) -> bool
    ensures { result ≡ (checks_length && nat_lt (publisher.now).segment_length len) }
{
    checks_length && publisher.segment_length < len
}
