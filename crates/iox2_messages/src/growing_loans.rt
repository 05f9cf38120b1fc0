//! A publisher whose memory grows readies a slot of its current segment before it lends it.
ghost use Rattle.std.specs.Prelude.{◌≡◌, ◌+◌, ◌<◌, ◌≤◌, false, length, slice_index_or, None, Some};
ghost use Rattle.std.specs.Bool.{MatchBool};
ghost use Rattle.iox2_machine.specs.machine.Limits.{segment_limit};
ghost use Rattle.iox2_machine.specs.machine.Loans.{is_static};
ghost use Rattle.iox2_domain.specs.Growth.{HasFreeSlot, HasNoSlot};
ghost use Rattle.iox2_domain.specs.Invariant.{IsDomain};
ghost use Rattle.iox2_domain.specs.Ports.{PublisherFields};
ghost use Rattle.iox2_messages.specs.ReadySlots.{Prepares, with_segments};

use crate::growth::grow;
use crate::older_slots::{expect_loan, let_go_of_older};
use iox2_domain::DomainState;
use iox2_machine::LoanError;
use iox2_updates::reclaim;

/// Readies a slot for a loan of a publisher whose memory grows: its current segment then has a free
/// slot that is long enough. Refuses the loan as `loan` says. What is in older slots that nobody holds
/// any more is dropped first.
// (docs/DECISIONS.md, "What a publisher that doesn't grow pays for those that do")
#[cold]
#[inline(never)]
pub(crate) fn prepare<T: Drop, U: Default + Drop>(
    state: &mut DomainState<T, U>,
    place: usize,
    len: usize,
) -> Result<(), LoanError>
    requires agrees { IsDomain state.old }
    requires grows { (x : PublisherFields) × (slice_index_or state.old.publishers place None ≡ Some x) × (is_static x.allocation ≡ false) }
    ensures { (x : PublisherFields) → slice_index_or state.old.publishers place None ≡ Some x → Prepares state.old place x len result state.new }
{
    let_go_of_older(state, place);
    find_slot(state, place, len)?;
    expect_loan(state, place);
    Ok(())
}

// Finds such a slot. If need be, the publisher first reclaims slots, or makes a further segment and
// counts it.
fn find_slot<T: Drop, U: Default + Drop>(
    state: &mut DomainState<T, U>,
    place: usize,
    len: usize,
) -> Result<(), LoanError>
    requires agrees { IsDomain state.old }
    requires grows { (x : PublisherFields) × (slice_index_or state.old.publishers place None ≡ Some x) × (is_static x.allocation ≡ false) }
    ensures { (x : PublisherFields) → slice_index_or state.old.publishers place None ≡ Some x → Prepares state.old place x len result state.new }
{
    if has_all_loans(state, place) {
        return Err(LoanError::ExceedsMaxLoans);
    }
    if state.next_message == u128::MAX {
        return Err(LoanError::InternalFailure);
    }
    if has_slot(state, place, len) {
        return Ok(());
    }
    reclaim(state, place);
    if has_slot(state, place, len) {
        return Ok(());
    }
    grow(state, place, len)?;
    count_segment(state, place);
    Ok(())
}

// Whether as many loans of the publisher at a place are out as it may have.
fn has_all_loans<T, U>(state: &DomainState<T, U>, place: usize) -> bool
    requires { (x : PublisherFields) × (slice_index_or state.now.publishers place None ≡ Some x) }
    ensures { (x : PublisherFields) → slice_index_or state.now.publishers place None ≡ Some x
        → MatchBool result (x.max_loaned_samples ≤ length x.loans) (length x.loans < x.max_loaned_samples) }
{
    let Some(publisher) = &state.publishers[place] else {
        unreachable!();
    };
    publisher.loans.len() >= publisher.max_loaned_samples
}

// Whether the current segment of the publisher at a place has a free slot for `len` elements.
fn has_slot<T: Drop, U: Default + Drop>(state: &DomainState<T, U>, place: usize, len: usize) -> bool
    requires agrees { IsDomain state.now }
    requires stands { (x : PublisherFields) × (slice_index_or state.now.publishers place None ≡ Some x) }
    ensures { (x : PublisherFields) → slice_index_or state.now.publishers place None ≡ Some x
        → MatchBool result (HasFreeSlot state.now x len) (HasNoSlot state.now x len) }
{
    let Some(publisher) = &state.publishers[place] else {
        unreachable!();
    };
    let book = &state.books[publisher.book];
    len <= publisher.segment_length && !book.is_full_from(publisher.segment_start)
}

// The publisher at a place has made one segment more.
fn count_segment<T, U>(state: &mut DomainState<T, U>, place: usize)
    requires { (x : PublisherFields) × (slice_index_or state.old.publishers place None ≡ Some x) × (x.segments < segment_limit) }
    ensures { (x : PublisherFields) → slice_index_or state.old.publishers place None ≡ Some x → state.new ≡ with_segments state.old place x (x.segments + 1) }
{
    let Some(publisher) = &mut state.publishers[place] else {
        unreachable!();
    };
    publisher.segments += 1;
}
