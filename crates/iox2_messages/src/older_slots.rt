//! A publisher whose memory grew lets go of what is in its older slots.
ghost use Rattle.std.specs.Prelude.{◌≡◌, ◌-◌, ◌<◌, ◌≤◌, ◌^◌, length, slice_index_or, None, Some};
ghost use Rattle.std.specs.List.{All};
ghost use Rattle.iox2_slots.specs.SlotBook.{Book, holders_at};
ghost use Rattle.iox2_domain.specs.Fields.{kept_of};
ghost use Rattle.iox2_domain.specs.Growth.{ClearsUnused};
ghost use Rattle.iox2_domain.specs.Invariant.{IsDomain};
ghost use Rattle.iox2_domain.specs.Kept.{state_of};
ghost use Rattle.iox2_domain.specs.Ports.{PublisherFields};
ghost use Rattle.iox2_domain.specs.Reaches.{Reaches};
ghost use Rattle.iox2_messages.specs.OlderSlots.{ClearsOlder, LetsGoOfOlder};

use iox2_contents::Contents;
use iox2_domain::{DomainState, PublisherState};
use iox2_slots::SlotBook;
use iox2_updates::reclaim;
use std::alloc::Global;

/// The publisher at a place reclaims what was given back, and drops what is in older slots that lost
/// their last holder since it last looked. It does neither if none of its older slots had a holder
/// then. Nothing changes that can be seen.
pub(crate) fn let_go_of_older<T: Drop, U: Default + Drop>(
    state: &mut DomainState<T, U>,
    place: usize,
)
    requires agrees { IsDomain state.old }
    requires stands { (x : PublisherFields) × (slice_index_or state.old.publishers place None ≡ Some x) }
    ensures reaches { Reaches state.old state.new (state_of (kept_of state.old)) }
    ensures same { state.new.publishers ≡ state.old.publishers }
{
    if !holds_older(state, place) {
        return;
    }
    reclaim(state, place);
    clear_older(state, place);
}

/// The publisher at a place lends one of its free slots next, which it need not look at again.
pub(crate) fn expect_loan<T, U>(state: &mut DomainState<T, U>, place: usize)
    requires { (x : PublisherFields) × (slice_index_or state.old.publishers place None ≡ Some x) }
    ensures { state.new ≡ state.old }
{
    let Some(publisher) = &mut state.publishers[place] else {
        unreachable!();
    };
    publisher.known_free = publisher.known_free.saturating_sub(1);
}

/// The publisher has a new segment: each slot with a holder is an older one now.
pub(crate) fn count_older(publisher: &mut PublisherState, book: &SlotBook)
    ensures { publisher.new ≡ publisher.old }
{
    let free = book.free_count();
    publisher.held_older = u16::try_from(book.len().saturating_sub(free)).unwrap_or(u16::MAX);
    publisher.known_free = u32::try_from(free).unwrap_or(u32::MAX);
    mark_older(publisher);
}

// The publisher is due to look at its older slots while one of them may have a holder.
fn mark_older(publisher: &mut PublisherState)
    ensures { publisher.new ≡ publisher.old }
{
    publisher.due = publisher.due.with_clearing(publisher.held_older > 0);
}

// Whether an older slot of the publisher at a place may have a holder.
fn holds_older<T, U>(state: &DomainState<T, U>, place: usize) -> bool
    requires { (x : PublisherFields) × (slice_index_or state.now.publishers place None ≡ Some x) }
{
    let Some(publisher) = &state.publishers[place] else {
        unreachable!();
    };
    publisher.held_older > 0
}

// What is in older slots of the publisher at a place is dropped if they lost their last holder since it
// last looked.
fn clear_older<T: Drop, U: Default + Drop>(state: &mut DomainState<T, U>, place: usize)
    requires agrees { IsDomain state.old }
    requires stands { (x : PublisherFields) × (slice_index_or state.old.publishers place None ≡ Some x) }
    ensures { (x : PublisherFields) → slice_index_or state.old.publishers place None ≡ Some x → ClearsOlder state.old x state.new }
{
    let Some(publisher) = &mut state.publishers[place] else {
        unreachable!();
    };
    let key = publisher.book;
    let Some(contents) = &mut state.contents[key] else {
        unreachable!();
    };
    let book = &state.books[key];
    let freed = book.freed_since(publisher.known_free as usize);
    let cleared = clear_before(state.alloc, freed, publisher.segment_start, contents);
    publisher.held_older = count_fewer(publisher.held_older, cleared);
    publisher.known_free = u32::try_from(book.free_count()).unwrap_or(u32::MAX);
    mark_older(publisher);
}

// What is in those of the slots that are before this one is dropped, with its memory. Returns how many
// they are.
fn clear_before<T: Drop, U: Default + Drop>(
    alloc: Global,
    slots: &[usize],
    start: usize,
    contents: &mut Contents<T, U>,
) -> usize
    requires { All (λ slot. slot < length contents.old) slots.now }
    ensures clears { (b : Book) → All (λ slot. holders_at b slot ≡ 0) slots.now → ClearsUnused b start contents.old contents.new }
    ensures given_up { LetsGoOfOlder slots.now start contents.new }
    ensures count { result ≤ length slots.now }
{
    let mut cleared = 0;
    for at in 0..slots.len() {
        let slot = slots[at];
        if slot < start {
            contents.clear(alloc, slot);
            cleared += 1;
        }
    }
    cleared
}

// How many of so many are left. The greatest number means that many or more, and stays.
fn count_fewer(count: u16, gone: usize) -> u16
    ensures { count < 2 ^ 16 - 1 → result ≡ count - gone }
{
    if count == u16::MAX {
        return count;
    }
    count.saturating_sub(u16::try_from(gone).unwrap_or(u16::MAX))
}
