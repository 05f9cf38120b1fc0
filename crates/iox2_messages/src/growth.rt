//! A publisher makes a further segment, which becomes its current one.
ghost use Rattle.std.specs.Prelude.{◌≡◌, ◌*◌, ◌<◌, ◌≤◌, ◌==◌, true, false, length, max, slice_index_or, None, Some, IfSome, IfOk, OnOk, OnErr};
ghost use Rattle.std.specs.List.{All};
ghost use Rattle.iox2_machine.specs.machine.Limits.{segment_fits};
ghost use Rattle.iox2_contents.specs.SlotContents.{lists_for};
ghost use Rattle.iox2_slots.specs.SlotBook.{with_more_slots};
ghost use Rattle.iox2_domain.specs.Growth.{ClearsUnused, GrowsContents, IsNextLength, MayGrow};
ghost use Rattle.iox2_domain.specs.Invariant.{IsDomain};
ghost use Rattle.iox2_domain.specs.Ports.{PublisherFields, slot_length};

use crate::older_slots::count_older;
use iox2_contents::Contents;
use iox2_domain::{DomainState, PublisherState, lists_wanted, segment_size, units_of};
use iox2_machine::{AllocationStrategy, LoanError, ServiceConfig};
use iox2_slots::SlotBook;
use std::alloc::{AllocError, Global};

/// How many segments may be made in a publisher's life, the first included.
const SEGMENT_LIMIT: usize = 255;

/// The publisher at a place makes a segment that is long enough for a loan of `len` elements. It
/// becomes its current one. What is in older slots that nobody holds is dropped.
///
/// `OutOfMemory` if it has made all its segments, then `InternalFailure` if the segment's size
/// doesn't fit `usize` or memory for it is refused. Nothing changes then.
#[cold]
#[inline(never)]
pub(crate) fn grow<T: Drop, U: Default + Drop>(
    state: &mut DomainState<T, U>,
    place: usize,
    len: usize,
) -> Result<(), LoanError>
    requires agrees { IsDomain state.old }
    requires stands { (x : PublisherFields) × (slice_index_or state.old.publishers place None ≡ Some x) × (0 < x.slots) }
    ensures { (x : PublisherFields) → slice_index_or state.old.publishers place None ≡ Some x → MayGrow state.old place x len result state.new }
{
    let Some(publisher) = &mut state.publishers[place] else {
        unreachable!();
    };
    if publisher.segments >= SEGMENT_LIMIT {
        return Err(LoanError::OutOfMemory);
    }
    let slots = publisher.slots;
    let Some(longest) = next_length(publisher, &state.config, len) else {
        return Err(LoanError::InternalFailure);
    };
    let key = publisher.book;
    let Some(contents) = &mut state.contents[key] else {
        unreachable!();
    };
    let room = units_of(longest.max(1), state.config.units_per_element);
    let in_lists = !state.config.is_single_valued();
    let lists = lists_wanted(&state.config, publisher.max_loaned_samples);
    let book = &mut state.books[key];
    let Ok(start) = add_slots(state.alloc, book, contents, slots, room, in_lists, lists) else {
        return Err(LoanError::InternalFailure);
    };
    publisher.segment_start = start;
    publisher.segment_length = longest;
    count_older(publisher, book);
    Ok(())
}

// The length of the next segment of a publisher, for a loan of `len` elements: no longer than its
// strategy asks. `None` if its size doesn't fit.
fn next_length(publisher: &PublisherState, config: &ServiceConfig, len: usize) -> Option<usize>
    ensures long { IfSome result (λ longest. len ≤ longest) }
    ensures longer { IfSome result (λ longest. (publisher.now).segment_length ≤ longest) }
    ensures next { IfSome result (IsNextLength (publisher.now).allocation (publisher.now).segment_length len) }
    ensures fits { IfSome result (λ longest. segment_fits config.now (publisher.now).slots longest ≡ true) }
{
    let longest = publisher.segment_length.max(len);
    let longest = match publisher.allocation {
        AllocationStrategy::PowerOfTwo => longest.checked_next_power_of_two()?,
        AllocationStrategy::Static | AllocationStrategy::BestFit => longest,
    };
    segment_size(publisher.slots, longest, config.units_per_element)?;
    Some(longest)
}

// Adds `more` slots behind those of a book, each with room for `room` units, with as many lists of
// cells. Returns the first of them. If memory is refused both stay as they are.
fn add_slots<T: Drop, U: Default + Drop>(
    alloc: Global,
    book: &mut SlotBook,
    contents: &mut Contents<T, U>,
    more: usize,
    room: usize,
    in_lists: bool,
    lists: usize,
) -> Result<usize, AllocError>
    requires shaped { length contents.old ≡ length book.old.holders }
    requires some { 0 < length contents.old }
    requires lists { All (λ content. content.lists ≡ lists_for in_lists lists) contents.old }
    ensures start { IfOk result (λ start. start ≡ length book.old.holders) }
    ensures book { OnOk result (book.new ≡ with_more_slots more book.old) }
    ensures contents { OnOk result (GrowsContents book.old more room in_lists lists contents.old contents.new) }
    ensures same_book { OnErr result (book.new ≡ book.old) }
    ensures same_contents { OnErr result (contents.new ≡ contents.old) }
{
    let grown = book.grown(alloc, more)?;
    contents.grow(alloc, more, room, in_lists, lists)?;
    let start = book.len();
    clear_unused(alloc, book, contents);
    *book = grown;
    Ok(start)
}

// What is in the slots of a book that nobody holds is dropped.
fn clear_unused<T: Drop, U: Default + Drop>(
    alloc: Global,
    book: &SlotBook,
    contents: &mut Contents<T, U>,
)
    requires { length book.now.holders ≤ length contents.old }
    ensures { ClearsUnused book.now (length book.now.holders) contents.old contents.new }
{
    for slot in 0..book.len() {
        if book.holders(slot) == 0 {
            contents.clear(alloc, slot);
        }
    }
}
