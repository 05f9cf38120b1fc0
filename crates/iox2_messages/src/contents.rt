//! What lies in slots, to be changed.
ghost use Rattle.std.specs.Prelude.{◌≡◌, ◌<◌, None, Some, length, false, slice_index_or, true, IsSome};
ghost use Rattle.std.specs.Borrow.{sem};
ghost use Rattle.slab.specs.Slab.{get};
ghost use Rattle.iox2_slots.specs.SlotBook.{Book};
ghost use Rattle.iox2_contents.specs.SlotContents.{cells_at, values_at, first_cell_at, first_value_at, user_header_at};
ghost use Rattle.iox2_slots.specs.declared.slots.mark.SlotMark.TheVariants.{Written};
ghost use Rattle.iox2_domain.specs.Fields.{contents_at};
ghost use Rattle.iox2_domain.specs.LoanCalls.{HasContents, HasContentIn, with_slot_mark};
ghost use Rattle.iox2_domain.specs.LoanLends.{LendsSome, LendsContents, StateLendsCell, StateLendsCells};
ghost use Rattle.iox2_domain.specs.LoanLends.{StateLendsValue, StateLendsValues, StateLendsUserHeader};

use iox2_contents::Contents;
use iox2_domain::{DomainState, MessageSlot};
use iox2_slots::SlotMark;

/// A slot of the book at a key counts as written.
pub(crate) fn mark_written<T: Drop, U: Default + Drop>(
    state: &mut DomainState<T, U>,
    key: usize,
    slot: usize,
)
    requires { (book : Book) × (get state.old.books key ≡ Some book) × (slot < length book.holders) }
    ensures { (book : Book) → get state.old.books key ≡ Some book → state.new ≡ with_slot_mark state.old key slot book Written }
{
    state.books[key].set_mark(slot, SlotMark::Written);
}

/// The contents at a book's key, to be changed.
pub(crate) fn contents_mut<T: Drop, U: Default + Drop>(
    state: &mut DomainState<T, U>,
    key: usize,
) -> &mut Contents<T, U>
    requires { HasContents state.old key }
    ensures* writes_back { sem 𝓛 (LendsContents T.row U.row state.entry key result) }
    ensures value { slice_index_or state.old.contents key None ≡ Some result.now }
{
    there_mut(&mut state.contents[key])
}

// Contents that are there.
fn there_mut<T: Drop, U: Default + Drop>(
    contents: &mut Option<Contents<T, U>>,
) -> &mut Contents<T, U>
    requires { IsSome contents.old }
    ensures* writes_back { sem 𝓛 (LendsSome T.row U.row contents.entry result) }
    ensures value { contents.old ≡ Some result.now }
{
    match contents {
        Some(contents) => contents,
        None => unreachable!(),
    }
}

/// The first cell in a slot, to be changed.
pub fn cell_at_mut<T: Drop, U: Default + Drop>(
    state: &mut DomainState<T, U>,
    at: MessageSlot,
) -> &mut Option<T>
    requires { HasContentIn state.old at.book at.slot (λ content. 0 < length content.cells) }
    ensures* writes_back { sem 𝓛 (StateLendsCell T.row U.row state.entry at.book at.slot result) }
    ensures value { first_cell_at (contents_at state.old.contents at.book) at.slot ≡ Some result.now }
{
    contents_mut(state, at.book).cell_mut(at.slot)
}

/// The first value in a slot, to be changed.
pub fn value_at_mut<T: Drop, U: Default + Drop>(
    state: &mut DomainState<T, U>,
    at: MessageSlot,
) -> &mut T
    requires { HasContentIn state.old at.book at.slot (λ content. 0 < length content.values) }
    ensures* writes_back { sem 𝓛 (StateLendsValue T.row U.row state.entry at.book at.slot result) }
    ensures value { first_value_at (contents_at state.old.contents at.book) at.slot ≡ Some result.now }
{
    contents_mut(state, at.book).value_mut(at.slot)
}

/// The cells in a slot, to be changed, where they are handed out.
pub fn cells_at_mut<T: Drop, U: Default + Drop>(
    state: &mut DomainState<T, U>,
    at: MessageSlot,
) -> &mut [Option<T>]
    requires { HasContentIn state.old at.book at.slot (λ content. 0 < content.lists) }
    ensures* writes_back { sem 𝓛 (StateLendsCells T.row U.row state.entry at.book at.slot result) }
    ensures value { cells_at (contents_at state.old.contents at.book) at.slot ≡ Some result.now }
{
    contents_mut(state, at.book).cells_mut(at.slot)
}

/// The values in a slot, to be changed.
pub fn values_at_mut<T: Drop, U: Default + Drop>(
    state: &mut DomainState<T, U>,
    at: MessageSlot,
) -> &mut [T]
    requires { HasContentIn state.old at.book at.slot (λ content. content.is_in_place ≡ false) }
    ensures* writes_back { sem 𝓛 (StateLendsValues T.row U.row state.entry at.book at.slot result) }
    ensures value { values_at (contents_at state.old.contents at.book) at.slot ≡ Some result.now }
{
    contents_mut(state, at.book).values_mut(at.slot)
}

/// The user header in a slot, to be changed.
pub fn user_header_at_mut<T: Drop, U: Default + Drop>(
    state: &mut DomainState<T, U>,
    at: MessageSlot,
) -> &mut U
    requires { HasContentIn state.old at.book at.slot (λ content. content ≡ content) }
    ensures* writes_back { sem 𝓛 (StateLendsUserHeader T.row U.row state.entry at.book at.slot result) }
    ensures value { user_header_at (contents_at state.old.contents at.book) at.slot ≡ Some result.now }
{
    contents_mut(state, at.book).user_header_mut(at.slot)
}
