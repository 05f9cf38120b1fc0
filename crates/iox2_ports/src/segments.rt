//! The memory of a publisher: a book of its slots, and their contents at the book's key.
ghost use Rattle.std.specs.Prelude.{◌≡◌, ◌*◌, ◌<◌, true, None, Some, IfOk, OnOk, OnErr, IsTrue, SomeIff};
ghost use Rattle.slab.specs.Slab.{Updates, get};
ghost use Rattle.iox2_machine.specs.machine.Limits.{segment_fits};
ghost use Rattle.iox2_machine.specs.machine.Ports.{first_segment_fits, slots_for};
ghost use Rattle.iox2_domain.specs.NewPublisher.{IsNewSegment};
ghost use Rattle.iox2_domain.specs.Ports.{slot_length};
ghost use Rattle.iox2_domain.specs.Placed.{placed};
ghost use Rattle.iox2_ports.specs.Settings.{settings_with};

use iox2_contents::Contents;
use iox2_domain::{PublisherOptions, put_at_place, reserve_place, segment_size, units_of};
use iox2_machine::{
    AllocationStrategy, ServiceConfig, UniqueNodeId, UniquePublisherId, worst_case_slots,
};
use iox2_slots::SlotBook;
use slab::Slab;
use std::alloc::{AllocError, Global};

/// How the slots of a publisher are to be allocated.
#[derive(Clone, Copy)]
pub struct SegmentOptions {
    /// How its memory grows.
    pub allocation: AllocationStrategy,
    /// How many slots are asked for in place of the worst case, if any number is.
    pub asked_slots: Option<usize>,
}

/// How many slots each segment of a publisher with these options has: no more than the worst case,
/// and at least one if that isn't none. `None` if the worst case or the size of the first
/// segment doesn't fit `usize`.
pub(crate) fn first_segment(
    config: &ServiceConfig,
    given: &PublisherOptions,
    segments: SegmentOptions,
) -> Option<usize>
    ensures { SomeIff result (IsTrue (first_segment_fits config.now (settings_with given.now None segments)))
        (slots_for config.now (settings_with given.now None segments)) }
{
    let worst = worst_case_slots(config, given.max_loaned_samples)?;
    let slots = match segments.asked_slots {
        Some(asked) => worst.min(asked.max(1)),
        None => worst,
    };
    segment_size(slots, given.initial_max_slice_len, config.units_per_element)?;
    Some(slots)
}

/// The room that each of `slots` slots needs for `len` elements, and for one at least. If there are
/// no slots, none is needed.
pub(crate) fn room_for(config: &ServiceConfig, slots: usize, len: usize) -> usize
    requires { segment_fits config.now slots len ≡ true }
    ensures { 0 < slots → result ≡ slot_length len * (config.now).units_per_element }
{
    if slots == 0 {
        return 0;
    }
    units_of(len.max(1), config.units_per_element)
}

/// The slots of a publisher: what is known of them, and what lies in them.
#[derive(Drop)]
pub(crate) struct Segment<T, U> {
    book: SlotBook,
    contents: Contents<T, U>,
}

impl<T: Drop, U: Default + Drop> Segment<T, U> {
    /// The slots of a publisher of this node: `slots` of them, without holders, each with room for `room`
    /// elements. These are in lists if they are to be handed out as slices. Their cells can then be handed
    /// out for `lists` loans at a time.
    pub(crate) fn new(
        alloc: Global,
        node: UniqueNodeId,
        publisher: UniquePublisherId,
        slots: usize,
        room: usize,
        in_lists: bool,
        lists: usize,
    ) -> Result<Self, AllocError>
        ensures { IfOk result (λ segment. IsNewSegment segment.book segment.contents node publisher slots room in_lists lists) }
    {
        let book = SlotBook::new(alloc, node, publisher, slots)?;
        let contents = Contents::new(alloc, slots, room, in_lists, lists)?;
        Ok(Segment { book, contents })
    }
}

/// Keeps a segment's book and contents at one key, which the books had vacant. If memory is
/// refused, both stay as they are.
pub(crate) fn add_segment<T: Drop, U: Drop>(
    books: &mut Slab<SlotBook>,
    contents: &mut Vec<Option<Contents<T, U>>>,
    segment: Segment<T, U>,
) -> Result<(), AllocError>
    ensures vacant { OnOk result (get books.old books.old.vacant_key ≡ None) }
    ensures updates { OnOk result (Updates books.old books.new books.old.vacant_key (Some segment.book)) }
    ensures contents { OnOk result (contents.new.items ≡ placed contents.old.items books.old.vacant_key segment.contents) }
    ensures same_books { OnErr result (books.new ≡ record books.old { capacity = books.new.capacity }) }
    ensures same_contents { OnErr result (contents.new.items ≡ contents.old.items) }
{
    let key = books.vacant_key();
    reserve_place(contents, key)?;
    let Segment {
        book,
        contents: slot_contents,
    } = segment;
    let Ok(key) = books.insert(book) else {
        return Err(AllocError);
    };
    put_at_place(contents, key, slot_contents);
    Ok(())
}
