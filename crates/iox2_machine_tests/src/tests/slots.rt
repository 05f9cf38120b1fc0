use iox2_machine::{UniqueNodeId, UniquePublisherId};
use iox2_slots::{SlotBook, SlotMark};
use std::alloc::Global;
use std::process::Abort;

// A book of a publisher with that many slots, all of them free.
fn book(rt: &impl Abort, alloc: Global, slots: usize) -> SlotBook {
    let node = UniqueNodeId::new(7);
    SlotBook::new(alloc, node, UniquePublisherId::new(3), slots).expect(rt, "a book")
}

#[test]
fn as_many_slots_are_taken_as_there_are(rt: HostRuntime) {
    let mut book = book(&rt, rt.alloc(), 2);
    let publisher = book.publisher().value();
    let slots = book.len();
    let first = book.take(5, 1).expect(&rt, "a free slot");
    let half = book.is_full();
    let second = book.take(6, 2).expect(&rt, "another free slot");
    let full = book.is_full();
    let third = book.take(7, 3);
    let numbers = [book.number(first), book.number(second)];
    let header = *book.header(second);
    drop(book);
    let from = [header.node_id().value(), header.publisher_id().value()];
    assert!(rt; publisher == 3 && slots == 2 && [half, full] == [false, true]);
    assert!(rt; first != second && third == None);
    assert!(rt; numbers == [5, 6] && header.number_of_elements() == 2 && from == [7, 3]);
}

#[test]
fn a_slot_is_held_and_released(rt: HostRuntime) {
    let mut book = book(&rt, rt.alloc(), 1);
    let unused = book.is_unused();
    let slot = book.take(5, 1).expect(&rt, "a free slot");
    let unwritten = book.mark(slot);
    book.set_mark(slot, SlotMark::Sent);
    let sent = book.mark(slot);
    book.hold(slot);
    let holders = book.holders(slot);
    let first = book.release(slot);
    let used = book.is_unused();
    let last = book.release(slot);
    let again = book.take(6, 1);
    drop(book);
    assert!(rt; unwritten == SlotMark::Unwritten && sent == SlotMark::Sent);
    assert!(rt; holders == 2 && [first, last, unused, used] == [false, true, true, false]);
    assert!(rt; again == Some(slot));
}

// The slots that a book lends from one on, one after the other, until it has none.
fn lent_from(book: &mut SlotBook, start: usize) -> [Option<usize>; 4] {
    [
        book.take_from(start, 11, 1),
        book.take_from(start, 12, 1),
        book.take_from(start, 13, 1),
        book.take_from(start, 14, 1),
    ]
}

#[test]
fn a_book_that_grew_lends_the_slots_behind_its_own(rt: HostRuntime) {
    let mut book = book(&rt, rt.alloc(), 2)
        .grown(rt.alloc(), 3)
        .expect(&rt, "more slots");
    let was_full = book.is_full_from(2);
    let lent = lent_from(&mut book, 2);
    let is_full = [book.is_full_from(2), book.is_full_from(0), book.is_full()];
    let older = book.take_from(0, 15, 1);
    drop(book);
    assert!(rt; !was_full && is_full == [true, false, false] && lent[3] == None);
    assert!(rt; lent[0] >= Some(2) && lent[1] >= Some(2) && lent[2] >= Some(2) && older < Some(2));
}
