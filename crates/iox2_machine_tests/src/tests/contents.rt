ghost use Rattle.std.specs.Prelude.{◌≡◌, ◌<◌, [], length, true, false};
ghost use Rattle.iox2_contents.specs.SlotContents.{SomeAt};

use crate::tests::starts::start;
use iox2_contents::Contents;
use std::alloc::Global;
use std::process::Abort;
use std::rc::Rc;

/// A payload that is neither `Copy` nor `Clone`.
#[derive(Drop)]
struct Reading {
    celsius: u64,
}

/// A user header that is neither `Copy` nor `Clone`.
#[derive(Default, Drop)]
struct Station {
    number: u32,
}

#[test]
fn a_loan_starts_with_empty_cells(rt: HostRuntime) {
    let mut contents: Contents<Reading, Station> = Contents::new(rt.alloc(), 2, 3, true, 3).expect(
        &rt, "room",
    );
    start(&mut contents, 0, 3);
    start(&mut contents, 1, 1);
    let station = contents.user_header(1).number;
    let is_empty = contents.cell(1).is_none();
    let cells = [contents.cells(0).len(), contents.cells(1).len()];
    let values = contents.values(1).len();
    drop(contents);
    assert!(rt; station == 0 && is_empty && cells == [3, 1] && values == 0);
}

// The contents of two slots with room for three elements. A loan of three starts in the first, and one
// of one in the second, which is written.
fn written_beside_a_loan(rt: &impl Abort, alloc: Global, celsius: u64) -> Contents<Reading, Station>
    ensures slots { length result ≡ 2 }
    ensures beside { SomeAt result 0 (λ content. 0 < content.lists) }
    ensures written { SomeAt result 1 (λ content. (0 < length content.values) × (content.cells ≡ [])
        × (content.is_in_place ≡ false) × (content.lists ≡ 3) × (content.room ≡ 3)) }
{
    let mut contents: Contents<Reading, Station> = Contents::new(alloc, 2, 3, true, 3).expect(
        rt, "room",
    );
    start(&mut contents, 0, 3);
    start(&mut contents, 1, 1);
    contents.write_payload(1, Reading { celsius });
    contents
}

// How many values the second slot has, and how many cells the first and the second.
fn lengths(contents: &Contents<Reading, Station>) -> [usize; 3]
    requires first { SomeAt contents.now 0 (λ content. 0 < content.lists) }
    requires second { SomeAt contents.now 1 (λ content. (content.is_in_place ≡ false) × (0 < content.lists)) }
{
    [
        contents.values(1).len(),
        contents.cells(0).len(),
        contents.cells(1).len(),
    ]
}

#[test]
fn a_payload_is_written_and_read(rt: HostRuntime) {
    let mut contents = written_beside_a_loan(&rt, rt.alloc(), 21);
    contents.value_mut(1).celsius = 22;
    let celsius = contents.value(1).celsius;
    let written = lengths(&contents);
    start(&mut contents, 1, 2);
    let again = lengths(&contents);
    drop(contents);
    assert!(rt; celsius == 22 && written == [1, 3, 0] && again == [0, 3, 2]);
}

// The contents of two slots with a loan of one element each, in place.
fn two_loans(rt: &impl Abort, alloc: Global) -> Contents<Reading, Station>
    ensures first { SomeAt result 0 (λ content. length content.cells ≡ 1) }
    ensures second { SomeAt result 1 (λ content. (length content.cells ≡ 1) × (content.room ≡ 1) × (content.lists ≡ 0)) }
{
    let mut contents: Contents<Reading, Station> = Contents::new(alloc, 2, 1, false, 2).expect(
        rt, "room",
    );
    start(&mut contents, 0, 1);
    start(&mut contents, 1, 1);
    contents
}

// Writes the second loan, and then the first.
fn write_both(contents: &mut Contents<Reading, Station>, second: u64, first: u64)
    requires first { SomeAt contents.old 0 (λ content. length content.cells ≡ 1) }
    requires second { SomeAt contents.old 1 (λ content. (length content.cells ≡ 1) × (content.room ≡ 1) × (content.lists ≡ 0)) }
    ensures first { SomeAt contents.new 0 (λ content. 0 < length content.values) }
    ensures second { SomeAt contents.new 1 (λ content. (0 < length content.values) × (content.room ≡ 1) × (content.lists ≡ 0)) }
{
    contents.write_payload(1, Reading { celsius: second });
    contents.write_payload(0, Reading { celsius: first });
}

#[test]
fn a_single_value_is_written_and_read(rt: HostRuntime) {
    let mut contents = two_loans(&rt, rt.alloc());
    let is_empty = contents.cell(1).is_none();
    write_both(&mut contents, 21, 22);
    let written = [contents.value(1).celsius, contents.value(0).celsius];
    contents.start(1, 1);
    let is_empty_again = contents.cell(1).is_none();
    let other = contents.value(0).celsius;
    drop(contents);
    assert!(rt; is_empty && written == [21, 22] && is_empty_again && other == 22);
}

// The contents of one slot, in which a loan of that many elements is in a list.
fn listed(rt: &impl Abort, alloc: Global, len: usize) -> Contents<Reading, Station>
    ensures { SomeAt result 0 (λ content. (content.is_in_place ≡ false) × (0 < content.lists)) }
{
    let mut contents: Contents<Reading, Station> = Contents::new(alloc, 1, len, true, 2).expect(
        rt, "room",
    );
    start(&mut contents, 0, len);
    contents
}

// Writes one cell of the loan, if it has one there.
fn write_cell(contents: &mut Contents<Reading, Station>, at: usize, celsius: u64)
    requires { SomeAt contents.old 0 (λ content. (content.is_in_place ≡ false) × (0 < content.lists)) }
    ensures { SomeAt contents.new 0 (λ content. (content.is_in_place ≡ false) × (0 < content.lists)) }
{
    if let Some(cell) = contents.cells_mut(0).get_mut(at) {
        *cell = Some(Reading { celsius });
    }
}

// Takes the cells of the loan as its values, where each is written.
fn assume_init(contents: &mut Contents<Reading, Station>) -> bool
    requires { SomeAt contents.old 0 (λ content. (content.is_in_place ≡ false) × (0 < content.lists)) }
    ensures { SomeAt contents.new 0 (λ content. (content.is_in_place ≡ false) × (0 < content.lists)) }
{
    contents.assume_init(0)
}

// The value there, if the slot has one.
fn celsius_at(contents: &Contents<Reading, Station>, at: usize) -> Option<u64>
    requires { SomeAt contents.now 0 (λ content. (content.is_in_place ≡ false) × (0 < content.lists)) }
{
    contents.values(0).get(at).map(|reading| reading.celsius)
}

// Whether the cell there is written, if the slot has one.
fn is_written_at(contents: &Contents<Reading, Station>, at: usize) -> Option<bool>
    requires { SomeAt contents.now 0 (λ content. (content.is_in_place ≡ false) × (0 < content.lists)) }
{
    contents.cells(0).get(at).map(|cell| cell.is_some())
}

#[test]
fn cells_are_taken_only_once_each_is_written(rt: HostRuntime) {
    let mut contents = listed(&rt, rt.alloc(), 2);
    write_cell(&mut contents, 1, 21);
    let is_written = assume_init(&mut contents);
    let kept = [is_written_at(&contents, 0), is_written_at(&contents, 1)];
    write_cell(&mut contents, 0, 20);
    let is_written_later = assume_init(&mut contents);
    let values = [celsius_at(&contents, 0), celsius_at(&contents, 1)];
    drop(contents);
    assert!(rt; !is_written && kept == [Some(false), Some(true)]);
    assert!(rt; is_written_later && values == [Some(20), Some(21)]);
}

// The contents of one slot for a share, in which a loan has started.
fn lent_to_a_share(rt: &impl Abort, alloc: Global) -> Contents<Rc<u8>, Station>
    ensures { SomeAt result 0 (λ content. (length content.cells ≡ 1) × (content.room ≡ 1) × (content.lists ≡ 0)) }
{
    let mut contents: Contents<Rc<u8>, Station> = Contents::new(alloc, 1, 1, false, 1).expect(
        rt, "room",
    );
    start(&mut contents, 0, 1);
    contents
}

#[test]
fn what_was_put_into_a_cell_goes_with_its_loan(rt: HostRuntime) {
    let shared = Rc::new(rt.alloc(), 21_u8).expect(&rt, "a value");
    let mut contents = lent_to_a_share(&rt, rt.alloc());
    *contents.cell_mut(0) = Some(shared.clone().expect(&rt, "a share"));
    let held = Rc::strong_count(&shared);
    contents.end(0);
    let left = Rc::strong_count(&shared);
    drop(contents);
    assert!(rt; held == 2 && left == 1);
}

#[test]
fn what_lay_in_a_cleared_slot_is_dropped(rt: HostRuntime) {
    let shared = Rc::new(rt.alloc(), 21_u8).expect(&rt, "a value");
    let mut contents = lent_to_a_share(&rt, rt.alloc());
    contents.write_payload(0, shared.clone().expect(&rt, "a share"));
    let held = Rc::strong_count(&shared);
    contents.clear(rt.alloc(), 0);
    let left = Rc::strong_count(&shared);
    drop(contents);
    assert!(rt; held == 2 && left == 1);
}
