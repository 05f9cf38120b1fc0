//! Loans whose cells nobody writes, and cells that loans share until they are written.
ghost use Rattle.std.specs.Prelude.{◌≡◌, ◌≤◌, [], length, true, false};
ghost use Rattle.iox2_contents.specs.SlotContents.{SomeAt};

use crate::tests::starts::start;
use iox2_contents::Contents;
use std::alloc::Global;
use std::process::Abort;

// The contents of two slots with room for five numbers each.
fn five(rt: &impl Abort, alloc: Global) -> Contents<u64, u64>
    ensures slots { length result ≡ 2 }
    ensures first { SomeAt result 0 (λ content. (content.cells ≡ []) × (content.is_in_place ≡ false) × (content.lists ≡ 3) × (content.room ≡ 5)) }
    ensures second { SomeAt result 1 (λ content. (content.cells ≡ []) × (content.is_in_place ≡ false) × (content.lists ≡ 3) × (content.room ≡ 5)) }
{
    Contents::new(alloc, 2, 5, true, 3).expect(rt, "room")
}

// Whether a loan of that many elements in the first slot, whose cells nobody writes, has these values.
fn has(contents: &mut Contents<u64, u64>, len: usize, values: &[u64]) -> bool
    requires room { SomeAt contents.old 0 (λ content. (content.cells ≡ []) × (content.is_in_place ≡ false) × (content.lists ≡ 3) × (content.room ≡ 5)) }
    requires slots { length contents.old ≡ 2 }
    requires length { len ≤ 5 }
    ensures slots { length contents.new ≡ 2 }
    ensures room { SomeAt contents.new 0 (λ content. (content.cells ≡ []) × (content.is_in_place ≡ false) × (content.lists ≡ 3) × (content.room ≡ 5)) }
{
    start(contents, 0, len);
    contents.write_unspecified(0);
    contents.values(0) == values
}

#[test]
fn what_nobody_writes_lay_there_before(rt: HostRuntime) {
    let mut contents = five(&rt, rt.alloc());
    let first = has(&mut contents, 2, [0, 0].as_slice());
    start(&mut contents, 0, 3);
    contents.write_from_fn(0, |index| (index as u64).wrapping_add(7));
    let longer = has(&mut contents, 5, [7, 8, 9, 0, 0].as_slice());
    let shorter = has(&mut contents, 1, [7].as_slice());
    let as_before = has(&mut contents, 5, [7, 8, 9, 0, 0].as_slice());
    drop(contents);
    assert!(rt; first && longer && shorter && as_before);
}

// Whether the loan in the first slot ends, and the next one there has three cells that aren't written.
fn starts_anew(contents: &mut Contents<u64, u64>) -> bool
    requires slots { length contents.old ≡ 2 }
    requires room { SomeAt contents.old 0 (λ content. (content.is_in_place ≡ false) × (content.lists ≡ 3) × (content.room ≡ 5)) }
{
    contents.end(0);
    start(contents, 0, 3);
    contents.cells(0) == [None, None, None].as_slice()
}

#[test]
fn cells_of_one_loan_are_no_other_s(rt: HostRuntime) {
    let mut contents = five(&rt, rt.alloc());
    start(&mut contents, 0, 5);
    start(&mut contents, 1, 2);
    if let Some(cell) = contents.cells_mut(0).get_mut(1) {
        *cell = Some(3);
    }
    let written = contents.cells(0) == [None, Some(3), None, None, None].as_slice();
    let beside = contents.cells(1) == [None, None].as_slice();
    let again = starts_anew(&mut contents);
    drop(contents);
    assert!(rt; written && beside && again);
}

// The contents of a slot with room for two numbers, and of one more with room for five.
fn grown(rt: &impl Abort, alloc: Global) -> Contents<u64, u64>
    ensures slots { length result ≡ 2 }
    ensures added { SomeAt result 1 (λ content. (content.cells ≡ []) × (content.is_in_place ≡ false) × (content.lists ≡ 3) × (content.room ≡ 5)) }
{
    let mut contents: Contents<u64, u64> = Contents::new(alloc, 1, 2, true, 3).expect(rt, "room");
    contents.grow(alloc, 1, 5, true, 3).expect(rt, "more room");
    contents
}

#[test]
fn longer_slots_show_as_many_cells(rt: HostRuntime) {
    let mut contents = grown(&rt, rt.alloc());
    start(&mut contents, 1, 5);
    let shown = contents.cells(1) == [None, None, None, None, None].as_slice();
    drop(contents);
    assert!(rt; shown);
}

// The contents of a slot with room for five numbers, which hands out no list of cells.
fn without_cells(rt: &impl Abort, alloc: Global) -> Contents<u64, u64>
    ensures { SomeAt result 0 (λ content. (content.is_in_place ≡ false) × (content.lists ≡ 0) × (content.room ≡ 5)) }
{
    Contents::new(alloc, 1, 5, true, 0).expect(rt, "room")
}

#[test]
fn a_loan_without_cells_is_written(rt: HostRuntime) {
    let mut contents = without_cells(&rt, rt.alloc());
    contents.start(0, 3);
    let is_empty = contents.cell(0).is_none();
    *contents.cell_mut(0) = Some(4);
    let first = *contents.cell(0);
    let is_whole = contents.assume_init(0);
    contents.write_from_fn(0, |index| (index as u64).wrapping_add(7));
    let is_written = contents.values(0) == [7, 8, 9].as_slice();
    contents.start(0, 1);
    let is_empty_again = contents.cell(0).is_none();
    drop(contents);
    assert!(rt; is_empty && first == Some(4) && !is_whole && is_written && is_empty_again);
}
