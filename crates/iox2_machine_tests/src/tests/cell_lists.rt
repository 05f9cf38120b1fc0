//! Lists of cells that go from loan to loan.
ghost use Rattle.std.specs.Prelude.{◌≡◌, ◌≤◌, [], length, false};
ghost use Rattle.iox2_contents.specs.SlotContents.{SomeAt};

use crate::tests::starts::start;
use iox2_contents::Contents;

// A loan of that many elements whose cells are listed, and which is written then, or ends unwritten. Returns
// its second cell.
fn listed(
    contents: &mut Contents<u64, u64>,
    len: usize,
    value: u64,
    is_written: bool,
) -> Option<u64>
    requires slots { length contents.old ≡ 2 }
    requires closed { SomeAt contents.old 0 (λ content. (len ≤ content.room) × (content.cells ≡ [])
        × (content.is_in_place ≡ false) × (content.lists ≡ 3) × (content.room ≡ 4)) }
    ensures slots { length contents.new ≡ 2 }
    ensures closed { SomeAt contents.new 0 (λ content. (content.cells ≡ []) × (content.is_in_place ≡ false) × (content.lists ≡ 3) × (content.room ≡ 4)) }
{
    start(contents, 0, len);
    if let Some(cell) = contents.cells_mut(0).get_mut(1) {
        *cell = Some(value);
    }
    let cell = match contents.cells(0).get(1) {
        Some(cell) => *cell,
        None => None,
    };
    if is_written {
        contents.write_from_fn(0, |index| index as u64);
    } else {
        contents.end(0);
    }
    cell
}

#[test]
fn more_loans_have_lists_than_there_are(rt: HostRuntime) {
    let mut contents: Contents<u64, u64> = Contents::new(rt.alloc(), 2, 4, true, 3).expect(
        &rt, "room",
    );
    let written = [
        listed(&mut contents, 4, 1, true),
        listed(&mut contents, 3, 2, true),
        listed(&mut contents, 2, 3, true),
        listed(&mut contents, 4, 4, true),
    ];
    let ended = [
        listed(&mut contents, 4, 5, false),
        listed(&mut contents, 2, 6, false),
        listed(&mut contents, 3, 7, false),
        listed(&mut contents, 4, 8, false),
    ];
    drop(contents);
    assert!(rt; written == [Some(1), Some(2), Some(3), Some(4)]);
    assert!(rt; ended == [Some(5), Some(6), Some(7), Some(8)]);
}
