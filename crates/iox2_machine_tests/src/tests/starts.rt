//! Loans of contents that have more lists of cells than slots.
ghost use Rattle.std.specs.Prelude.{◌≡◌, ◌<◌, ◌≤◌, [], length};
ghost use Rattle.iox2_contents.specs.SlotContents.{SomeAt, StartsLoan};

use iox2_contents::Contents;

/// In a slot without cells starts a loan of this length.
pub(crate) fn start<T: Drop, U: Default + Drop>(
    contents: &mut Contents<T, U>,
    slot: usize,
    len: usize,
)
    requires { SomeAt contents.old slot (λ content. (len ≤ content.room) × (content.cells ≡ []) × (0 < content.lists → length contents.old < content.lists)) }
    ensures started { StartsLoan U.is_default contents.old contents.new slot len }
    ensures len { length contents.new ≡ length contents.old }
{
    contents.start(slot, len);
}
