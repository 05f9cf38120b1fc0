//! A loan is filled in the slot in which it was just lent, and is not looked for.
ghost use Rattle.std.specs.Prelude.{◌≡◌, ◌<◌, ◌↔◌, List, false, length, IsSome};
ghost use Rattle.iox2_machine.specs.SingleValues.{is_single_valued};
ghost use Rattle.iox2_contents.specs.SlotCalls.{AnswersInOrder};
ghost use Rattle.iox2_domain.specs.Kept.{state_of};
ghost use Rattle.iox2_domain.specs.Fields.{kept_of};
ghost use Rattle.iox2_domain.specs.Invariant.{IsDomain};
ghost use Rattle.iox2_domain.specs.LoanCalls.{HoldsUnwritten, WritesLoan};
ghost use Rattle.iox2_domain.specs.LoanSlots.{LiesInSlot};

use crate::contents::{contents_mut, mark_written};
use iox2_domain::{DomainState, LoanAt};
use std::ptr::NonNull;

// Where values begin, if there are any.
fn start_of<T>(values: &[T]) -> Option<NonNull<T>>
    ensures { IsSome result ↔ 0 < length values.now }
{
    match values.first() {
        Some(first) => Some(NonNull::from_ref(first)),
        None => None,
    }
}

/// Writes into each cell of an unwritten loan what the function returns for its index, which is called
/// for 0, 1 and so on, in this order. The loan counts as written from then on. Returns where its values
/// begin, if it has any.
#[inline(always)]
pub fn fill_from_fn<T: Drop, U: Default + Drop, F: FnMut(usize) -> T + Drop>(
    state: &mut DomainState<T, U>,
    loan: &LoanAt,
    f: F,
) -> Option<NonNull<T>>
    requires agrees { IsDomain state.old }
    requires several { is_single_valued state.old.config ≡ false }
    requires live { HoldsUnwritten (state_of (kept_of state.old)) loan.now.publisher loan.now.number }
    requires lies { LiesInSlot state.old loan.now.publisher loan.now.number loan.now.book loan.now.slot }
    requires callable { F.IsAlwaysCallable f }
    ensures { (answers : List T) × AnswersInOrder F.step f answers
        × WritesLoan state.old state.new loan.now.number answers × (IsSome result ↔ 0 < length answers) }
{
    mark_written(state, loan.book, loan.slot);
    let contents = contents_mut(state, loan.book);
    contents.write_from_fn(loan.slot, f);
    start_of(contents.values(loan.slot))
}

/// Writes some value into each cell of an unwritten loan, which counts as written from then on: what
/// lay there before, and default values where less lay there. Returns where its values begin, if it has
/// any.
#[inline(always)]
pub fn fill_unspecified<T: Copy + Default + Drop, U: Default + Drop>(
    state: &mut DomainState<T, U>,
    loan: &LoanAt,
) -> Option<NonNull<T>>
    requires agrees { IsDomain state.old }
    requires several { is_single_valued state.old.config ≡ false }
    requires live { HoldsUnwritten (state_of (kept_of state.old)) loan.now.publisher loan.now.number }
    requires lies { LiesInSlot state.old loan.now.publisher loan.now.number loan.now.book loan.now.slot }
    ensures { (values : List T) × WritesLoan state.old state.new loan.now.number values × (IsSome result ↔ 0 < length values) }
{
    mark_written(state, loan.book, loan.slot);
    let contents = contents_mut(state, loan.book);
    contents.write_unspecified(loan.slot);
    start_of(contents.values(loan.slot))
}
