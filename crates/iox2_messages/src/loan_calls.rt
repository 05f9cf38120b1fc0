//! Calls on a loan that is out.
ghost use Rattle.std.specs.Prelude.{◌≡◌, true, false, List, ◌∷◌, [], Some, length, map};
ghost use Rattle.iox2_machine.specs.SingleValues.{is_single_valued};
ghost use Rattle.iox2_contents.specs.SlotCalls.{AnswersInOrder};
ghost use Rattle.iox2_machine.specs.machine.Records.{Loan};
ghost use Rattle.iox2_machine.specs.machine.SingleCalls.{HoldsLoan};
ghost use Rattle.iox2_machine.specs.declared.service_config.TypeVariant.TheVariants.{FixedSize};
ghost use Rattle.iox2_domain.specs.Kept.{state_of};
ghost use Rattle.iox2_domain.specs.Fields.{kept_of};
ghost use Rattle.iox2_domain.specs.Invariant.{IsDomain};
ghost use Rattle.iox2_domain.specs.LoanSlots.{LiesInSlot};
ghost use Rattle.iox2_domain.specs.LoanCalls.{HoldsUnwritten, HoldsWritten, HasCells, HasCell, HasLoanHeader, HasLoanUserHeader, WritesLoan, AssumesLoan};

use crate::contents::{contents_mut, mark_written};
use crate::hinted_loans::find_live_loan;
use iox2_domain::{DomainState, LoanAt};
use iox2_machine::Header;

/// Writes the value of a publisher's unwritten loan of one element, which counts as written from
/// then on. Returns the loan.
pub fn write_loan<T: Drop, U: Default + Drop>(
    state: &mut DomainState<T, U>,
    loan: LoanAt,
    value: T,
) -> LoanAt
    requires agrees { IsDomain state.old }
    requires fixed_size { (state.old.config).variant ≡ FixedSize }
    requires single { (state.old.config).units_per_element ≡ 1 }
    requires live { HoldsUnwritten (state_of (kept_of state.old)) loan.publisher loan.number }
    requires lies { LiesInSlot state.old loan.publisher loan.number loan.book loan.slot }
    ensures writes { WritesLoan state.old state.new loan.number (value ∷ []) }
    ensures same { result ≡ loan }
{
    mark_written(state, loan.book, loan.slot);
    contents_mut(state, loan.book).write_payload(loan.slot, value);
    loan
}

/// Writes into each cell of a publisher's unwritten loan what the function returns for its index. It
/// is called for 0, 1 and so on, in this order. The loan counts as written from then on. Returns it.
pub fn write_loan_from_fn<T: Drop, U: Default + Drop, F: FnMut(usize) -> T + Drop>(
    state: &mut DomainState<T, U>,
    loan: LoanAt,
    f: F,
) -> LoanAt
    requires agrees { IsDomain state.old }
    requires several { is_single_valued state.old.config ≡ false }
    requires live { HoldsUnwritten (state_of (kept_of state.old)) loan.publisher loan.number }
    requires lies { LiesInSlot state.old loan.publisher loan.number loan.book loan.slot }
    requires callable { F.IsAlwaysCallable f }
    ensures writes { (answers : List T) × AnswersInOrder F.step f answers × WritesLoan state.old state.new loan.number answers }
    ensures same { result ≡ loan }
{
    mark_written(state, loan.book, loan.slot);
    contents_mut(state, loan.book).write_from_fn(loan.slot, f);
    loan
}

/// Writes copies of the values, one into each cell of a publisher's unwritten loan, which has as
/// many. It counts as written from then on. Returns it.
pub fn write_loan_from_slice<T: Copy + Drop, U: Default + Drop>(
    state: &mut DomainState<T, U>,
    loan: LoanAt,
    values: &[T],
) -> LoanAt
    requires agrees { IsDomain state.old }
    requires several { is_single_valued state.old.config ≡ false }
    requires live { HoldsUnwritten (state_of (kept_of state.old)) loan.publisher loan.number }
    requires lies { LiesInSlot state.old loan.publisher loan.number loan.book loan.slot }
    requires lengths { (l : Loan T U) → (state_of (kept_of state.old)).loans loan.number ≡ Some l → length values.now ≡ length l.cells }
    ensures writes { WritesLoan state.old state.new loan.number values.now }
    ensures same { result ≡ loan }
{
    mark_written(state, loan.book, loan.slot);
    contents_mut(state, loan.book).write_from_slice(loan.slot, values);
    loan
}

/// Writes some value into each cell of a publisher's unwritten loan, which counts as written from then
/// on: what lay there before, and default values where less lay there. Returns it.
pub fn write_loan_unspecified<T: Copy + Default + Drop, U: Default + Drop>(
    state: &mut DomainState<T, U>,
    loan: LoanAt,
) -> LoanAt
    requires agrees { IsDomain state.old }
    requires several { is_single_valued state.old.config ≡ false }
    requires live { HoldsUnwritten (state_of (kept_of state.old)) loan.publisher loan.number }
    requires lies { LiesInSlot state.old loan.publisher loan.number loan.book loan.slot }
    ensures writes { (values : List T) × WritesLoan state.old state.new loan.number values }
    ensures same { result ≡ loan }
{
    mark_written(state, loan.book, loan.slot);
    contents_mut(state, loan.book).write_unspecified(loan.slot);
    loan
}

/// Takes a publisher's unwritten loan as written, if each of its cells is, and returns whether it
/// did. Nothing changes where some cell isn't written.
pub fn assume_loan<T: Drop, U: Default + Drop>(state: &mut DomainState<T, U>, loan: &LoanAt) -> bool
    requires agrees { IsDomain state.old }
    requires live { HoldsUnwritten (state_of (kept_of state.old)) loan.now.publisher loan.now.number }
    requires lies { LiesInSlot state.old loan.now.publisher loan.now.number loan.now.book loan.now.slot }
    ensures { AssumesLoan state.old state.new loan.now.number result }
{
    if !contents_mut(state, loan.book).assume_init(loan.slot) {
        return false;
    }
    mark_written(state, loan.book, loan.slot);
    true
}

/// The cell of a publisher's unwritten loan of one element.
pub fn loan_cell<'a, T: Drop, U: Default + Drop>(
    state: &'a DomainState<T, U>,
    loan: &LoanAt,
) -> &'a Option<T>
    requires agrees { IsDomain state.now }
    requires fixed_size { (state.now.config).variant ≡ FixedSize }
    requires single { (state.now.config).units_per_element ≡ 1 }
    requires live { HoldsUnwritten (state_of (kept_of state.now)) loan.now.publisher loan.now.number }
    requires lies { LiesInSlot state.now loan.now.publisher loan.now.number loan.now.book loan.now.slot }
    ensures { HasCell (state_of (kept_of state.now)) loan.now.number result.now }
{
    let Some(contents) = &state.contents[loan.book] else {
        unreachable!()
    };
    contents.cell(loan.slot)
}

/// The value of a publisher's written loan of one element.
pub fn loan_value<'a, T: Drop, U: Default + Drop>(
    state: &'a DomainState<T, U>,
    loan: &LoanAt,
) -> &'a T
    requires agrees { IsDomain state.now }
    requires fixed_size { (state.now.config).variant ≡ FixedSize }
    requires single { (state.now.config).units_per_element ≡ 1 }
    requires live { HoldsWritten (state_of (kept_of state.now)) loan.now.publisher loan.now.number }
    requires lies { LiesInSlot state.now loan.now.publisher loan.now.number loan.now.book loan.now.slot }
    ensures { HasCell (state_of (kept_of state.now)) loan.now.number (Some result.now) }
{
    let Some(contents) = &state.contents[loan.book] else {
        unreachable!()
    };
    contents.value(loan.slot)
}

/// The cells of a publisher's unwritten loan, where messages aren't single values and cells are handed
/// out.
pub fn loan_cells<'a, T: Drop, U: Default + Drop>(
    state: &'a DomainState<T, U>,
    loan: &LoanAt,
) -> &'a [Option<T>]
    requires agrees { IsDomain state.now }
    requires several { is_single_valued state.now.config ≡ false }
    requires lists_cells { (state.now.config).lists_cells ≡ true }
    requires live { HoldsUnwritten (state_of (kept_of state.now)) loan.now.publisher loan.now.number }
    requires lies { LiesInSlot state.now loan.now.publisher loan.now.number loan.now.book loan.now.slot }
    ensures { HasCells (state_of (kept_of state.now)) loan.now.number result.now }
{
    let Some(contents) = &state.contents[loan.book] else {
        unreachable!()
    };
    contents.cells(loan.slot)
}

/// The values of a publisher's written loan, where messages aren't single values.
pub fn loan_values<'a, T: Drop, U: Default + Drop>(
    state: &'a DomainState<T, U>,
    loan: &LoanAt,
) -> &'a [T]
    requires agrees { IsDomain state.now }
    requires several { is_single_valued state.now.config ≡ false }
    requires live { HoldsWritten (state_of (kept_of state.now)) loan.now.publisher loan.now.number }
    requires lies { LiesInSlot state.now loan.now.publisher loan.now.number loan.now.book loan.now.slot }
    ensures { HasCells (state_of (kept_of state.now)) loan.now.number (map Some result.now) }
{
    let Some(contents) = &state.contents[loan.book] else {
        unreachable!()
    };
    contents.values(loan.slot)
}

/// The header of a publisher's loan.
pub fn loan_header<'a, T: Drop, U: Default + Drop>(
    state: &'a DomainState<T, U>,
    loan: &LoanAt,
) -> &'a Header
    requires agrees { IsDomain state.now }
    requires live { HoldsLoan (state_of (kept_of state.now)) loan.now.publisher loan.now.number }
    ensures { HasLoanHeader (state_of (kept_of state.now)) loan.now.number result.now }
{
    let at = find_live_loan(state, loan);
    state.books[at.book].header(at.slot)
}

/// The user header of a publisher's loan.
pub fn loan_user_header<'a, T: Drop, U: Default + Drop>(
    state: &'a DomainState<T, U>,
    loan: &LoanAt,
) -> &'a U
    requires agrees { IsDomain state.now }
    requires live { HoldsLoan (state_of (kept_of state.now)) loan.now.publisher loan.now.number }
    ensures { HasLoanUserHeader (state_of (kept_of state.now)) loan.now.number result.now }
{
    let at = find_live_loan(state, loan);
    let Some(contents) = &state.contents[at.book] else {
        unreachable!()
    };
    contents.user_header(at.slot)
}
