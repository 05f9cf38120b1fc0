//! A loan is given back unsent.
ghost use Rattle.std.specs.Prelude.{◌≡◌, ◌<◌, ◌≤◌, List, length, None, Some, slice_index_or, IsSomeAnd};
ghost use Rattle.slab.specs.Slab.{get};
ghost use Rattle.iox2_slots.specs.SlotBook.{Book, IsInUse};
ghost use Rattle.iox2_contents.specs.SlotContents.{ContentState, with_changed, ended_content};
ghost use Rattle.iox2_machine.specs.machine.SingleCalls.{HoldsLoan};
ghost use Rattle.iox2_connections.specs.Counters.{times};
ghost use Rattle.iox2_domain.specs.Discards.{with_loan_discarded, DiscardsLoan};
ghost use Rattle.iox2_domain.specs.Fields.{kept_of};
ghost use Rattle.iox2_domain.specs.Invariant.{IsDomain};
ghost use Rattle.iox2_domain.specs.Kept.{state_of};
ghost use Rattle.iox2_domain.specs.Ports.{PublisherFields};

use crate::hinted_loans::find_live_loan;
use crate::loans::remove_loan;
use iox2_contents::Contents;
use iox2_domain::{DomainState, LoanAt};

/// Gives a publisher's loan back unsent, written or not: it is out no more, and its slot is free. If
/// the publisher is gone, its book goes with the last holder of a slot. It takes no memory.
pub fn discard_loan<T: Drop, U: Default + Drop>(state: &mut DomainState<T, U>, loan: LoanAt)
    requires agrees { IsDomain state.old }
    requires live { HoldsLoan (state_of (kept_of state.old)) loan.publisher loan.number }
    ensures { DiscardsLoan state.old state.new loan.number }
{
    let at = find_live_loan(state, &loan);
    match state.find_publisher(loan.publisher, loan.place) {
        Some(place) => discard_loan_at(state, place, at.slot),
        None => state.let_go(at.book, at.slot),
    }
}

// The loan in a slot of the publisher at a place is out no more, and the slot has one holder less, and no
// cells.
//
// iceoryx2's `Sender::return_loaned_sample` (`src/port/details/sender.rs`).
fn discard_loan_at<T: Drop, U: Default + Drop>(
    state: &mut DomainState<T, U>,
    place: usize,
    slot: usize,
)
    requires stands { (x : PublisherFields) × (b : Book) × (slice_index_or state.old.publishers place None ≡ Some x)
        × (get state.old.books x.book ≡ Some b) × IsInUse b slot }
    requires once { (x : PublisherFields) → slice_index_or state.old.publishers place None ≡ Some x → times slot x.loans ≤ 1 }
    requires contents { (x : PublisherFields) → slice_index_or state.old.publishers place None ≡ Some x
        → (cs : List (ContentState T U)) × (slice_index_or state.old.contents x.book None ≡ Some cs)
        × (slot < length cs) }
    ensures { (x : PublisherFields) (b : Book) → slice_index_or state.old.publishers place None ≡ Some x
        → get state.old.books x.book ≡ Some b → state.new ≡ with_loan_discarded state.old place x slot b }
{
    let Some(publisher) = &mut state.publishers[place] else {
        unreachable!();
    };
    remove_loan(publisher, slot);
    let key = publisher.book;
    let book = &mut state.books[key];
    book.release(slot);
    end_cells(&mut state.contents[key], slot);
}

// The slot has no cells any more.
fn end_cells<T: Drop, U: Default + Drop>(contents: &mut Option<Contents<T, U>>, slot: usize)
    requires { IsSomeAnd contents.old (λ cs. slot < length cs) }
    ensures { (cs : List (ContentState T U)) → contents.old ≡ Some cs → contents.new ≡ Some (with_changed cs slot ended_content) }
{
    let Some(contents) = contents else {
        unreachable!();
    };
    contents.end(slot);
}
