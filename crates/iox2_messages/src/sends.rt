//! A loan is sent.
ghost use Rattle.std.specs.Prelude.{◌≡◌, ℕ, IsTrue, MatchOption, MatchResult, false};
ghost use Rattle.iox2_machine.specs.machine.Environments.{fixed_handlers};
ghost use Rattle.iox2_machine.specs.machine.SingleCalls.{HoldsPublisher};
ghost use Rattle.iox2_domain.specs.Boxes.{answers_of};
ghost use Rattle.iox2_domain.specs.Kept.{state_of};
ghost use Rattle.iox2_domain.specs.Fields.{kept_of};
ghost use Rattle.iox2_domain.specs.Invariant.{IsDomain};
ghost use Rattle.iox2_domain.specs.LoanCalls.{HoldsWritten};
ghost use Rattle.iox2_domain.specs.LoanSlots.{LiesInSlot};
ghost use Rattle.iox2_domain.specs.SentLoans.{IsLeftLoan, IsNotUpdated, IsReadyToSend, SendsKeptLoan};
ghost use Rattle.iox2_machine.specs.machine.State.{is_blocked};
ghost use Rattle.iox2_messages.specs.CatchingUp.{BehindClearing};
ghost use Rattle.iox2_messages.specs.SendEnds.{IsNotLost, end_result};
ghost use Rattle.iox2_messages.specs.declared.send_end.SendEnd.{SendEnd};

use crate::catching_up::catch_up;
use crate::deliveries::{has_handler_at, send_ready, send_unasked};
use crate::discards::discard_loan;
use crate::send_end::SendEnd;
use iox2_domain::{Boxes, DomainState, LoanAt};
use iox2_machine::{BackpressureFn, ConnectionFailure, DegradationFn, UniquePublisherId};

// Whether the publisher of a loan that lies where its handle says is there, and due for nothing: so the
// loan may be sent at once, if its publisher has no handler. It returns at each test that fails
// (docs/DECISIONS.md, "A call goes on where its look-up ended").
#[inline(always)]
fn is_ready<T: Drop, U: Default + Drop>(state: &DomainState<T, U>, loan: &LoanAt) -> bool
    requires agrees { IsDomain state.now }
    requires lies { LiesInSlot state.now loan.now.publisher loan.now.number loan.now.book loan.now.slot }
    ensures { IsTrue result → IsReadyToSend fixed_handlers state.now state.now loan.now.publisher loan.now.number loan.now.place loan.now.slot }
{
    let Some(Some(publisher)) = state.publishers.get(loan.place) else {
        return false;
    };
    if !publisher.due.is_nothing() {
        return false;
    }
    if publisher.book != loan.book {
        return false;
    }
    true
}

// Where a loan may be sent: the place of its publisher, which is due for no update, and its slot.
#[derive(Clone, Copy)]
struct ReadyLoan {
    place: usize,
    slot: usize,
}

// The publisher of a loan does what it is due for, and both are found. `None` if the publisher is gone.
// Fails if the update of its connections does.
fn catch_up_and_find<T: Drop, U: Default + Drop, F: BackpressureFn, G: DegradationFn>(
    state: &mut DomainState<T, U>,
    boxes: &Boxes<F, G>,
    publisher: UniquePublisherId,
    number: u128,
) -> Result<Option<ReadyLoan>, ConnectionFailure>
    requires agrees { IsDomain state.old }
    requires live { HoldsWritten (state_of (kept_of state.old)) publisher number }
    requires unblocked { is_blocked (state_of (kept_of state.old)) publisher ≡ false }
    ensures { MatchResult result
        (λ found. MatchOption found (IsLeftLoan state.old state.new publisher)
        (λ ready. BehindClearing state.old
        (λ middle. IsReadyToSend (answers_of F.allows G.allows (boxes.now).boxes) middle state.new publisher
        number ready.place ready.slot)))
        (λ failure. (place : ℕ) × BehindClearing state.old
        (λ middle. IsNotUpdated (answers_of F.allows G.allows (boxes.now).boxes) middle state.new publisher place
        failure)) }
{
    let Some(place) = state.find_publisher(publisher, 0) else {
        return Ok(None);
    };
    if let Some(failure) = catch_up(state, boxes, place) {
        return Err(failure);
    }
    let Some(at) = state.find_loan(publisher, number) else {
        unreachable!()
    };
    Ok(Some(ReadyLoan {
        place,
        slot: at.slot,
    }))
}

// The publisher of a loan does what it is due for, and sends the loan, wherever both are. If the
// update of its connections fails, the loan is given back. Of a publisher that is gone the loan is lost.
// (docs/DECISIONS.md, "What a usual message asks about departed ports")
#[cold]
#[inline(never)]
fn catch_up_and_send<T: Drop, U: Default + Drop, F: BackpressureFn, G: DegradationFn>(
    state: &mut DomainState<T, U>,
    boxes: &Boxes<F, G>,
    publisher: UniquePublisherId,
    number: u128,
) -> SendEnd
    requires agrees { IsDomain state.old }
    requires live { HoldsWritten (state_of (kept_of state.old)) publisher number }
    requires unblocked { is_blocked (state_of (kept_of state.old)) publisher ≡ false }
    ensures sends { SendsKeptLoan (answers_of F.allows G.allows (boxes.now).boxes) state.old state.new number (end_result result) }
    ensures kept { HoldsPublisher (state_of (kept_of state.old)) publisher → IsNotLost result }
{
    match catch_up_and_find(state, boxes, publisher, number) {
        Ok(found) => match found {
            Some(ready) => send_ready(state, boxes, ready.place, ready.slot),
            None => {
                let at = state.search_loan(publisher, number);
                state.let_go(at.book, at.slot);
                SendEnd::Lost
            }
        },
        Err(failure) => {
            discard_loan(state, loan_sought(publisher, number));
            SendEnd::Unconnected(failure)
        }
    }
}

// A loan whose place isn't known yet.
fn loan_sought(publisher: UniquePublisherId, number: u128) -> LoanAt
    ensures publisher { result.publisher ≡ publisher }
    ensures number { result.number ≡ number }
{
    LoanAt {
        publisher,
        number,
        place: 0,
        book: 0,
        slot: 0,
    }
}

// Sends a loan that isn't ready, or whose publisher has a handler. The end has a place of its own here: one
// in the caller would be cleared at each message.
#[inline(always)]
fn send_unready<T: Drop, U: Default + Drop, F: BackpressureFn, G: DegradationFn>(
    state: &mut DomainState<T, U>,
    boxes: &Boxes<F, G>,
    publisher: UniquePublisherId,
    number: u128,
) -> SendEnd
    requires agrees { IsDomain state.old }
    requires live { HoldsWritten (state_of (kept_of state.old)) publisher number }
    requires unblocked { is_blocked (state_of (kept_of state.old)) publisher ≡ false }
    ensures sends { SendsKeptLoan (answers_of F.allows G.allows (boxes.now).boxes) state.old state.new number (end_result result) }
    ensures kept { HoldsPublisher (state_of (kept_of state.old)) publisher → IsNotLost result }
{
    catch_up_and_send(state, boxes, publisher, number)
}

/// Sends a publisher's written loan, and returns what `outcome` makes of how that ended. What the
/// publisher is due for is done first: older slots that nobody holds are cleared, and its connections
/// updated. If the update fails, the loan is given back, and no message was sent. Of a publisher that is gone the loan is lost. The loan is out no more
/// afterwards, unless the send is blocked. A publisher that has a box for a handler asks the one that
/// it has among these boxes.
///
/// The outcome is made in each branch so that it isn't tested twice. The
/// boxes are handed on in one call alone, so that where they lie isn't on the path of a message of a
/// publisher without a handler (docs/DECISIONS.md, "One call takes the boxes").
///
/// iceoryx2's `PublisherSharedState::send_sample` (`src/port/publisher.rs`).
#[inline(always)]
pub fn send<
    T: Drop,
    U: Default + Drop,
    F: BackpressureFn,
    G: DegradationFn,
    R,
    C: FnOnce(SendEnd) -> R,
>(state: &mut DomainState<T, U>, boxes: &Boxes<F, G>, loan: LoanAt, outcome: C) -> R
    requires agrees { IsDomain state.old }
    requires live { HoldsWritten (state_of (kept_of state.old)) loan.publisher loan.number }
    requires lies { LiesInSlot state.old loan.publisher loan.number loan.book loan.slot }
    requires unblocked { is_blocked (state_of (kept_of state.old)) loan.publisher ≡ false }
    requires callable { C.IsAlwaysCallable outcome }
    ensures { (end : SendEnd) × SendsKeptLoan (answers_of F.allows G.allows (boxes.now).boxes) state.old state.new loan.number (end_result end)
        × (HoldsPublisher (state_of (kept_of state.old)) loan.publisher → IsNotLost end) × C.post outcome end result }
{
    if is_ready(state, &loan) && !has_handler_at(state, loan.place) {
        return outcome(send_unasked(state, loan.place, loan.slot));
    }
    outcome(send_unready(state, boxes, loan.publisher, loan.number))
}
