//! A message is sent.
ghost use Rattle.std.specs.Prelude.{◌≡◌, IfErr, IfOk, ◌+◌, false};
ghost use Rattle.iox2_machine.specs.machine.SingleCalls.{HoldsPublisher};
ghost use Rattle.iox2_machine.specs.machine.State.{is_blocked};
ghost use Rattle.iox2_domain.specs.Boxes.{answers_of};
ghost use Rattle.iox2_domain.specs.Fields.{kept_of};
ghost use Rattle.iox2_domain.specs.Invariant.{IsDomain};
ghost use Rattle.iox2_domain.specs.Kept.{state_of};
ghost use Rattle.iox2_domain.specs.LoanCalls.{HoldsWritten};
ghost use Rattle.iox2_domain.specs.LoanSlots.{LiesInSlot};
ghost use Rattle.iox2_domain.specs.SentLoans.{SendsKeptLoan};
ghost use Rattle.iox2_messages.specs.SendEnds.{IsNotLost, end_result};
ghost use Rattle.iox2_messages.specs.declared.send_end.SendEnd.{SendEnd};
ghost use Rattle.iox2_pubsub.specs.SendCalls.{IfBlocked, result_of_send};

use crate::blocked_send::BlockedSend;
use crate::domain::Domain;
use crate::sample_mut::SampleMut;
use crate::send_outcome::SendOutcome;
use iox2_domain::{Boxes, DomainState, LoanAt};
use iox2_machine::{BackpressureFn, DegradationFn, SendError};
use iox2_messages::{SendEnd, send};

impl SampleMut {
    ghost use Rattle.std.specs.Prelude.{ℕ, List, Some, [], length, ◌<◌, ◌++◌, ◌∷◌, ◌≢◌};
    ghost use Rattle.iox2_machine.specs.declared.errors.SendError.TheVariants.{UnableToDeliver};
    ghost use Rattle.iox2_machine.specs.machine.Records.{Loan};
    ghost use Rattle.iox2_machine.specs.machine.State.{State, Messages};
    ghost use Rattle.iox2_pubsub.specs.Live.{AllFrom, HasItsBuffer, IsConnected, IsConsistent, IsFull, IsServed};
    ghost use Rattle.iox2_pubsub.specs.Live.{IsServedOrPending, IsUnblocked, IsWritten, written_key, AddAtMost};
    ghost use Rattle.iox2_pubsub.specs.Live.{AreAllSlices, payloads, waiting};
    ghost use Rattle.iox2_pubsub.specs.AllSubscribers.{AreConnected, AreDifferent};
    ghost use Rattle.iox2_pubsub.specs.BlockedSends.{IsNext};
    ghost use Rattle.iox2_pubsub.specs.Counts.{Counts};
    ghost use Rattle.iox2_pubsub.specs.RoomyPublishers.{HasRoomAlone, HasRoomAtAll, IsRoomy};
    ghost use Rattle.iox2_pubsub.specs.Slices.{HasValues};
    ghost use Rattle.iox2_pubsub.specs.SendCalls.{AfterError, FailsSend, IsDelivered, Sends, SpendsLoan, messages_after_send};
    ghost use Rattle.iox2_pubsub.specs.declared.subscriber.Subscriber.{Subscriber};
    ghost use Rattle.iox2_domain.specs.Boxes.{answers_of};
    ghost use Rattle.iox2_domain.specs.Shows.{Shows};
    ghost use Rattle.iox2_pubsub.specs.Handles.{buffer_size_of, written_lender, written_number};

    /// Sends the message to every open subscriber, except those whose channel 0 is closed. If the
    /// buffer of one is full and the service doesn't overflow, the publisher's handler decides, or
    /// without one its strategy: the subscriber doesn't get it, or the send is blocked, and waits for
    /// this subscriber. Returns how many subscribers took it, or the blocked send.
    ///
    /// Fails with `ConnectionBrokenSinceSenderNoLongerExists` if the publisher is gone: the message
    /// is lost. Fails with `ConnectionError` if memory for a connection with a new subscriber is
    /// refused and the publisher's handler fails the call: the loan is given back, and no message was
    /// sent. Fails with `UnableToDeliver` if the publisher's handler failed the send at some
    /// subscriber: the message was sent, and the others may have got it. No other error is returned.
    ///
    /// The loan counts among the publisher's loans until the send has ended. Its slot is free again
    /// when, besides, every subscriber that took the message has released it and no history keeps it.
    /// Memory is asked for only if the publisher gets a connection with a new subscriber: if it
    /// is refused and the send goes on, that subscriber doesn't get the message, and the domain keeps a
    /// warning, as long as the publisher's handler says no other.
    ///
    /// iceoryx2's `SampleMut::send` (`src/sample_mut.rs`).
    #[inline(always)]
    pub fn send<T: Drop, U: Default + Drop, F: BackpressureFn, G: DegradationFn>(
        self,
        domain: &mut Domain<T, U, F, G>,
    ) -> Result<SendOutcome, SendError>
        requires live { IsWritten domain.old self }
        requires unblocked { IsUnblocked domain.old (written_key self) }
        ensures errors { IfErr result (FailsSend domain.old (written_key self)) }
        ensures sent { (m : Messages T U) (s : State T U) (l : Loan T U) → Shows domain.old m s → s.loans (written_number self) ≡ Some l
            → (s' : State T U) × Shows domain.new (messages_after_send m (written_number self) l result) s'
            × Sends (answers_of F.allows G.allows (domain.old.boxes).publishers) s (written_number self) l result
            s' }
        ensures consistent { IsConsistent domain.old }
        ensures roomy { IsRoomy domain.old (written_lender self) → IfOk result IsDelivered × IfErr result (λ error. error ≢ UnableToDeliver) }
        ensures roomy_alone { (subscriber : Subscriber) → HasRoomAlone domain.old (written_lender self) subscriber
            → IfOk result IsDelivered × IfErr result (λ error. error ≢ UnableToDeliver) }
        ensures roomy_at_all { (subscribers : List Subscriber)
            → HasRoomAtAll domain.old (written_lender self) subscribers → IfOk result IsDelivered
            × IfErr result (λ error. error ≢ UnableToDeliver) }
        ensures adds { AddAtMost ((domain.old.config).history_size + 1) domain.old domain.new }
        ensures brings { (subscriber : Subscriber) (values : List T) → (domain.old.config).history_size ≡ 0 → waiting domain.old subscriber ≡ 0
            → HasValues domain.old (written_number self) values → AreAllSlices (payloads domain.new subscriber) values }
        ensures serves { (subscriber : Subscriber) (values : List T)
            → IsConnected domain.old (written_lender self) subscriber
            → HasValues domain.old (written_number self) values
            → IfOk result (λ outcome. IsDelivered outcome → IsServed domain.old domain.new (written_lender self) subscriber values) }
        ensures arrives { (subscriber : Subscriber) (values : List T) → waiting domain.old subscriber ≡ 0
            → IsConnected domain.old (written_lender self) subscriber
            → HasValues domain.old (written_number self) values
            → IfOk result (λ outcome. IsDelivered outcome
            → AllFrom domain.new (written_lender self) subscriber (values ∷ [])) }
        ensures joins { (subscriber : Subscriber) (values : List T) (earlier : List (List T))
            → AllFrom domain.old (written_lender self) subscriber earlier → HasItsBuffer domain.old subscriber
            → length earlier < buffer_size_of subscriber → IsConnected domain.old (written_lender self) subscriber
            → HasValues domain.old (written_number self) values
            → IfOk result (λ outcome. IsDelivered outcome → AllFrom domain.new (written_lender self) subscriber (earlier ++ values ∷ [])) }
        ensures pending { (subscriber : Subscriber) (values : List T)
            → IsConnected domain.old (written_lender self) subscriber
            → HasValues domain.old (written_number self) values
            → IfOk result (λ outcome. IfBlocked outcome (λ blocked. IsServedOrPending domain.old domain.new blocked subscriber values)) }
        ensures failed { (subscriber : Subscriber) (values : List T)
            → IsConnected domain.old (written_lender self) subscriber
            → HasValues domain.old (written_number self) values
            → IfErr result (AfterError domain.old domain.new (written_lender self) subscriber values) }
        ensures full { (subscriber : Subscriber) → IsConnected domain.old (written_lender self) subscriber
            → IfOk result (λ outcome. IfBlocked outcome
            (λ blocked. IsNext domain.new blocked subscriber
            → IsFull domain.old (written_lender self) subscriber)) }
        ensures counts { (subscribers : List Subscriber) (values : List T) → AreDifferent subscribers
            → AreConnected domain.old (written_lender self) subscribers
            → HasValues domain.old (written_number self) values
            → IfOk result (λ outcome. (count : ℕ) → outcome ≡ SendOutcome.Delivered count
            → Counts domain.old domain.new (written_lender self) values subscribers count) }
        ensures spends { SpendsLoan self result domain.old domain.new }
    {
        let SampleMut { service_id, loan } = self;
        let blocked = BlockedSend::of(service_id, &loan);
        send_loan(&mut domain.state, &domain.boxes, loan, blocked)
    }
}

// Sends a publisher's written loan to its receivers, once the publisher's connections are updated. If the
// send is blocked, its outcome has this handle. The handle is made before, of the numbers of the loan that
// the send consumes, and is disowned if the send isn't blocked (docs/DECISIONS.md, "A blocked
// send's handle is made before its send").
#[inline(always)]
fn send_loan<T: Drop, U: Default + Drop, F: BackpressureFn, G: DegradationFn>(
    state: &mut DomainState<T, U>,
    boxes: &Boxes<F, G>,
    loan: LoanAt,
    blocked: BlockedSend,
) -> Result<SendOutcome, SendError>
    requires agrees { IsDomain state.old }
    requires live { HoldsWritten (state_of (kept_of state.old)) loan.publisher loan.number }
    requires lies { LiesInSlot state.old loan.publisher loan.number loan.book loan.slot }
    requires unblocked { is_blocked (state_of (kept_of state.old)) loan.publisher ≡ false }
    ensures ends { (end : SendEnd) × SendsKeptLoan (answers_of F.allows G.allows (boxes.now).boxes) state.old state.new loan.number (end_result end)
        × (HoldsPublisher (state_of (kept_of state.old)) loan.publisher → IsNotLost end) × (result_of_send result ≡ end_result end) }
    ensures blocked { IfOk result (λ came. IfBlocked came (λ it. it ≡ blocked)) }
{
    let BlockedSend {
        service_id,
        loan: kept,
    } = blocked;
    send(state, boxes, loan, move |end| {
        outcome_of(
            BlockedSend {
                service_id,
                loan: kept,
            },
            end,
        )
    })
}

/// The outcome of a send that ended so. If the send is blocked, the outcome has this handle.
pub(crate) fn outcome_of(blocked: BlockedSend, end: SendEnd) -> Result<SendOutcome, SendError>
    ensures same { result_of_send result ≡ end_result end }
    ensures blocked { IfOk result (λ came. IfBlocked came (λ it. it ≡ blocked)) }
{
    match end {
        SendEnd::Delivered(count) => {
            blocked.disown();
            Ok(SendOutcome::Delivered(count))
        }
        SendEnd::Undelivered => {
            blocked.disown();
            Err(SendError::UnableToDeliver)
        }
        SendEnd::Blocked => Ok(SendOutcome::Blocked(blocked)),
        SendEnd::Lost => {
            blocked.disown();
            Err(SendError::ConnectionBrokenSinceSenderNoLongerExists)
        }
        SendEnd::Unconnected(failure) => {
            blocked.disown();
            Err(SendError::ConnectionError(failure))
        }
    }
}
