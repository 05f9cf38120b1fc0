//! A publisher sends a value.
ghost use Rattle.std.specs.Prelude.{◌≡◌, ◌<◌, ◌+◌, ◌++◌, ◌≢◌, ℕ, List, length, IfErr, IfOk, IsOk, [], ◌∷◌};

use crate::domain::Domain;
use crate::publisher::Publisher;
use crate::send_outcome::SendOutcome;
use iox2_machine::{BackpressureFn, DegradationFn, SendError};

impl Publisher {
    ghost use Rattle.iox2_machine.specs.declared.errors.LoanError.{LoanError};
    ghost use Rattle.iox2_machine.specs.declared.errors.SendError.TheVariants.{UnableToDeliver};
    ghost use Rattle.iox2_machine.specs.machine.State.{State, Messages};
    ghost use Rattle.iox2_domain.specs.Boxes.{answers_of};
    ghost use Rattle.iox2_domain.specs.Shows.{Shows};
    ghost use Rattle.iox2_pubsub.specs.Live.{A_blocked_send, AddAtMost, AllFrom, AreAllSlices, HasItsBuffer};
    ghost use Rattle.iox2_pubsub.specs.Live.{IsBlockedSend, IsConnected, IsConsistent, IsFull, IsReadyPublisher};
    ghost use Rattle.iox2_pubsub.specs.Live.{IsServed, IsServedOrPending, IsSingleValued, NeverFails, NeverWaits};
    ghost use Rattle.iox2_pubsub.specs.Live.{OthersSend, StaysBut, UpToDateStay, blocked_key, blocked_item};
    ghost use Rattle.iox2_pubsub.specs.Live.{lender_key, payloads, publisher_key, waiting};
    ghost use Rattle.iox2_pubsub.specs.BorrowsLeft.{BorrowsLeftStay};
    ghost use Rattle.iox2_pubsub.specs.Leaves.{Leaves};
    ghost use Rattle.iox2_pubsub.specs.LoansLeft.{HasLoansLeft, HasNumbersLeft, TakesOneLeft};
    ghost use Rattle.iox2_pubsub.specs.AllSubscribers.{AreConnected, AreDifferent};
    ghost use Rattle.iox2_pubsub.specs.BlockedSends.{IsNext};
    ghost use Rattle.iox2_pubsub.specs.Counts.{Counts};
    ghost use Rattle.iox2_pubsub.specs.RoomyPublishers.{HasRoomAlone, HasRoomAtAll};
    ghost use Rattle.iox2_pubsub.specs.SendCalls.{AfterError, FailsCopy, IfBlocked, IsDelivered, spent_by_copy};
    ghost use Rattle.iox2_pubsub.specs.WrittenLoans.{SendsValue};
    ghost use Rattle.iox2_pubsub.specs.Handles.{buffer_size_of, publisher_id};
    ghost use Rattle.iox2_pubsub.specs.declared.subscriber.Subscriber.{Subscriber};

    /// Lends a message, moves the value into it, and sends it, as `send` does. Refused as
    /// `loan_uninit` is, with `SendError::LoanError`: the value is dropped then, and nothing changes.
    /// Fails with `ConnectionError` and `UnableToDeliver` as `send` does.
    ///
    /// iceoryx2's `Publisher::send_copy` (`src/port/publisher.rs`).
    pub fn send_copy<T: Drop, U: Default + Drop, F: BackpressureFn, G: DegradationFn>(
        &self,
        domain: &mut Domain<T, U, F, G>,
        value: T,
    ) -> Result<SendOutcome, SendError>
        requires ready { IsReadyPublisher domain.old self.now }
        requires single_valued { IsSingleValued domain.old }
        ensures sends { (m : Messages T U) (s : State T U) → Shows domain.old m s
            → (m' : Messages T U) × (s' : State T U) × Shows domain.new m' s'
            × SendsValue (answers_of F.allows G.allows (domain.old.boxes).publishers) U.is_default m s
            (publisher_id self.now) value result m' s' }
        ensures delivered { NeverWaits domain.old (publisher_key self.now) → IfOk result IsDelivered }
        ensures consistent { IsConsistent domain.old }
        ensures blocked { IfOk result (λ outcome. IfBlocked outcome
            (λ blocked. IsBlockedSend domain.new blocked
            × (lender_key (blocked_key blocked) ≡ publisher_key self.now))) }
        ensures whose { IfOk result (λ outcome. IfBlocked outcome (λ blocked. blocked_item blocked ≡ A_blocked_send (publisher_id self.now))) }
        ensures errors { IfErr result (FailsCopy domain.old self.now) }
        ensures refused { IfErr result (λ error. (reason : LoanError) → error ≡ SendError.LoanError reason → Leaves domain.old domain.new) }
        ensures adds { AddAtMost ((domain.old.config).history_size + 1) domain.old domain.new }
        ensures brings { (subscriber : Subscriber) → (domain.old.config).history_size ≡ 0
            → waiting domain.old subscriber ≡ 0 → AreAllSlices (payloads domain.new subscriber) (value ∷ []) }
        ensures serves { (subscriber : Subscriber) → IsConnected domain.old (publisher_id self.now) subscriber
            → IfOk result (λ outcome. IsDelivered outcome → IsServed domain.old domain.new (publisher_id self.now) subscriber (value ∷ [])) }
        ensures arrives { (subscriber : Subscriber) → waiting domain.old subscriber ≡ 0 → IsConnected domain.old (publisher_id self.now) subscriber
            → IfOk result (λ outcome. IsDelivered outcome → AllFrom domain.new (publisher_id self.now) subscriber ((value ∷ []) ∷ [])) }
        ensures joins { (subscriber : Subscriber) (earlier : List (List T))
            → AllFrom domain.old (publisher_id self.now) subscriber earlier → HasItsBuffer domain.old subscriber
            → length earlier < buffer_size_of subscriber → IsConnected domain.old (publisher_id self.now) subscriber
            → IfOk result (λ outcome. IsDelivered outcome → AllFrom domain.new (publisher_id self.now) subscriber (earlier ++ (value ∷ []) ∷ [])) }
        ensures pending { (subscriber : Subscriber) → IsConnected domain.old (publisher_id self.now) subscriber
            → IfOk result (λ outcome. IfBlocked outcome (λ blocked. IsServedOrPending domain.old domain.new blocked subscriber (value ∷ []))) }
        ensures failed { (subscriber : Subscriber) → IsConnected domain.old (publisher_id self.now) subscriber
            → IfErr result (AfterError domain.old domain.new (publisher_id self.now) subscriber (value ∷ [])) }
        ensures full { (subscriber : Subscriber) → IsConnected domain.old (publisher_id self.now) subscriber
            → IfOk result (λ outcome. IfBlocked outcome
            (λ blocked. IsNext domain.new blocked subscriber
            → IsFull domain.old (publisher_id self.now) subscriber)) }
        ensures roomy_alone { (subscriber : Subscriber) → HasRoomAlone domain.old (publisher_id self.now) subscriber
            → IfOk result IsDelivered × IfErr result (λ error. error ≢ UnableToDeliver) }
        ensures roomy_at_all { (subscribers : List Subscriber)
            → HasRoomAtAll domain.old (publisher_id self.now) subscribers → IfOk result IsDelivered
            × IfErr result (λ error. error ≢ UnableToDeliver) }
        ensures counts { (subscribers : List Subscriber) → AreDifferent subscribers → AreConnected domain.old (publisher_id self.now) subscribers
            → IfOk result (λ outcome. (count : ℕ) → outcome ≡ SendOutcome.Delivered count
            → Counts domain.old domain.new (publisher_id self.now) (value ∷ []) subscribers count) }
        ensures others { OthersSend (publisher_id self.now) domain.old domain.new }
        ensures up_to_date { UpToDateStay domain.old domain.new }
        ensures granted { (loans numbers : ℕ) → HasLoansLeft domain.old self.now (loans + 1) → HasNumbersLeft domain.old (numbers + 1)
            → NeverFails domain.old (publisher_id self.now) → IsOk result }
        ensures loans_left { TakesOneLeft self.now domain.old domain.new }
        ensures borrows_left { BorrowsLeftStay domain.old domain.new }
        ensures given_back { IfOk result IsDelivered → (loans : ℕ) → HasLoansLeft domain.old self.now (loans + 1)
            → HasLoansLeft domain.new self.now (loans + 1) }
        ensures stays { StaysBut (spent_by_copy self.now result) domain.old domain.new }
    {
        let loan = self.loan_uninit(domain)?;
        loan.write_payload(domain, value).send(domain)
    }
}
