//! A number is pushed behind those that wait for the one subscriber of a domain. Where that is full, the
//! blocked send is given to the caller, who tries it again once there is room.
ghost use Rattle.std.specs.Prelude.{ℕ, List, [], ◌∷◌, ◌++◌, ◌+◌, ◌<◌, ◌≤◌, ◌≡◌, length, IfNone, IfOk, IfSome, MatchResult, OnOk};
ghost use Rattle.iox2_pubsub.specs.Handles.{blocked_sender, buffer_size_of, publisher_id};
ghost use Rattle.iox2_pubsub.specs.Live.{A_blocked_send, HasItsBuffer, IsBlockedSend, IsConnected, IsLiveSubscriber};
ghost use Rattle.iox2_pubsub.specs.Live.{IsPending, IsReadyPublisher, IsSingleValued, IsSubscriberKey, IsUpToDate};
ghost use Rattle.iox2_pubsub.specs.Live.{Stays, StaysBut, UpToDateStay, blocked_key, lender_key, publisher_key};
ghost use Rattle.iox2_pubsub.specs.Live.{subscriber_key};
ghost use Rattle.iox2_pubsub.specs.BorrowsLeft.{BorrowsLeftStay, HasBorrowsLeft};
ghost use Rattle.iox2_pubsub.specs.RoomyPublishers.{HasRoomAlone, HasRoomAt};
ghost use Rattle.iox2_pubsub.specs.declared.subscriber.Subscriber.{Subscriber as Port};
ghost use Rattle.message_patterns.specs.Values.{TakesMore, Wait};

use crate::Numbers;
use crate::failure::Failure;
use crate::passing::read_one;
use iox2_pubsub::{
    BackpressureFn, BlockedSend, DegradationFn, Domain, Publisher, SendOutcome, Subscriber,
};
use std::time::Duration;

/// Puts a value behind those that wait. If the subscriber is full, nothing moves, and the send that
/// waits for it is given to the caller.
pub fn push_or_wait<F: BackpressureFn, G: DegradationFn>(
    domain: &mut Domain<u32, (), F, G>,
    publisher: &Publisher,
    value: u32,
) -> Result<Option<BlockedSend>, Failure>
    requires single_valued { IsSingleValued domain.old }
    requires one { (domain.old.config).max_subscribers ≡ 1 }
    requires publisher { IsReadyPublisher domain.old publisher.now }
    ensures taken { (subscriber : Port) (earlier : List ℕ) (more : ℕ) → TakesMore domain.old (publisher_id publisher.now) subscriber earlier (more + 1)
        → IfOk result (λ waits. IfNone waits (TakesMore domain.new (publisher_id publisher.now) subscriber (earlier ++ value ∷ []) more)) }
    ensures roomy { (subscriber : Port) → HasRoomAlone domain.old (publisher_id publisher.now) subscriber → IfOk result (λ waits. IfSome waits (λ it. ⊥)) }
    ensures waits { (subscriber : Port) (earlier : List ℕ)
        → Wait domain.old (publisher_id publisher.now) subscriber earlier
        → IsConnected domain.old (publisher_id publisher.now) subscriber
        → IfOk result (λ waits. IfSome waits
        (λ it. Wait domain.new (publisher_id publisher.now) subscriber earlier
        × IsPending domain.new it subscriber (value ∷ []))) }
    ensures blocked { IfOk result (λ waits. IfSome waits (λ it. IsBlockedSend domain.new it × (lender_key (blocked_key it) ≡ publisher_key publisher.now))) }
    ensures ends { MatchResult result (λ waits. IfNone waits (Stays domain.old domain.new)) (λ _. Stays domain.old domain.new) }
    ensures borrows { BorrowsLeftStay domain.old domain.new }
    ensures up_to_date { UpToDateStay domain.old domain.new }
    ensures stays { StaysBut (A_blocked_send (publisher_id publisher.now)) domain.old domain.new }
{
    match publisher.send_copy(domain, value) {
        Ok(SendOutcome::Delivered(_)) => Ok(None),
        Ok(SendOutcome::Blocked(waiting)) => Ok(Some(waiting)),
        Err(error) => Err(Failure::Send(error)),
    }
}

/// Tries the send again. If there is room, its value waits behind the others then; if not, nothing moves,
/// and the send is given back.
pub fn push_again<F: BackpressureFn, G: DegradationFn>(
    domain: &mut Domain<u32, (), F, G>,
    waiting: BlockedSend,
) -> Result<Option<BlockedSend>, Failure>
    requires live { IsBlockedSend domain.old waiting }
    requires one { (domain.old.config).max_subscribers ≡ 1 }
    ensures taken { (subscriber : Port) (value : ℕ) (earlier : List ℕ)
        → IsPending domain.old waiting subscriber (value ∷ [])
        → IsConnected domain.old (blocked_sender waiting) subscriber
        → Wait domain.old (blocked_sender waiting) subscriber earlier
        → HasItsBuffer domain.old subscriber → length earlier < buffer_size_of subscriber
        → IfOk result (λ waits. IfNone waits (Wait domain.new (blocked_sender waiting) subscriber (earlier ++ value ∷ []))) }
    ensures waits { (subscriber : Port) (value : ℕ) (earlier : List ℕ)
        → IsPending domain.old waiting subscriber (value ∷ [])
        → IsConnected domain.old (blocked_sender waiting) subscriber
        → Wait domain.old (blocked_sender waiting) subscriber earlier
        → IfOk result (λ waits. IfSome waits
        (λ it. Wait domain.new (blocked_sender waiting) subscriber earlier
        × IsPending domain.new it subscriber (value ∷ []))) }
    ensures roomy { (subscriber : Port) (value : ℕ) → IsPending domain.old waiting subscriber (value ∷ [])
        → IsSubscriberKey domain.old (subscriber_key subscriber)
        → HasRoomAt domain.old (blocked_sender waiting) subscriber
        → IfOk result (λ waits. IfSome waits (λ it. ⊥)) }
    ensures blocked { IfOk result (λ waits. IfSome waits (λ it. IsBlockedSend domain.new it × (blocked_key it ≡ blocked_key waiting))) }
    ensures up_to_date { UpToDateStay domain.old domain.new }
{
    match waiting.retry(domain, Duration::ZERO) {
        Ok(SendOutcome::Delivered(_)) => Ok(None),
        Ok(SendOutcome::Blocked(again)) => Ok(Some(again)),
        Err(error) => Err(Failure::Send(error)),
    }
}

/// Puts a value behind those that wait, all of this publisher. If the subscriber is full, takes the first
/// out for it, and returns that.
pub fn push_over(
    domain: &mut Numbers,
    publisher: &Publisher,
    subscriber: &Subscriber,
    value: u32,
) -> Result<Option<u32>, Failure>
    requires single_valued { IsSingleValued domain.old }
    requires one { (domain.old.config).max_subscribers ≡ 1 }
    requires publisher { IsReadyPublisher domain.old publisher.now }
    requires subscriber { IsLiveSubscriber domain.old subscriber.now }
    requires joined { IsConnected domain.old (publisher_id publisher.now) subscriber.now }
    requires buffer { HasItsBuffer domain.old subscriber.now }
    requires holds { 0 < buffer_size_of subscriber.now }
    requires own { (earlier : List ℕ) × Wait domain.old (publisher_id publisher.now) subscriber.now earlier }
    requires up_to_date { IsUpToDate domain.old subscriber.now }
    requires borrows { HasBorrowsLeft domain.old subscriber.now 1 }
    ensures taken { (earlier : List ℕ) → TakesMore domain.old (publisher_id publisher.now) subscriber.now earlier 1
        → IfOk result (λ out. IfNone out (Wait domain.new (publisher_id publisher.now) subscriber.now (earlier ++ value ∷ []))) }
    ensures over { (earlier : List ℕ) → Wait domain.old (publisher_id publisher.now) subscriber.now earlier → length earlier ≤ buffer_size_of subscriber.now
        → IfOk result (λ out. IfSome out
        (λ first. (others : List ℕ) × (earlier ≡ first ∷ others)
        × Wait domain.new (publisher_id publisher.now) subscriber.now (others ++ value ∷ []))) }
{
    let Some(waiting) = push_or_wait(domain, publisher, value)? else {
        return Ok(None);
    };
    match read_one(domain, subscriber) {
        Ok(Some(first)) => match push_again(domain, waiting)? {
            None => Ok(Some(first)),
            Some(_) => unreachable!(),
        },
        Ok(None) => unreachable!(),
        Err(_) => unreachable!(),
    }
}
