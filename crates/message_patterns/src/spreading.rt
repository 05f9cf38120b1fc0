//! A number is sent to the two subscribers of a domain. Where one is full, the send waits for it, and what each has by
//! then is said.
ghost use Rattle.std.specs.Prelude.{ℕ, [], ◌∷◌, ◌≡◌, ◌≢◌, IfNone, IfOk, IfSome, MatchResult};
ghost use Rattle.iox2_pubsub.specs.Handles.{blocked_sender, publisher_id, subscriber_id};
ghost use Rattle.iox2_pubsub.specs.Live.{A_blocked_send, IsBlockedSend, IsConnected, IsPending, IsReadyPublisher};
ghost use Rattle.iox2_pubsub.specs.Live.{IsServed, IsServedOrPending, IsSingleValued, Stays, StaysBut, UpToDateStay};
ghost use Rattle.iox2_pubsub.specs.Live.{blocked_item};
ghost use Rattle.iox2_pubsub.specs.RoomyPublishers.{HasRoomAt};
ghost use Rattle.iox2_pubsub.specs.declared.subscriber.Subscriber.{Subscriber as Port};

use crate::failure::Failure;
use iox2_pubsub::{
    BackpressureFn, BlockedSend, DegradationFn, Domain, Publisher, SendOutcome, Subscriber,
};
use std::time::Duration;

/// Sends a value to both. If one has no room, the send that waits is given to the caller.
pub fn spread<F: BackpressureFn, G: DegradationFn>(
    domain: &mut Domain<u32, (), F, G>,
    publisher: &Publisher,
    first: &Subscriber,
    second: &Subscriber,
    value: u32,
) -> Result<Option<BlockedSend>, Failure>
    requires single_valued { IsSingleValued domain.old }
    requires two { (domain.old.config).max_subscribers ≡ 2 }
    requires apart { subscriber_id first.now ≢ subscriber_id second.now }
    requires publisher { IsReadyPublisher domain.old publisher.now }
    requires first { IsConnected domain.old (publisher_id publisher.now) first.now }
    requires second { IsConnected domain.old (publisher_id publisher.now) second.now }
    ensures roomy { HasRoomAt domain.old (publisher_id publisher.now) first.now
        → HasRoomAt domain.old (publisher_id publisher.now) second.now
        → IfOk result (λ waits. IfSome waits (λ it. ⊥)) }
    ensures served { IfOk result (λ waits. IfNone waits
        (IsServed domain.old domain.new (publisher_id publisher.now) first.now (value ∷ [])
        × IsServed domain.old domain.new (publisher_id publisher.now) second.now (value ∷ []))) }
    ensures waits { IfOk result (λ waits. IfSome waits
        (λ it. IsBlockedSend domain.new it × IsServedOrPending domain.old domain.new it first.now (value ∷ [])
        × IsServedOrPending domain.old domain.new it second.now (value ∷ []))) }
    ensures ends { MatchResult result (λ waits. IfNone waits (Stays domain.old domain.new)) (λ _. Stays domain.old domain.new) }
    ensures up_to_date { UpToDateStay domain.old domain.new }
    ensures stays { StaysBut (A_blocked_send (publisher_id publisher.now)) domain.old domain.new }
{
    match publisher.send_copy(domain, value) {
        Ok(SendOutcome::Delivered(_)) => Ok(None),
        Ok(SendOutcome::Blocked(waiting)) => Ok(Some(waiting)),
        Err(error) => Err(Failure::Send(error)),
    }
}

/// Tries the send again at those that it has before it.
pub fn spread_again<F: BackpressureFn, G: DegradationFn>(
    domain: &mut Domain<u32, (), F, G>,
    waiting: BlockedSend,
) -> Result<Option<BlockedSend>, Failure>
    requires live { IsBlockedSend domain.old waiting }
    ensures served { (subscriber : Port) (value : ℕ) → IsPending domain.old waiting subscriber (value ∷ [])
        → IsConnected domain.old (blocked_sender waiting) subscriber
        → IfOk result (λ waits. IfNone waits (IsServed domain.old domain.new (blocked_sender waiting) subscriber (value ∷ []))) }
    ensures up_to_date { UpToDateStay domain.old domain.new }
    ensures stays { StaysBut (blocked_item waiting) domain.old domain.new }
{
    match waiting.retry(domain, Duration::ZERO) {
        Ok(SendOutcome::Delivered(_)) => Ok(None),
        Ok(SendOutcome::Blocked(again)) => Ok(Some(again)),
        Err(error) => Err(Failure::Send(error)),
    }
}
