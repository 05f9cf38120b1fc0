//! One subscriber records each number, and others show those that they have room for. The publisher waits at a full
//! buffer: the program goes past whoever else is full, and waits for the recorder alone.
ghost use Rattle.std.specs.Prelude.{ℕ, List, [], ◌∷◌, ◌++◌, ◌+◌, ◌≡◌, IfNone, IfOk, IfSome, MatchResult};
ghost use Rattle.iox2_pubsub.specs.BlockedSends.{StaysSince};
ghost use Rattle.iox2_pubsub.specs.Handles.{blocked_sender, publisher_id};
ghost use Rattle.iox2_pubsub.specs.Live.{A_blocked_send, IsBlockedSend, IsConnected, IsPending, IsReadyPublisher};
ghost use Rattle.iox2_pubsub.specs.Live.{IsSingleValued, Stays, StaysBut, UpToDateStay, blocked_key, blocked_item};
ghost use Rattle.iox2_pubsub.specs.Live.{lender_key, publisher_key};
ghost use Rattle.message_patterns.specs.Recordings.{CarriesOn, RecorderIsServed};
ghost use Rattle.message_patterns.specs.Values.{TakesMore};

use crate::failure::Failure;
use iox2_pubsub::{
    BackpressureFn, BlockedSend, DegradationFn, Domain, Publisher, SendOutcome, Subscriber,
};
use std::time::Duration;

/// Sends a number. If the recorder is full, nothing moves for it, and the send that waits for it is given to the caller.
pub fn record<F: BackpressureFn, G: DegradationFn>(
    domain: &mut Domain<u32, (), F, G>,
    publisher: &Publisher,
    recorder: &Subscriber,
    number: u32,
) -> Result<Option<BlockedSend>, Failure>
    requires single_valued { IsSingleValued domain.old }
    requires publisher { IsReadyPublisher domain.old publisher.now }
    requires connected { IsConnected domain.old (publisher_id publisher.now) recorder.now }
    ensures recorded { IfOk result (λ waits. RecorderIsServed domain.old domain.new (publisher_id publisher.now) recorder.now number waits) }
    ensures taken { (earlier : List ℕ) (more : ℕ) → TakesMore domain.old (publisher_id publisher.now) recorder.now earlier (more + 1)
        → IfOk result (λ waits. IfNone waits (TakesMore domain.new (publisher_id publisher.now) recorder.now (earlier ++ number ∷ []) more)) }
    ensures blocked { IfOk result (λ waits. IfSome waits (λ it. IsBlockedSend domain.new it × (lender_key (blocked_key it) ≡ publisher_key publisher.now))) }
    ensures ends { MatchResult result (λ waits. IfNone waits (Stays domain.old domain.new)) (λ _. Stays domain.old domain.new) }
    ensures up_to_date { UpToDateStay domain.old domain.new }
    ensures stays { StaysBut (A_blocked_send (publisher_id publisher.now)) domain.old domain.new }
{
    match publisher.send_copy(domain, number) {
        Ok(SendOutcome::Delivered(_)) => Ok(None),
        Ok(SendOutcome::Blocked(waiting)) => pass_others(domain, waiting, recorder),
        Err(error) => Err(Failure::Send(error)),
    }
}

/// Tries the send again. Whoever took the number isn't served again.
pub fn record_again<F: BackpressureFn, G: DegradationFn>(
    domain: &mut Domain<u32, (), F, G>,
    waiting: BlockedSend,
    recorder: &Subscriber,
) -> Result<Option<BlockedSend>, Failure>
    requires live { IsBlockedSend domain.old waiting }
    ensures recorded { (number : ℕ) → IsPending domain.old waiting recorder.now (number ∷ []) → IsConnected domain.old (blocked_sender waiting) recorder.now
        → IfOk result (λ waits. RecorderIsServed domain.old domain.new (blocked_sender waiting) recorder.now number waits) }
    ensures blocked { IfOk result (λ waits. IfSome waits (λ it. IsBlockedSend domain.new it × (blocked_key it ≡ blocked_key waiting))) }
    ensures ends { MatchResult result (λ waits. IfNone waits (StaysSince waiting domain.old domain.new)) (λ _. StaysSince waiting domain.old domain.new) }
    ensures up_to_date { UpToDateStay domain.old domain.new }
    ensures stays { StaysBut (blocked_item waiting) domain.old domain.new }
{
    match waiting.retry(domain, Duration::ZERO) {
        Ok(SendOutcome::Delivered(_)) => Ok(None),
        Ok(SendOutcome::Blocked(again)) => pass_others(domain, again, recorder),
        Err(error) => Err(Failure::Send(error)),
    }
}

// Goes past whoever the send waits for, until it has ended or waits for the recorder.
fn pass_others<F: BackpressureFn, G: DegradationFn>(
    domain: &mut Domain<u32, (), F, G>,
    waiting: BlockedSend,
    recorder: &Subscriber,
) -> Result<Option<BlockedSend>, Failure>
    requires live { IsBlockedSend domain.old waiting }
    ensures carries_on { IfOk result (λ waits. CarriesOn domain.old domain.new waiting recorder.now waits) }
    ensures blocked { IfOk result (λ waits. IfSome waits (λ it. IsBlockedSend domain.new it × (blocked_key it ≡ blocked_key waiting))) }
    ensures ends { MatchResult result (λ waits. IfNone waits (StaysSince waiting domain.old domain.new)) (λ _. StaysSince waiting domain.old domain.new) }
    ensures up_to_date { UpToDateStay domain.old domain.new }
    ensures stays { StaysBut (blocked_item waiting) domain.old domain.new }
{
    let mut blocked = waiting;
    while blocked.subscriber(domain) != recorder.id() {
        match blocked.give_up(domain) {
            Ok(SendOutcome::Delivered(_)) => return Ok(None),
            Ok(SendOutcome::Blocked(again)) => blocked = again,
            Err(error) => return Err(Failure::Send(error)),
        }
    }
    Ok(Some(blocked))
}
