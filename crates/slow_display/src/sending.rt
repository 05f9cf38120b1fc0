//! Readings are sent to a display that may be full.
ghost use Rattle.std.specs.Prelude.{◌≡◌, IfNone, IfOk, IfSome, MatchResult};
ghost use Rattle.iox2_pubsub.specs.BlockedSends.{StaysSince};
ghost use Rattle.iox2_pubsub.specs.Live.{A_blocked_send, IsBlockedSend, Stays, StaysBut, blocked_key, blocked_item, lender_key, publisher_key};
ghost use Rattle.slow_display.specs.Ports.{CanSendReading};

use crate::failure::Failure;
use iox2_pubsub::{BlockedSend, Domain, Publisher, SendOutcome};
use std::time::Duration;

/// Sends the readings one after the other, until one has to wait. Returns that send, and none where
/// the display took all of them.
pub fn send_until_full(
    domain: &mut Domain<u32, ()>,
    publisher: &Publisher,
    readings: &[u32],
) -> Result<Option<BlockedSend>, Failure>
    requires publisher { CanSendReading domain.old publisher.now }
    ensures waits { IfOk result (λ waiting. IfSome waiting
        (λ it. IsBlockedSend domain.new it × (lender_key (blocked_key it) ≡ publisher_key publisher.now)
        × (blocked_item it ≡ A_blocked_send publisher.now.id))) }
    ensures sent { MatchResult result (λ waiting. IfNone waiting (Stays domain.old domain.new)) (λ _. Stays domain.old domain.new) }
    ensures stays { StaysBut (A_blocked_send publisher.now.id) domain.old domain.new }
{
    for &celsius in readings {
        match publisher.send_copy(domain, celsius)? {
            SendOutcome::Delivered(_) => {}
            SendOutcome::Blocked(waiting) => return Ok(Some(waiting)),
        }
    }
    Ok(None)
}

/// Tries the send again, and gives up each display that is still full. Returns how many displays took
/// the reading. What was there before the send blocked is there again.
pub fn try_again(domain: &mut Domain<u32, ()>, waiting: BlockedSend) -> Result<usize, Failure>
    requires { IsBlockedSend domain.old waiting }
    ensures { StaysSince waiting domain.old domain.new }
{
    match waiting.retry(domain, Duration::ZERO)? {
        SendOutcome::Delivered(count) => Ok(count),
        SendOutcome::Blocked(waiting) => give_up(domain, waiting),
    }
}

/// Gives up each display that the send waits for. Returns how many displays took the reading. What was
/// there before the send blocked is there again.
pub fn give_up(domain: &mut Domain<u32, ()>, waiting: BlockedSend) -> Result<usize, Failure>
    requires { IsBlockedSend domain.old waiting }
    ensures { StaysSince waiting domain.old domain.new }
{
    let mut blocked = waiting;
    loop {
        match blocked.give_up(domain)? {
            SendOutcome::Delivered(count) => return Ok(count),
            SendOutcome::Blocked(again) => blocked = again,
        }
    }
}
