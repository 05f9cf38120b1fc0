//! The outcome of a send.
ghost use Rattle.std.specs.Prelude.{◌≡◌};
ghost use Rattle.iox2_pubsub.specs.SendCalls.{IsDelivered};

use crate::blocked_send::BlockedSend;

/// The outcome of a send.
///
/// Example (`crates/slow_display/src/sending.rt`):
///
/// ```rust
/// for &celsius in readings {
///     match publisher.send_copy(domain, celsius)? {
///         SendOutcome::Delivered(_) => {}
///         SendOutcome::Blocked(waiting) => return Ok(Some(waiting)),
///     }
/// }
/// Ok(None)
/// ```
///
/// This library's own, where iceoryx2's `SampleMut::send` returns the number of receivers alone.
pub enum SendOutcome {
    /// That many subscribers took the message.
    Delivered(usize),
    /// It waits for a subscriber whose buffer is full.
    Blocked(BlockedSend),
}

impl SendOutcome {
    /// How many subscribers took the message, of a send that isn't blocked. This library's own.
    #[inline(always)]
    pub fn delivered(self) -> usize
        requires delivered { IsDelivered self }
        ensures { self ≡ SendOutcome.Delivered result }
    {
        match self {
            SendOutcome::Delivered(count) => count,
            SendOutcome::Blocked(blocked) => {
                blocked.disown();
                unreachable!()
            }
        }
    }
}
