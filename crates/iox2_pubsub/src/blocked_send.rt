//! A send that waits for a subscriber.
ghost use Rattle.std.specs.Prelude.{◌≡◌, ◌≢◌};
ghost use Rattle.iox2_pubsub.specs.Live.{blocked_key};

mod retry;

use crate::domain::Domain;
use crate::keys::loan_key;
use iox2_domain::LoanAt;
use iox2_machine::{BackpressureFn, DegradationFn, Key, UniqueSubscriberId};
use iox2_messages::blocking_subscriber;

/// A send that waits for a subscriber whose buffer is full. Must be consumed by `retry` or
/// `give_up`; until then its publisher lends, sends and updates nothing and can't be closed.
///
/// Example (`crates/slow_display/src/sending.rt`):
///
/// ```rust
/// match waiting.retry(domain, Duration::ZERO)? {
///     SendOutcome::Delivered(count) => Ok(count),
///     SendOutcome::Blocked(waiting) => give_up(domain, waiting),
/// }
/// ```
///
/// This library's own, where iceoryx2's `SampleMut::send` blocks.
pub struct BlockedSend {
    pub(crate) service_id: u128,
    pub(crate) loan: LoanAt,
}

impl BlockedSend {
    // The handle of the send of this loan, if it is blocked.
    #[inline(always)]
    pub(crate) fn of(service_id: u128, loan: &LoanAt) -> BlockedSend
        ensures { result ≡ record { service_id = service_id; loan = loan.now } }
    {
        BlockedSend {
            service_id,
            loan: LoanAt {
                publisher: loan.publisher,
                number: loan.number,
                place: loan.place,
                book: loan.book,
                slot: loan.slot,
            },
        }
    }

    /// Names the blocked send without being its handle: it has the key of the loan that was sent.
    pub fn key(&self) -> Key
        ensures { result ≡ blocked_key self.now }
    {
        loan_key(self.service_id, &self.loan)
    }

    /// Consumes the handle of a blocked send whose domain is gone. A domain that is still there isn't
    /// told, and keeps the send.
    pub fn disown(self) {
        self.into_parts();
    }
}

impl BlockedSend {
    ghost use Rattle.std.specs.Prelude.{Some};
    ghost use Rattle.iox2_machine.specs.machine.State.{State, Messages};
    ghost use Rattle.iox2_domain.specs.Shows.{Shows};
    ghost use Rattle.iox2_pubsub.specs.BlockedSends.{IsNext, IsNotNext, waits_for};
    ghost use Rattle.iox2_pubsub.specs.Handles.{blocked_sender, subscriber_id};
    ghost use Rattle.iox2_pubsub.specs.declared.subscriber.Subscriber.{Subscriber};
    ghost use Rattle.iox2_pubsub.specs.Live.{HasPassed, IsBlockedSend};

    /// Names the subscriber whose full buffer the send waits for: the one that `retry` tries again, and that
    /// `give_up` passes over. So a program can say who holds a publisher up, or give up one subscriber and
    /// wait for another. If that subscriber was closed meanwhile, this still names it, and a retry goes
    /// past it. Nothing changes, and no memory is taken.
    ///
    /// This library's own: iceoryx2's `SampleMut::send` waits by itself, and names nobody.
    pub fn subscriber<T: Drop, U: Default + Drop, F: BackpressureFn, G: DegradationFn>(
        &self,
        domain: &Domain<T, U, F, G>,
    ) -> UniqueSubscriberId
        requires live { IsBlockedSend domain.now self.now }
        ensures whom { (m : Messages T U) (s : State T U) → Shows domain.now m s → waits_for s (blocked_sender self.now) ≡ Some result }
        ensures next { (subscriber : Subscriber) → subscriber_id subscriber ≡ result → IsNext domain.now self.now subscriber }
        ensures others { (subscriber : Subscriber) → subscriber_id subscriber ≢ result → IsNotNext domain.now self.now subscriber }
        ensures unpassed { (subscriber : Subscriber) → subscriber_id subscriber ≡ result → HasPassed domain.now self.now subscriber → ⊥ }
    {
        let place = domain
            .state
            .find_live_publisher(self.loan.publisher, self.loan.place);
        blocking_subscriber(&domain.state, place)
    }
}
