//! A blocked send is tried again, or given up.
ghost use Rattle.std.specs.Prelude.{◌≡◌, ◌≤◌, ◌<◌, ◌⊎◌, IfOk, List, ⊤};
ghost use Rattle.iox2_pubsub.specs.BlockedSends.{AreEach, BlockedSendGoesOn, IsLeftBehind, IsNext, IsNotNext, IsPastOrRoomy, Resumes, receivers_ahead};
ghost use Rattle.iox2_pubsub.specs.SendCalls.{IfBlocked, IsDelivered, result_of_send};

use crate::blocked_send::BlockedSend;
use crate::domain::Domain;
use crate::sample_mut::send::outcome_of;
use crate::send_outcome::SendOutcome;
use iox2_machine::{BackpressureFn, DegradationFn, SendError};
use iox2_messages::{give_up_send, retry_send};
use std::time::Duration;

impl BlockedSend {
    ghost use Rattle.std.specs.Prelude.{Some};
    ghost use Rattle.iox2_machine.specs.machine.Records.{Publisher as Record, BlockedSend as Waiting};
    ghost use Rattle.iox2_machine.specs.machine.Sends.{Retry, GiveUp};
    ghost use Rattle.iox2_machine.specs.machine.State.{State, Messages};
    ghost use Rattle.iox2_pubsub.specs.Live.{IsBlockedSend, IsConnected, IsConsistent, IsFull, IsPending};
    ghost use Rattle.iox2_pubsub.specs.AllSubscribers.{AreAllSubscribers};
    ghost use Rattle.iox2_pubsub.specs.declared.subscriber.Subscriber.{Subscriber};
    ghost use Rattle.iox2_domain.specs.Boxes.{answers_of};
    ghost use Rattle.iox2_domain.specs.Shows.{Shows};
    ghost use Rattle.iox2_pubsub.specs.Handles.{blocked_sender};

    /// Tries the send again at the subscriber that it waits for, and goes on to those that remain.
    /// Those that took the message aren't served again, and connections aren't updated. If the
    /// subscriber is still full, the send is blocked again. `elapsed` is the time since the send was
    /// first blocked at that subscriber, which a publisher's handler is told. It takes no memory.
    ///
    /// Fails with `UnableToDeliver` alone, if a handler has failed the send at some subscriber.
    /// When the send has ended or failed, its publisher lends, sends and updates again, and its slot
    /// is free when every subscriber that took the message has released it and no history keeps it.
    ///
    /// This library's own, where iceoryx2's `SampleMut::send` goes on by itself.
    pub fn retry<T: Drop, U: Default + Drop, F: BackpressureFn, G: DegradationFn>(
        self,
        domain: &mut Domain<T, U, F, G>,
        elapsed: Duration,
    ) -> Result<SendOutcome, SendError>
        requires live { IsBlockedSend domain.old self }
        ensures retries { (m : Messages T U) (s : State T U) (x : Record) (b : Waiting) → Shows domain.old m s
            → s.publishers (blocked_sender self) ≡ Some x → x.blocked ≡ Some b
            → (s' : State T U) × Shows domain.new m s'
            × Retry (answers_of F.allows G.allows (domain.old.boxes).publishers) s (blocked_sender self) b elapsed
            s' (result_of_send result) }
        ensures no_more { IfOk result (λ outcome. IfBlocked outcome (λ blocked. receivers_ahead domain.new blocked ≤ receivers_ahead domain.old self)) }
        ensures consistent { IsConsistent domain.old }
        ensures goes_on { BlockedSendGoesOn self result domain.old domain.new }
        ensures full { (target subscriber : Subscriber) (values : List T) → IsPending domain.old self target values
            → IsConnected domain.old (blocked_sender self) subscriber
            → IfOk result (λ outcome. IfBlocked outcome (λ again. IsNext domain.new again subscriber → IsFull domain.old (blocked_sender self) subscriber)) }
        ensures roomy { (target : Subscriber) (values : List T) (subscribers : List Subscriber)
            → IsPending domain.old self target values → AreAllSubscribers domain.old subscribers
            → AreEach (IsPastOrRoomy domain.old self) subscribers → IfOk result IsDelivered }
        ensures resumes { Resumes (λ subscriber. ⊤) self result domain.old domain.new }
    {
        let BlockedSend { service_id, loan } = self;
        let place = domain.state.find_live_publisher(loan.publisher, loan.place);
        let end = retry_send(&mut domain.state, &domain.boxes, place, elapsed);
        outcome_of(BlockedSend { service_id, loan }, end)
    }

    /// Gives up the subscriber that the send waits for, and goes on to those that remain. That
    /// subscriber doesn't get the message, and the send doesn't fail for it. If a later one is
    /// full, the send is blocked there. It takes no memory. Fails as `retry` does, and leaves the same
    /// when the send has ended.
    ///
    /// This library's own, where iceoryx2's `SampleMut::send` goes on by itself.
    pub fn give_up<T: Drop, U: Default + Drop, F: BackpressureFn, G: DegradationFn>(
        self,
        domain: &mut Domain<T, U, F, G>,
    ) -> Result<SendOutcome, SendError>
        requires live { IsBlockedSend domain.old self }
        ensures gives_up { (m : Messages T U) (s : State T U) (x : Record) (b : Waiting) → Shows domain.old m s
            → s.publishers (blocked_sender self) ≡ Some x → x.blocked ≡ Some b
            → (s' : State T U) × Shows domain.new m s'
            × GiveUp (answers_of F.allows G.allows (domain.old.boxes).publishers) s (blocked_sender self) b s'
            (result_of_send result) }
        ensures fewer { IfOk result (λ outcome. IfBlocked outcome (λ blocked. receivers_ahead domain.new blocked < receivers_ahead domain.old self)) }
        ensures consistent { IsConsistent domain.old }
        ensures goes_on { BlockedSendGoesOn self result domain.old domain.new }
        ensures full { (target subscriber : Subscriber) (values : List T) → IsPending domain.old self target values
            → IsConnected domain.old (blocked_sender self) subscriber
            → IfOk result (λ outcome. IfBlocked outcome (λ again. IsNext domain.new again subscriber → IsFull domain.old (blocked_sender self) subscriber)) }
        ensures roomy { (target : Subscriber) (values : List T) (subscribers : List Subscriber)
            → IsPending domain.old self target values → AreAllSubscribers domain.old subscribers
            → AreEach (λ it. IsNext domain.old self it ⊎ IsPastOrRoomy domain.old self it) subscribers → IfOk result IsDelivered }
        ensures resumes { Resumes (IsNotNext domain.old self) self result domain.old domain.new }
        ensures skips { (subscriber : Subscriber) (values : List T) → IsNext domain.old self subscriber
            → IsPending domain.old self subscriber values → IsLeftBehind subscriber result domain.old domain.new }
    {
        let BlockedSend { service_id, loan } = self;
        let place = domain.state.find_live_publisher(loan.publisher, loan.place);
        let end = give_up_send(&mut domain.state, &domain.boxes, place);
        outcome_of(BlockedSend { service_id, loan }, end)
    }
}
