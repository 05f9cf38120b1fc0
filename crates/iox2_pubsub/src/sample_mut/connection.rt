//! A message is sent to one connection of its publisher.
ghost use Rattle.std.specs.Prelude.{◌≡◌, ◌<◌, IfErr, IfOk};

use crate::blocked_send::BlockedSend;
use crate::domain::Domain;
use crate::sample_mut::SampleMut;
use crate::sample_mut::send::outcome_of;
use crate::send_outcome::SendOutcome;
use iox2_machine::{BackpressureFn, DegradationFn, SendError};
use iox2_messages::send_to_connection;

impl SampleMut {
    ghost use Rattle.std.specs.Prelude.{ℕ, List, Some, [], length, ◌∷◌, ◌++◌, ◌≢◌};
    ghost use Rattle.iox2_machine.specs.declared.errors.SendError.TheVariants.{UnableToDeliver};
    ghost use Rattle.iox2_machine.specs.machine.Limits.{channel_count};
    ghost use Rattle.iox2_machine.specs.machine.Records.{Loan};
    ghost use Rattle.iox2_machine.specs.machine.State.{State, Messages};
    ghost use Rattle.iox2_pubsub.specs.BlockedSends.{IsNext};
    ghost use Rattle.iox2_pubsub.specs.Counts.{HaveTaken};
    ghost use Rattle.iox2_pubsub.specs.Live.{AddAtMost, AllFrom, HasItsBuffer, IsAtConnection, IsConnected, IsFull};
    ghost use Rattle.iox2_pubsub.specs.Live.{IsServed, IsServedOrPending, IsUnblocked, IsWritten, WaitsAsBefore};
    ghost use Rattle.iox2_pubsub.specs.Live.{payloads_from, waiting, written_key};
    ghost use Rattle.iox2_pubsub.specs.Slices.{HasValues};
    ghost use Rattle.iox2_pubsub.specs.declared.subscriber.Subscriber.{Subscriber};
    ghost use Rattle.iox2_pubsub.specs.SendCalls.{AfterError, FailsDelivery, IfBlocked, IsDelivered, SendsToConnection, SpendsLoan, messages_after_send};
    ghost use Rattle.iox2_domain.specs.Boxes.{answers_of};
    ghost use Rattle.iox2_domain.specs.Shows.{Shows};
    ghost use Rattle.iox2_pubsub.specs.Handles.{buffer_size_of, subscriber_id, written_lender, written_number};

    /// Sends the message into one channel of one of its publisher's connections, and to nobody else:
    /// so one subscriber gets it alone.
    /// `channel` is the number of the channel, below `number_of_channels` of the settings. `connection`
    /// is the place of the connection, as `get_connection_id_of` of the publisher tells it. A subscriber
    /// that is closed, or whose channel is closed, is skipped. If the channel is full and the service
    /// doesn't overflow, the publisher's handler decides, or without one its strategy: the message isn't
    /// delivered, or the send is blocked. Connections aren't updated, and the message enters no history.
    /// Takes no memory.
    ///
    /// Returns how many subscribers took the message, one or none, or the blocked send. Without that
    /// connection it is none.
    ///
    /// Fails with `ConnectionBrokenSinceSenderNoLongerExists` if the publisher is gone: the message
    /// is lost. Fails with `UnableToDeliver` if the publisher's handler failed the send. No other
    /// error is returned.
    ///
    /// The loan counts among the publisher's loans until the send has ended. Its slot is free again
    /// then if nobody took the message, and else when the subscriber has released it. A message in
    /// another channel than 0 can't be received by this library: it stays until its ports are closed at
    /// the latest, and with overflow until a later one goes there in its place.
    ///
    /// iceoryx2's `Sender::deliver_offset_to_connection` (`src/port/details/sender.rs`), which is
    /// internal.
    pub fn deliver_offset_to_connection<
        T: Drop,
        U: Default + Drop,
        F: BackpressureFn,
        G: DegradationFn,
    >(
        self,
        domain: &mut Domain<T, U, F, G>,
        channel: usize,
        connection: usize,
    ) -> Result<SendOutcome, SendError>
        requires live { IsWritten domain.old self }
        requires unblocked { IsUnblocked domain.old (written_key self) }
        requires channel { channel < channel_count domain.old.config }
        ensures errors { IfErr result (FailsDelivery domain.old (written_key self)) }
        ensures sent { (m : Messages T U) (s : State T U) (l : Loan T U) → Shows domain.old m s → s.loans (written_number self) ≡ Some l
            → (s' : State T U) × Shows domain.new (messages_after_send m (written_number self) l result) s'
            × SendsToConnection (answers_of F.allows G.allows (domain.old.boxes).publishers) s (written_number self) l channel connection result s' }
        ensures roomy { (subscriber : Subscriber) → channel ≡ 0
            → IsAtConnection domain.old (written_lender self) connection subscriber
            → IsConnected domain.old (written_lender self) subscriber → HasItsBuffer domain.old subscriber
            → length (payloads_from domain.old (written_lender self) subscriber) < buffer_size_of subscriber
            → IfOk result IsDelivered × IfErr result (λ error. error ≢ UnableToDeliver) }
        ensures adds { AddAtMost 1 domain.old domain.new }
        ensures serves { (subscriber : Subscriber) (values : List T) → channel ≡ 0
            → IsAtConnection domain.old (written_lender self) connection subscriber
            → IsConnected domain.old (written_lender self) subscriber
            → HasValues domain.old (written_number self) values
            → IfOk result (λ outcome. IsDelivered outcome
            → IsServed domain.old domain.new (written_lender self) subscriber values) }
        ensures arrives { (subscriber : Subscriber) (values : List T) → channel ≡ 0
            → IsAtConnection domain.old (written_lender self) connection subscriber
            → waiting domain.old subscriber ≡ 0 → IsConnected domain.old (written_lender self) subscriber
            → HasValues domain.old (written_number self) values
            → IfOk result (λ outcome. IsDelivered outcome
            → AllFrom domain.new (written_lender self) subscriber (values ∷ [])) }
        ensures joins { (subscriber : Subscriber) (values : List T) (earlier : List (List T)) → channel ≡ 0
            → IsAtConnection domain.old (written_lender self) connection subscriber
            → AllFrom domain.old (written_lender self) subscriber earlier
            → HasItsBuffer domain.old subscriber → length earlier < buffer_size_of subscriber
            → IsConnected domain.old (written_lender self) subscriber
            → HasValues domain.old (written_number self) values
            → IfOk result (λ outcome. IsDelivered outcome → AllFrom domain.new (written_lender self) subscriber (earlier ++ values ∷ [])) }
        ensures alone { (other : Subscriber) → (channel ≡ 0
            → IsAtConnection domain.old (written_lender self) connection other → ⊥)
            → WaitsAsBefore domain.old domain.new other }
        ensures pending { (subscriber : Subscriber) (values : List T) → channel ≡ 0
            → IsAtConnection domain.old (written_lender self) connection subscriber
            → IsConnected domain.old (written_lender self) subscriber
            → HasValues domain.old (written_number self) values
            → IfOk result (λ outcome. IfBlocked outcome
            (λ blocked. IsServedOrPending domain.old domain.new blocked subscriber values)) }
        ensures failed { (subscriber : Subscriber) (values : List T) → channel ≡ 0
            → IsAtConnection domain.old (written_lender self) connection subscriber
            → IsConnected domain.old (written_lender self) subscriber
            → HasValues domain.old (written_number self) values
            → IfErr result (AfterError domain.old domain.new (written_lender self) subscriber values) }
        ensures full { (subscriber : Subscriber) → channel ≡ 0
            → IsAtConnection domain.old (written_lender self) connection subscriber
            → IsConnected domain.old (written_lender self) subscriber
            → IfOk result (λ outcome. IfBlocked outcome
            (λ blocked. IsNext domain.new blocked subscriber
            × IsFull domain.old (written_lender self) subscriber)) }
        ensures counts { (subscriber : Subscriber) (values : List T) → channel ≡ 0
            → IsAtConnection domain.old (written_lender self) connection subscriber
            → IsConnected domain.old (written_lender self) subscriber
            → HasValues domain.old (written_number self) values
            → IfOk result (λ outcome. (count : ℕ) → outcome ≡ SendOutcome.Delivered count
            → HaveTaken domain.old domain.new (written_lender self) values (subscriber ∷ []) count) }
        ensures spends { SpendsLoan self result domain.old domain.new }
    {
        let SampleMut { service_id, loan } = self;
        let blocked = BlockedSend::of(service_id, &loan);
        let end = send_to_connection(&mut domain.state, &domain.boxes, loan, channel, connection);
        outcome_of(blocked, end)
    }
}
