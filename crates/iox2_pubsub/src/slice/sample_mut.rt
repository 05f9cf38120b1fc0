//! A loan of a slice that is written.
ghost use Rattle.std.specs.Prelude.{◌≡◌};

mod payload_mut;
mod user_header_mut;

use crate::domain::Domain;
use crate::send_outcome::SendOutcome;
use iox2_machine::{BackpressureFn, DegradationFn, SendError};
use iox2_messages::loan_values;

/// A loan of a slice whose payload is written. Must be consumed by `send` or `discard`. It is the
/// loan of a single value with another view of its payload. All other calls are those of
/// that loan.
///
/// Example (`crates/thermometer/src/series.rt`):
///
/// ```rust
/// let mut message = loan.write_from_fn(domain, |hour| hour as u64);
/// set_first(SampleMut::payload_mut(domain, &mut message), 12);
/// message.send(domain)?.delivered();
/// Ok(())
/// ```
///
/// iceoryx2's `sample_mut::SampleMut` of a slice (`src/sample_mut.rs`).
pub struct SampleMut {
    pub(crate) sample: crate::SampleMut,
}

impl SampleMut {
    ghost use Rattle.std.specs.Prelude.{ℕ, IfErr, IfOk, List, Some, [], length, ◌<◌, ◌++◌, ◌∷◌, ◌+◌, ◌≢◌};
    ghost use Rattle.iox2_machine.specs.declared.errors.SendError.TheVariants.{UnableToDeliver};
    ghost use Rattle.iox2_machine.specs.machine.Limits.{channel_count};
    ghost use Rattle.iox2_machine.specs.machine.Records.{Loan};
    ghost use Rattle.iox2_machine.specs.machine.State.{State, Messages};
    ghost use Rattle.iox2_domain.specs.Boxes.{answers_of};
    ghost use Rattle.iox2_domain.specs.Shows.{Shows};
    ghost use Rattle.iox2_pubsub.specs.AllSubscribers.{AreConnected, AreDifferent};
    ghost use Rattle.iox2_pubsub.specs.BlockedSends.{IsNext};
    ghost use Rattle.iox2_pubsub.specs.Counts.{Counts, HaveTaken};
    ghost use Rattle.iox2_pubsub.specs.Live.{AddAtMost, AllFrom, AreAllSlices, HasItsBuffer, IsAtConnection};
    ghost use Rattle.iox2_pubsub.specs.Live.{IsConnected, IsConsistent, IsFull, IsLoanKey, IsServed};
    ghost use Rattle.iox2_pubsub.specs.Live.{IsServedOrPending, IsUnblocked, IsWritten, WaitsAsBefore, payloads};
    ghost use Rattle.iox2_pubsub.specs.Live.{payloads_from, waiting, written_key};
    ghost use Rattle.iox2_pubsub.specs.declared.subscriber.Subscriber.{Subscriber};
    ghost use Rattle.iox2_pubsub.specs.LoanCalls.{IsDiscarded};
    ghost use Rattle.iox2_pubsub.specs.RoomyPublishers.{HasRoomAlone, HasRoomAtAll, IsRoomy};
    ghost use Rattle.iox2_pubsub.specs.SendCalls.{AfterError, FailsDelivery, FailsSend, IfBlocked, IsDelivered};
    ghost use Rattle.iox2_pubsub.specs.SendCalls.{Sends, SendsToConnection, SpendsLoan, messages_after_send};
    ghost use Rattle.iox2_pubsub.specs.Slices.{HasValues, HoldsSlices};
    ghost use Rattle.iox2_pubsub.specs.Handles.{as_written, buffer_size_of, subscriber_id, written_lender, written_number};

    /// The payload as it lies in its slot.
    ///
    /// iceoryx2's `SampleMut::payload` (`src/sample_mut.rs`).
    pub fn payload<'a, T: Drop, U: Default + Drop, F: BackpressureFn, G: DegradationFn>(
        &self,
        domain: &'a Domain<T, U, F, G>,
    ) -> &'a [T]
        requires live { IsWritten domain.now (as_written self.now) }
        requires sliced { HoldsSlices domain.now }
        ensures reads { HasValues domain.now (written_number (as_written self.now)) result.now }
        ensures same { (values : List T) → HasValues domain.now (written_number (as_written self.now)) values → result.now ≡ values }
    {
        loan_values(&domain.state, &self.sample.loan)
    }

    /// Sends the message, as the loan of a single value is sent, and fails as that does. Its payload
    /// isn't touched.
    ///
    /// iceoryx2's `SampleMut::send` (`src/sample_mut.rs`).
    #[inline(always)]
    pub fn send<T: Drop, U: Default + Drop, F: BackpressureFn, G: DegradationFn>(
        self,
        domain: &mut Domain<T, U, F, G>,
    ) -> Result<SendOutcome, SendError>
        requires live { IsWritten domain.old (as_written self) }
        requires unblocked { IsUnblocked domain.old (written_key (as_written self)) }
        ensures errors { IfErr result (FailsSend domain.old (written_key (as_written self))) }
        ensures sent { (m : Messages T U) (s : State T U) (l : Loan T U) → Shows domain.old m s → s.loans (written_number (as_written self)) ≡ Some l
            → (s' : State T U) × Shows domain.new (messages_after_send m (written_number (as_written self)) l result)
            s' × Sends (answers_of F.allows G.allows (domain.old.boxes).publishers) s
            (written_number (as_written self)) l result s' }
        ensures consistent { IsConsistent domain.old }
        ensures roomy { IsRoomy domain.old (written_lender (as_written self)) → IfOk result IsDelivered × IfErr result (λ error. error ≢ UnableToDeliver) }
        ensures roomy_alone { (subscriber : Subscriber) → HasRoomAlone domain.old (written_lender (as_written self))
            subscriber → IfOk result IsDelivered × IfErr result (λ error. error ≢ UnableToDeliver) }
        ensures roomy_at_all { (subscribers : List Subscriber)
            → HasRoomAtAll domain.old (written_lender (as_written self)) subscribers → IfOk result IsDelivered
            × IfErr result (λ error. error ≢ UnableToDeliver) }
        ensures adds { AddAtMost ((domain.old.config).history_size + 1) domain.old domain.new }
        ensures brings { (subscriber : Subscriber) (values : List T) → (domain.old.config).history_size ≡ 0 → waiting domain.old subscriber ≡ 0
            → HasValues domain.old (written_number (as_written self)) values → AreAllSlices (payloads domain.new subscriber) values }
        ensures serves { (subscriber : Subscriber) (values : List T)
            → IsConnected domain.old (written_lender (as_written self)) subscriber
            → HasValues domain.old (written_number (as_written self)) values
            → IfOk result (λ outcome. IsDelivered outcome → IsServed domain.old domain.new (written_lender (as_written self)) subscriber values) }
        ensures arrives { (subscriber : Subscriber) (values : List T) → waiting domain.old subscriber ≡ 0
            → IsConnected domain.old (written_lender (as_written self)) subscriber
            → HasValues domain.old (written_number (as_written self)) values
            → IfOk result (λ outcome. IsDelivered outcome
            → AllFrom domain.new (written_lender (as_written self)) subscriber (values ∷ [])) }
        ensures joins { (subscriber : Subscriber) (values : List T) (earlier : List (List T))
            → AllFrom domain.old (written_lender (as_written self)) subscriber earlier
            → HasItsBuffer domain.old subscriber
            → length earlier < buffer_size_of subscriber
            → IsConnected domain.old (written_lender (as_written self)) subscriber
            → HasValues domain.old (written_number (as_written self)) values
            → IfOk result (λ outcome. IsDelivered outcome → AllFrom domain.new (written_lender (as_written self)) subscriber (earlier ++ values ∷ [])) }
        ensures pending { (subscriber : Subscriber) (values : List T)
            → IsConnected domain.old (written_lender (as_written self)) subscriber
            → HasValues domain.old (written_number (as_written self)) values
            → IfOk result (λ outcome. IfBlocked outcome (λ blocked. IsServedOrPending domain.old domain.new blocked subscriber values)) }
        ensures failed { (subscriber : Subscriber) (values : List T)
            → IsConnected domain.old (written_lender (as_written self)) subscriber
            → HasValues domain.old (written_number (as_written self)) values
            → IfErr result (AfterError domain.old domain.new (written_lender (as_written self)) subscriber values) }
        ensures full { (subscriber : Subscriber) → IsConnected domain.old (written_lender (as_written self)) subscriber
            → IfOk result (λ outcome. IfBlocked outcome
            (λ blocked. IsNext domain.new blocked subscriber
            → IsFull domain.old (written_lender (as_written self)) subscriber)) }
        ensures counts { (subscribers : List Subscriber) (values : List T) → AreDifferent subscribers
            → AreConnected domain.old (written_lender (as_written self)) subscribers
            → HasValues domain.old (written_number (as_written self)) values
            → IfOk result (λ outcome. (count : ℕ) → outcome ≡ SendOutcome.Delivered count
            → Counts domain.old domain.new (written_lender (as_written self)) values subscribers count) }
        ensures spends { SpendsLoan (as_written self) result domain.old domain.new }
    {
        let SampleMut { sample } = self;
        sample.send(domain)
    }

    /// Sends the message into one channel of one of its publisher's connections, as the loan of a
    /// single value is sent there, and fails as that does. `channel` is the number of the channel, below
    /// `number_of_channels` of the settings, and `connection` the place of the connection, as
    /// `get_connection_id_of` of the publisher tells it. Takes no memory.
    ///
    /// iceoryx2's `Sender::deliver_offset_to_connection` (`src/port/details/sender.rs`), which is
    /// internal.
    pub fn deliver_offset_to_connection<
        T: Drop,
        U: Default + Drop,
        F: BackpressureFn,
        G: DegradationFn,
    >(
        self,
        domain: &mut Domain<T, U, F, G>,
        channel: usize,
        connection: usize,
    ) -> Result<SendOutcome, SendError>
        requires live { IsWritten domain.old (as_written self) }
        requires unblocked { IsUnblocked domain.old (written_key (as_written self)) }
        requires channel { channel < channel_count domain.old.config }
        ensures errors { IfErr result (FailsDelivery domain.old (written_key (as_written self))) }
        ensures sent { (m : Messages T U) (s : State T U) (l : Loan T U) → Shows domain.old m s → s.loans (written_number (as_written self)) ≡ Some l
            → (s' : State T U) × Shows domain.new (messages_after_send m (written_number (as_written self)) l result) s'
            × SendsToConnection (answers_of F.allows G.allows (domain.old.boxes).publishers) s
            (written_number (as_written self)) l channel connection result s' }
        ensures roomy { (subscriber : Subscriber) → channel ≡ 0
            → IsAtConnection domain.old (written_lender (as_written self)) connection subscriber
            → IsConnected domain.old (written_lender (as_written self)) subscriber
            → HasItsBuffer domain.old subscriber
            → length (payloads_from domain.old (written_lender (as_written self)) subscriber) < buffer_size_of
            subscriber → IfOk result IsDelivered × IfErr result (λ error. error ≢ UnableToDeliver) }
        ensures adds { AddAtMost 1 domain.old domain.new }
        ensures serves { (subscriber : Subscriber) (values : List T) → channel ≡ 0
            → IsAtConnection domain.old (written_lender (as_written self)) connection subscriber
            → IsConnected domain.old (written_lender (as_written self)) subscriber
            → HasValues domain.old (written_number (as_written self)) values
            → IfOk result (λ outcome. IsDelivered outcome
            → IsServed domain.old domain.new (written_lender (as_written self)) subscriber values) }
        ensures arrives { (subscriber : Subscriber) (values : List T) → channel ≡ 0
            → IsAtConnection domain.old (written_lender (as_written self)) connection subscriber
            → waiting domain.old subscriber ≡ 0 → IsConnected domain.old (written_lender (as_written self)) subscriber
            → HasValues domain.old (written_number (as_written self)) values
            → IfOk result (λ outcome. IsDelivered outcome
            → AllFrom domain.new (written_lender (as_written self)) subscriber (values ∷ [])) }
        ensures joins { (subscriber : Subscriber) (values : List T) (earlier : List (List T)) → channel ≡ 0
            → IsAtConnection domain.old (written_lender (as_written self)) connection subscriber
            → AllFrom domain.old (written_lender (as_written self)) subscriber earlier
            → HasItsBuffer domain.old subscriber → length earlier < buffer_size_of subscriber
            → IsConnected domain.old (written_lender (as_written self)) subscriber
            → HasValues domain.old (written_number (as_written self)) values
            → IfOk result (λ outcome. IsDelivered outcome → AllFrom domain.new (written_lender (as_written self)) subscriber (earlier ++ values ∷ [])) }
        ensures alone { (other : Subscriber) → (channel ≡ 0
            → IsAtConnection domain.old (written_lender (as_written self)) connection other → ⊥)
            → WaitsAsBefore domain.old domain.new other }
        ensures pending { (subscriber : Subscriber) (values : List T) → channel ≡ 0
            → IsAtConnection domain.old (written_lender (as_written self)) connection subscriber
            → IsConnected domain.old (written_lender (as_written self)) subscriber
            → HasValues domain.old (written_number (as_written self)) values
            → IfOk result (λ outcome. IfBlocked outcome
            (λ blocked. IsServedOrPending domain.old domain.new blocked subscriber values)) }
        ensures failed { (subscriber : Subscriber) (values : List T) → channel ≡ 0
            → IsAtConnection domain.old (written_lender (as_written self)) connection subscriber
            → IsConnected domain.old (written_lender (as_written self)) subscriber
            → HasValues domain.old (written_number (as_written self)) values
            → IfErr result (AfterError domain.old domain.new (written_lender (as_written self)) subscriber values) }
        ensures full { (subscriber : Subscriber) → channel ≡ 0
            → IsAtConnection domain.old (written_lender (as_written self)) connection subscriber
            → IsConnected domain.old (written_lender (as_written self)) subscriber
            → IfOk result (λ outcome. IfBlocked outcome
            (λ blocked. IsNext domain.new blocked subscriber
            × IsFull domain.old (written_lender (as_written self)) subscriber)) }
        ensures counts { (subscriber : Subscriber) (values : List T) → channel ≡ 0
            → IsAtConnection domain.old (written_lender (as_written self)) connection subscriber
            → IsConnected domain.old (written_lender (as_written self)) subscriber
            → HasValues domain.old (written_number (as_written self)) values
            → IfOk result (λ outcome. (count : ℕ) → outcome ≡ SendOutcome.Delivered count
            → HaveTaken domain.old domain.new (written_lender (as_written self)) values (subscriber ∷ []) count) }
        ensures spends { SpendsLoan (as_written self) result domain.old domain.new }
    {
        let SampleMut { sample } = self;
        sample.deliver_offset_to_connection(domain, channel, connection)
    }

    /// Gives the loan back unsent, as that of a single value is. Takes no memory.
    ///
    /// iceoryx2's `SampleMut`, when it is dropped (`src/sample_mut.rs`).
    pub fn discard<T: Drop, U: Default + Drop, F: BackpressureFn, G: DegradationFn>(
        self,
        domain: &mut Domain<T, U, F, G>,
    )
        requires live { IsLoanKey domain.old (written_key (as_written self)) }
        ensures { IsDiscarded (written_key (as_written self)) domain.old domain.new }
    {
        let SampleMut { sample } = self;
        sample.discard(domain);
    }
}
