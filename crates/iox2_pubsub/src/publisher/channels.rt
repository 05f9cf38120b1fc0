//! A publisher asks about the channels of its connections, and closes them.
ghost use Rattle.std.specs.Prelude.{◌≡◌, ◌≢◌, ◌⊎◌, ◌<◌, IfSome};

use crate::domain::Domain;
use crate::publisher::Publisher;
use iox2_machine::{BackpressureFn, DegradationFn};
use iox2_messages::{close_sent, is_sent_hinted, is_sent_in, place_of_receiver};

impl Publisher {
    ghost use Rattle.std.specs.Prelude.{Some};
    ghost use Rattle.iox2_machine.specs.machine.ChannelCalls.{connection_place, has_channel_state, has_disconnect_hint, sent_closed};
    ghost use Rattle.iox2_machine.specs.machine.Limits.{channel_count};
    ghost use Rattle.iox2_machine.specs.machine.State.{State, Messages};
    ghost use Rattle.iox2_domain.specs.Kept.{state_of};
    ghost use Rattle.iox2_pubsub.specs.Leaves.{LeavesButChannels};
    ghost use Rattle.iox2_pubsub.specs.Live.{IsAtConnection, IsPlacedPublisher, IsPublisherKey, publisher_key};
    ghost use Rattle.iox2_pubsub.specs.Handles.{publisher_id, subscriber_id};
    ghost use Rattle.iox2_pubsub.specs.declared.subscriber.Subscriber.{Subscriber};
    ghost use Rattle.iox2_domain.specs.Shows.{Shows};

    /// Names the publisher's connection to a subscriber, by the subscriber's place: for the calls on
    /// its channels, and for `SampleMut::deliver_offset_to_connection`. `receiver_port_id` is the
    /// number of the subscriber's id. `None` if the publisher has no connection to it: that to a
    /// new subscriber comes with the publisher's next send or update, and that to a closed one goes
    /// with a later one.
    ///
    /// iceoryx2's `Sender::get_connection_id_of` (`src/port/details/sender.rs`), which is internal.
    pub fn get_connection_id_of<T: Drop, U: Default + Drop, F: BackpressureFn, G: DegradationFn>(
        &self,
        domain: &Domain<T, U, F, G>,
        receiver_port_id: u128,
    ) -> Option<usize>
        requires there { IsPublisherKey domain.now (publisher_key self.now) }
        requires placed { IsPlacedPublisher domain.now self.now }
        ensures place { (m : Messages T U) (s : State T U) → Shows domain.now m s → result ≡ connection_place s (publisher_id self.now) receiver_port_id }
        ensures at { IfSome result (λ connection. (subscriber : Subscriber)
            → subscriber_id subscriber ≡ receiver_port_id
            → IsAtConnection domain.now (publisher_id self.now) connection subscriber) }
    {
        place_of_receiver(&domain.state, self.place, receiver_port_id)
    }

    /// Whether a channel is in a state at a connection: 0 is that of a new channel, `u64::MAX` that of
    /// a closed one, and any other the caller's. `channel` is its number, below `number_of_channels`
    /// of the settings, and `connection` the place that `get_connection_id_of` tells. It isn't, where
    /// there is no such connection.
    ///
    /// iceoryx2's `Sender::has_channel_state` (`src/port/details/sender.rs`), which is internal.
    pub fn has_channel_state<T: Drop, U: Default + Drop, F: BackpressureFn, G: DegradationFn>(
        &self,
        domain: &Domain<T, U, F, G>,
        channel: usize,
        connection: usize,
        state: u64,
    ) -> bool
        requires there { IsPublisherKey domain.now (publisher_key self.now) }
        requires placed { IsPlacedPublisher domain.now self.now }
        requires channel { channel < channel_count domain.now.config }
        ensures { (m : Messages T U) (s : State T U) → Shows domain.now m s → result ≡ has_channel_state s (publisher_id self.now) channel connection state }
    {
        is_sent_in(&domain.state, self.place, channel, connection, state)
    }

    /// Whether a channel is in a state at a connection, and the subscriber has hinted there that it is
    /// about to disconnect. A change of the state takes the hint away. Both are numbered as for
    /// `has_channel_state`; `false` if there is no such connection.
    ///
    /// iceoryx2's `Sender::has_disconnect_hint` (`src/port/details/sender.rs`), which is internal.
    pub fn has_disconnect_hint<T: Drop, U: Default + Drop, F: BackpressureFn, G: DegradationFn>(
        &self,
        domain: &Domain<T, U, F, G>,
        channel: usize,
        connection: usize,
        state: u64,
    ) -> bool
        requires there { IsPublisherKey domain.now (publisher_key self.now) }
        requires placed { IsPlacedPublisher domain.now self.now }
        requires channel { channel < channel_count domain.now.config }
        ensures { (m : Messages T U) (s : State T U) → Shows domain.now m s → result ≡ has_disconnect_hint s (publisher_id self.now) channel connection state }
    {
        is_sent_hinted(&domain.state, self.place, channel, connection, state)
    }

    /// Closes a channel at a connection, where it is in the state `expected`: so one subscriber gets
    /// nothing there until it opens the channel again (`Subscriber::set_channel_state`). A send goes to
    /// channel 0, and past it where it is closed: its subscriber gets no message and no history there,
    /// isn't counted, and no handler is asked of it. What waits in a closed channel stays, and in
    /// channel 0 it can be received. If the channel is in another state, or there is no such
    /// connection, nothing changes. Both are numbered as for `has_channel_state`; other channels stay
    /// as they are. Takes no memory.
    ///
    /// iceoryx2's `Sender::close_channel` (`src/port/details/sender.rs`), which is internal.
    pub fn close_channel<T: Drop, U: Default + Drop, F: BackpressureFn, G: DegradationFn>(
        &self,
        domain: &mut Domain<T, U, F, G>,
        channel: usize,
        connection: usize,
        expected: u64,
    )
        requires there { IsPublisherKey domain.old (publisher_key self.now) }
        requires placed { IsPlacedPublisher domain.old self.now }
        requires channel { channel < channel_count domain.old.config }
        ensures closed { (m : Messages T U) (s : State T U) → Shows domain.old m s
            → Shows domain.new m (sent_closed s (publisher_id self.now) channel connection expected) }
        ensures leaves { LeavesButChannels
            (λ publisher subscriber. (publisher ≢ publisher_id self.now)
            ⊎ (connection_place (state_of domain.old) publisher (subscriber_id subscriber) ≢ Some connection)
            ⊎ (channel ≢ 0))
            domain.old domain.new }
    {
        close_sent(&mut domain.state, self.place, channel, connection, expected);
    }
}
