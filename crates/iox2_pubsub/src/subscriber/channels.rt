//! A subscriber asks about the channels of its connections, and changes them.
ghost use Rattle.std.specs.Prelude.{◌≡◌, ◌≢◌, ◌⊎◌, ◌<◌};

use crate::domain::Domain;
use crate::subscriber::Subscriber;
use iox2_connections::CHANNEL_STATE_CLOSED;
use iox2_machine::{BackpressureFn, DegradationFn};
use iox2_messages::{ChannelChange, all_received_in, change_received, some_received_in};

impl Subscriber {
    ghost use Rattle.iox2_machine.specs.machine.ChannelCalls.{SetChannelState, received_changed, received_closed, received_hinted, some_channel_has_state};
    ghost use Rattle.iox2_machine.specs.machine.Limits.{channel_count};
    ghost use Rattle.iox2_machine.specs.machine.State.{State, Messages};
    ghost use Rattle.iox2_messages.specs.ChannelChanges.{changed_channel};
    ghost use Rattle.iox2_pubsub.specs.Leaves.{ClosesNone, Leaves, LeavesButChannels};
    ghost use Rattle.iox2_pubsub.specs.Live.{IsLiveSubscriber};
    ghost use Rattle.iox2_pubsub.specs.Handles.{subscriber_id};
    ghost use Rattle.iox2_domain.specs.Shows.{Shows};

    /// Whether a channel is in a state at some connection of the subscriber: 0 is that of a new
    /// channel, `u64::MAX` that of a closed one, and any other the caller's. `channel` is its number,
    /// below `number_of_channels` of the settings. It isn't if the subscriber has no connection.
    ///
    /// iceoryx2's `Receiver::at_least_one_channel_has_state` (`src/port/details/receiver.rs`), which
    /// is internal.
    pub fn at_least_one_channel_has_state<
        T: Drop,
        U: Default + Drop,
        F: BackpressureFn,
        G: DegradationFn,
    >(&self, domain: &Domain<T, U, F, G>, channel: usize, state: u64) -> bool
        requires live { IsLiveSubscriber domain.now self.now }
        requires channel { channel < channel_count domain.now.config }
        ensures { (m : Messages T U) (s : State T U) → Shows domain.now m s → result ≡ some_channel_has_state s (subscriber_id self.now) channel state }
    {
        some_received_in(&domain.state, self.place, channel, state)
    }

    /// Brings a channel from the closed state into another one, at each connection of the subscriber
    /// where it is closed: it takes messages then, unless the state is the closed one, `u64::MAX`,
    /// again. A new channel is in the state 0; any other is the caller's. Where the channel isn't
    /// closed it stays as it is. `channel` is its number, below `number_of_channels` of the settings.
    /// Returns whether it was closed at every connection, and so `true` if there is none: that
    /// with a new publisher comes with the subscriber's next update, receive or question. Takes no
    /// memory.
    ///
    /// iceoryx2's `Receiver::set_channel_state` (`src/port/details/receiver.rs`), which is internal.
    pub fn set_channel_state<T: Drop, U: Default + Drop, F: BackpressureFn, G: DegradationFn>(
        &self,
        domain: &mut Domain<T, U, F, G>,
        channel: usize,
        state: u64,
    ) -> bool
        requires live { IsLiveSubscriber domain.old self.now }
        requires channel { channel < channel_count domain.old.config }
        ensures sets { (m : Messages T U) (s : State T U) → Shows domain.old m s
            → (s' : State T U) × Shows domain.new m s' × SetChannelState s (subscriber_id self.now) channel state s' result }
        ensures leaves { Leaves domain.old domain.new }
    {
        let were_closed = all_received_in(&domain.state, self.place, channel, CHANNEL_STATE_CLOSED);
        let change = ChannelChange::SetState(state);
        self.change_channel(domain, channel, CHANNEL_STATE_CLOSED, change);
        were_closed
    }

    /// Closes a channel at each connection of the subscriber where it is in the state `expected`: so it
    /// gets nothing there until `set_channel_state` opens it again. A send goes to channel 0, and past it
    /// where it is closed: the subscriber gets no message and no history there, isn't counted, and no
    /// handler is asked of it. What waits in a closed channel stays, and in channel 0 it can be
    /// received. Where the channel is in another state nothing changes. A connection with a publisher
    /// that comes later is open. `channel` is its number, below `number_of_channels` of the settings;
    /// other channels stay as they are. Takes no memory.
    ///
    /// iceoryx2's `Receiver::close_channel` (`src/port/details/receiver.rs`), which is internal.
    pub fn close_channel<T: Drop, U: Default + Drop, F: BackpressureFn, G: DegradationFn>(
        &self,
        domain: &mut Domain<T, U, F, G>,
        channel: usize,
        expected: u64,
    )
        requires live { IsLiveSubscriber domain.old self.now }
        requires channel { channel < channel_count domain.old.config }
        ensures closed { (m : Messages T U) (s : State T U) → Shows domain.old m s
            → Shows domain.new m (received_closed s (subscriber_id self.now) channel expected) }
        ensures leaves { LeavesButChannels (λ publisher other. (subscriber_id other ≢ subscriber_id self.now) ⊎ (channel ≢ 0)) domain.old domain.new }
    {
        let change = ChannelChange::SetState(CHANNEL_STATE_CLOSED);
        self.change_channel(domain, channel, expected, change);
    }

    /// Hints at each connection of the subscriber, where a channel is in the state `expected`, that
    /// the subscriber is about to disconnect. The publisher sees it by
    /// `Publisher::has_disconnect_hint`; the hint goes with the channel's next change of state. Where
    /// the channel is in another state nothing changes. `channel` is its number, below
    /// `number_of_channels` of the settings. Takes no memory.
    ///
    /// iceoryx2's `Receiver::set_disconnect_hint` (`src/port/details/receiver.rs`), which is
    /// internal.
    pub fn set_disconnect_hint<T: Drop, U: Default + Drop, F: BackpressureFn, G: DegradationFn>(
        &self,
        domain: &mut Domain<T, U, F, G>,
        channel: usize,
        expected: u64,
    )
        requires live { IsLiveSubscriber domain.old self.now }
        requires channel { channel < channel_count domain.old.config }
        ensures hinted { (m : Messages T U) (s : State T U) → Shows domain.old m s
            → Shows domain.new m (received_hinted s (subscriber_id self.now) channel expected) }
        ensures leaves { Leaves domain.old domain.new }
    {
        self.change_channel(domain, channel, expected, ChannelChange::SetHint);
    }

    // Changes a channel so at each connection of the subscriber where it is in the state `expected`.
    fn change_channel<T: Drop, U: Default + Drop, F: BackpressureFn, G: DegradationFn>(
        &self,
        domain: &mut Domain<T, U, F, G>,
        channel: usize,
        expected: u64,
        change: ChannelChange,
    )
        requires live { IsLiveSubscriber domain.old self.now }
        requires channel { channel < channel_count domain.old.config }
        ensures changed { (m : Messages T U) (s : State T U) → Shows domain.old m s
            → Shows domain.new m (received_changed s (subscriber_id self.now) channel expected (changed_channel change)) }
        ensures leaves { LeavesButChannels (λ publisher other. ClosesNone expected (changed_channel change)
            ⊎ (subscriber_id other ≢ subscriber_id self.now) ⊎ (channel ≢ 0)) domain.old domain.new }
    {
        change_received(&mut domain.state, self.place, channel, expected, change);
    }
}
