//! The status of a channel of a connection.
ghost use Rattle.std.specs.Prelude.{◌≡◌};
ghost use Rattle.iox2_machine.specs.machine.Channel.{is_closed, new_channel, with_hint, with_state};
ghost use Rattle.iox2_connections.specs.Link.{changed_in};

use std::marker::Model;

/// The state of a new channel.
///
/// iceoryx2's constant of this name, of `zero_copy_connection`.
pub const CHANNEL_STATE_OPEN: u64 = 0;

/// The state of a channel that takes no messages.
///
/// iceoryx2's constant of this name, of `zero_copy_connection`.
pub const CHANNEL_STATE_CLOSED: u64 = u64::MAX;

/// The state of a channel, and whether a disconnect was hinted since the channel came into this
/// state.
///
/// The two atomics that each channel of iceoryx2's `zero_copy_connection` has.
#[derive(Clone, Copy)]
pub(crate) struct ChannelStatus {
    state: u64,
    has_hint: bool,
}

impl Model for ChannelStatus {
    ghost use Rattle.iox2_machine.specs.machine.Channel.{Channel};

    ghost Value = { Channel };

    ghost view = { λ status. record { state = status.state; has_hint = status.has_hint } };

    ghost inverse = { λ channel. record { state = channel.state; has_hint = channel.has_hint } };
}

impl ChannelStatus {
    /// The status of a new channel: it is open, and has no hint.
    pub(crate) fn new() -> ChannelStatus
        ensures { result ≡ new_channel }
    {
        ChannelStatus {
            state: CHANNEL_STATE_OPEN,
            has_hint: false,
        }
    }

    /// The state.
    pub(crate) fn state(&self) -> u64
        ensures { result ≡ self.now.state }
    {
        self.state
    }

    /// Whether the channel takes no messages.
    pub(crate) fn is_closed(&self) -> bool
        ensures { result ≡ is_closed self.now }
    {
        self.state == CHANNEL_STATE_CLOSED
    }

    /// Whether it has a hint.
    pub(crate) fn has_hint(&self) -> bool
        ensures { result ≡ self.now.has_hint }
    {
        self.has_hint
    }

    /// Brings it from the state `expected` into another, and takes its hint away.
    pub(crate) fn change_state(&mut self, expected: u64, state: u64)
        ensures { self.new ≡ changed_in expected (with_state state) self.old }
    {
        if self.state == expected {
            self.has_hint = self.has_hint && state == expected;
            self.state = state;
        }
    }

    /// Gives it a hint, if it is in the state `expected`.
    pub(crate) fn set_hint(&mut self, expected: u64)
        ensures { self.new ≡ changed_in expected with_hint self.old }
    {
        if self.state == expected {
            self.has_hint = true;
        }
    }
}
