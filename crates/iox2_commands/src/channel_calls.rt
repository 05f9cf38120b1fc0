/// What a command asks of one channel of a publisher's connection, or does to it. A state is 0 for a new
/// channel, `u64::MAX` for a closed one, and any other is the caller's. Without that connection the answer
/// is no, and nothing changes.
#[derive(Debug, Clone, Copy, PartialEq, Eq)]
pub enum PublisherChannelCall {
    /// Asks whether the channel is in a state.
    HasState {
        /// The state.
        state: u64,
    },
    /// Asks whether the channel is in a state and has a disconnect hint.
    HasDisconnectHint {
        /// The state.
        state: u64,
    },
    /// Closes the channel if it is in the state that is expected.
    Close {
        /// The state that is expected.
        expected: u64,
    },
}

/// What a command asks of one channel of all connections of a subscriber, or does to it. States are as
/// `PublisherChannelCall` has them.
#[derive(Debug, Clone, Copy, PartialEq, Eq)]
pub enum SubscriberChannelCall {
    /// Brings the channel into a state wherever it is closed, and replies whether it was closed at each
    /// connection.
    SetState {
        /// The state.
        state: u64,
    },
    /// Asks whether the channel is in a state at some connection.
    SomeHasState {
        /// The state.
        state: u64,
    },
    /// Closes the channel wherever it is in the state that is expected.
    Close {
        /// The state that is expected.
        expected: u64,
    },
    /// Sets the disconnect hint wherever the channel is in the state that is expected.
    SetDisconnectHint {
        /// The state that is expected.
        expected: u64,
    },
}
