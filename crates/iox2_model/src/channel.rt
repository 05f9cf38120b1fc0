// The state of a channel that takes no message.
pub(crate) const CLOSED: u64 = u64::MAX;

// How a channel stands. A new one is in the state 0.
#[derive(Clone, Copy)]
pub(crate) struct Channel {
    pub(crate) number: usize,
    pub(crate) state: u64,
    pub(crate) has_hint: bool,
}

impl Channel {
    pub(crate) fn new(number: usize) -> Channel {
        Channel {
            number,
            state: 0,
            has_hint: false,
        }
    }

    // It comes into the state. One that is in it already keeps its hint.
    pub(crate) fn with_state(self, state: u64) -> Channel {
        Channel {
            state,
            has_hint: self.has_hint && self.state == state,
            ..self
        }
    }

    pub(crate) fn with_hint(self) -> Channel {
        Channel {
            has_hint: true,
            ..self
        }
    }
}
