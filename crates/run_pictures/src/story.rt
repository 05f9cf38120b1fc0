//! What became of ports and messages in a run. Times are positions of commands, counted from 0.

/// A port and the time for which it was open.
#[derive(Clone, Copy)]
pub(crate) struct Port {
    pub(crate) id: usize,
    pub(crate) is_publisher: bool,
    pub(crate) from: usize,
    /// When it was closed, if it was.
    pub(crate) to: Option<usize>,
}

/// How a message left a port.
#[derive(Clone, Copy, PartialEq, Eq)]
pub(crate) enum End {
    /// It is there still.
    There,
    Sent,
    /// Its loan was given back.
    Discarded,
    /// Its send was refused.
    Refused,
    Released,
    /// A newer message took its place in the mailbox.
    Overwritten,
    /// Its mailbox went before it was received.
    Lost,
}

/// A message at a port: as a loan until it was sent or given back, or in a mailbox from its delivery until
/// it was released or lost.
#[derive(Clone, Copy)]
pub(crate) struct Stay {
    pub(crate) message: usize,
    pub(crate) publisher: usize,
    /// The publisher that lent it, or the subscriber of the mailbox.
    pub(crate) port: usize,
    /// Of the mailbox, in which it waits.
    pub(crate) channel: usize,
    pub(crate) from: usize,
    /// When its send was blocked first, or when it was received, if it was.
    pub(crate) turn: Option<usize>,
    pub(crate) to: Option<usize>,
    pub(crate) end: End,
}

impl Stay {
    pub(crate) fn new(message: usize, publisher: usize, port: usize, from: usize) -> Stay {
        Stay {
            message,
            publisher,
            port,
            channel: 0,
            from,
            turn: None,
            to: None,
            end: End::There,
        }
    }
}

/// What else is drawn in the lane of a port.
#[derive(Clone, Copy, PartialEq, Eq)]
pub(crate) enum MarkKind {
    /// A call was refused.
    Refused,
    /// A call was skipped.
    Skipped,
    /// A send waits for a receiver, for the first time or again.
    Blocked,
    /// A message wasn't delivered to a full subscriber.
    Discarded,
    /// A message wasn't delivered into a closed channel.
    PassedOver,
    /// A channel was closed, brought into another state or hinted.
    Channel,
    /// The port was closed.
    Closed,
    /// A publisher was closed, and the subscriber keeps its connection.
    Expired,
    /// The recording has another reply.
    OtherReply,
}

/// A mark in the lane of a port; the port 0 is none.
#[derive(Clone, Copy)]
pub(crate) struct Mark {
    pub(crate) at: usize,
    pub(crate) port: usize,
    pub(crate) kind: MarkKind,
}

/// What is held after a command.
#[derive(Clone, Copy)]
pub(crate) struct Point {
    pub(crate) slots: usize,
    pub(crate) waiting: usize,
}

/// A whole run.
#[derive(Drop)]
pub(crate) struct Story {
    /// What was called, as the lines of a script.
    pub(crate) commands: Vec<String>,
    pub(crate) replies: Vec<String>,
    pub(crate) ports: Vec<Port>,
    pub(crate) loans: Vec<Stay>,
    /// The messages in mailboxes.
    pub(crate) visits: Vec<Stay>,
    pub(crate) marks: Vec<Mark>,
    pub(crate) points: Vec<Point>,
    /// By message number, the first value and how many there are.
    pub(crate) values: Vec<(u64, usize)>,
}
