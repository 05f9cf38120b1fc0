use crate::port::Port;
use crate::ports::when_full;
use iox2_commands::NewPublisher;
use iox2_machine::{AllocationStrategy, DegradationAction};
use std::alloc::{AllocError, Global};

// A publisher that wasn't closed.
#[derive(Drop)]
pub(crate) struct Publisher {
    pub(crate) port: Port,
    pub(crate) slots: usize,
    pub(crate) max_loaned_samples: usize,
    pub(crate) segments: Segments,
    pub(crate) loans: Vec<usize>,
    // The last messages sent, oldest first.
    pub(crate) history: Vec<usize>,
    // What becomes of a message at a full receiver.
    pub(crate) when_full: Put,
    // The send that waits for a receiver.
    pub(crate) blocked: Option<Delivery>,
}

impl Publisher {
    pub(crate) fn new(
        alloc: Global,
        place: usize,
        slots: usize,
        len: usize,
        asked: &NewPublisher,
    ) -> Publisher {
        Publisher {
            port: Port::new(alloc, place, asked.degradation),
            slots,
            max_loaned_samples: asked.loans,
            segments: Segments {
                allocation: asked.allocation,
                len,
                made: 1,
            },
            loans: Vec::new(alloc),
            history: Vec::new(alloc),
            when_full: when_full(asked.strategy, asked.backpressure),
            blocked: None,
        }
    }
}

// The segments of a publisher's slots. New loans are in the last one.
#[derive(Clone, Copy)]
pub(crate) struct Segments {
    pub(crate) allocation: AllocationStrategy,
    // The greatest length of a loan in the last one.
    pub(crate) len: usize,
    // How many were made, the first included.
    pub(crate) made: usize,
}

// What becomes of a message at a receiver.
#[derive(Clone, Copy)]
pub(crate) enum Put {
    Taken,
    Skipped,
    // Skipped, and the send fails in the end.
    Failed,
    // The send waits for the receiver.
    Blocked,
}

// A message on its way to the receivers of its publisher.
#[derive(Clone, Copy)]
pub(crate) struct Delivery {
    pub(crate) message: usize,
    // Into which it goes.
    pub(crate) channel: usize,
    // Of the next receiver, in the publisher's ends. These stay as they are while the send is blocked.
    pub(crate) place: usize,
    // Behind the last receiver's.
    pub(crate) end: usize,
    // How many receivers have taken the message so far.
    pub(crate) count: usize,
    // Whether the handler has failed the send at an earlier receiver.
    pub(crate) has_failed: bool,
}

// A subscriber that wasn't closed, or that was closed and has borrowed messages.
#[derive(Drop)]
pub(crate) struct Subscriber {
    pub(crate) port: Port,
    pub(crate) is_open: bool,
    pub(crate) buffer: usize,
    // Departed publishers that it still has messages of, in order of entry.
    pub(crate) expired: Vec<usize>,
}

impl Subscriber {
    pub(crate) fn new(
        alloc: Global,
        place: usize,
        buffer: usize,
        degradation: DegradationAction,
    ) -> Subscriber {
        Subscriber {
            port: Port::new(alloc, place, degradation),
            is_open: true,
            buffer,
            expired: Vec::new(alloc),
        }
    }

    // The publishers with which it has mailboxes, except the departed ones that it still knows.
    pub(crate) fn connected(&self, alloc: Global) -> Result<Vec<usize>, AllocError> {
        let mut found = Vec::new(alloc);
        for end in self.port.ends.as_slice() {
            if let Some(p) = *end {
                found.push(p)?;
            }
        }
        Ok(found)
    }

    // All publishers with which it has mailboxes.
    pub(crate) fn sources(&self, alloc: Global) -> Result<Vec<usize>, AllocError> {
        let mut found = self.connected(alloc)?;
        found.extend_from_slice(self.expired.as_slice())?;
        Ok(found)
    }
}

// A message that isn't sent yet. Each of its cells is written or not.
#[derive(Drop)]
pub(crate) struct Loan {
    pub(crate) publisher: usize,
    pub(crate) user_header: u64,
    pub(crate) cells: Vec<Option<u64>>,
    pub(crate) is_written: bool,
}

// A message that was sent.
#[derive(Drop)]
pub(crate) struct Entry {
    pub(crate) publisher: usize,
    pub(crate) user_header: u64,
    pub(crate) values: Vec<u64>,
}
