//! How many messages have a slot.
use crate::failure::Failure;
use std::alloc::Global;

/// By message number, in how many places a message is held.
#[derive(Drop)]
pub(crate) struct Holders {
    counts: Vec<usize>,
    used: usize,
}

impl Holders {
    pub(crate) fn new(alloc: Global) -> Holders {
        Holders {
            counts: Vec::new(alloc),
            used: 0,
        }
    }

    /// How many messages are held somewhere.
    pub(crate) fn used(&self) -> usize {
        self.used
    }

    /// One place more holds the message.
    pub(crate) fn hold(&mut self, message: usize) -> Result<(), Failure> {
        let missing = message.saturating_add(1).saturating_sub(self.counts.len());
        for _ in 0..missing {
            self.counts.push(0)?;
        }
        if let Some(count) = self.counts.get_mut(message) {
            if *count == 0 {
                self.used = self.used.saturating_add(1);
            }
            *count = count.saturating_add(1);
        }
        Ok(())
    }

    /// One place less holds it.
    pub(crate) fn let_go(&mut self, message: usize) {
        if let Some(count) = self.counts.get_mut(message) {
            if *count == 1 {
                self.used = self.used.saturating_sub(1);
            }
            *count = count.saturating_sub(1);
        }
    }
}
