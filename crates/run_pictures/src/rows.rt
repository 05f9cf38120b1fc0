//! Which row of a lane a bar is in.
use crate::failure::Failure;
use std::alloc::Global;

/// The rows of one lane, each with the time at which it is free again.
#[derive(Drop)]
pub(crate) struct Rows {
    ends: Vec<usize>,
}

impl Rows {
    pub(crate) fn new(alloc: Global) -> Rows {
        Rows {
            ends: Vec::new(alloc),
        }
    }

    /// How many rows were needed so far.
    pub(crate) fn count(&self) -> usize {
        self.ends.len()
    }

    /// The lowest row that is free from then on, which is taken until the end.
    pub(crate) fn take(&mut self, from: usize, to: usize) -> Result<usize, Failure> {
        let to = to.max(from.saturating_add(1));
        for row in 0..self.ends.len() {
            if let Some(end) = self.ends.get_mut(row) {
                if *end <= from {
                    *end = to;
                    return Ok(row);
                }
            }
        }
        self.ends.push(to)?;
        Ok(self.ends.len().saturating_sub(1))
    }
}
