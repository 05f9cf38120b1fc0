//! How many rows there were, and how many of them weren't as they have to be.
use crate::failure::Failure;

/// What was counted of all rows.
#[derive(Drop)]
pub(crate) struct Tally {
    rows: u64,
    replies: u64,
    refuted: u64,
}

impl Tally {
    /// Nothing was counted.
    pub(crate) fn new() -> Self {
        Tally {
            rows: 0,
            replies: 0,
            refuted: 0,
        }
    }

    /// Counts a row of that many replies, which is as it has to be or isn't.
    pub(crate) fn add(&mut self, replies: u64, is_refuted: bool) {
        self.rows = self.rows.saturating_add(1);
        self.replies = self.replies.saturating_add(replies);
        self.refuted = self.refuted.saturating_add(u64::from(is_refuted));
    }

    /// Prints what was counted. Fails where a row wasn't as it has to be.
    pub(crate) fn print(&self, rt: &impl Print) -> Result<(), Failure> {
        println!(rt; "{} rows, {} replies", self.rows, self.replies)?;
        if self.refuted == 0 {
            return Ok(());
        }
        println!(rt; "{} rows aren't as they have to be", self.refuted)?;
        Err(Failure::Refuted)
    }
}
