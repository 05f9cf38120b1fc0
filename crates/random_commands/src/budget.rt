//! How many commands a search for a shorter list may still carry out.

/// A number of commands that a search may carry out. It is over at the first list that has too many.
#[derive(Drop)]
pub struct Budget {
    left: usize,
}

impl Budget {
    /// A search that carries out at most `most` commands.
    pub fn new(most: usize) -> Budget {
        Budget { left: most }
    }

    /// Whether a list wasn't tried, since too few commands were left for it.
    pub fn is_over(&self) -> bool {
        self.left == 0
    }

    /// Takes that many commands, and says whether they were left. If they weren't, the search is over.
    pub fn takes(&mut self, commands: usize) -> bool {
        if self.left <= commands {
            self.left = 0;
            return false;
        }
        self.left = self.left.saturating_sub(commands);
        true
    }
}
