//! What a publisher does before its next message.
ghost use Rattle.std.specs.Prelude.{◌≡◌, IsTrue, false};
ghost use Rattle.iox2_domain.specs.Due.{is_to_clear, is_to_connect};

/// What a publisher does before its next message, or at an update. It has one value for both
/// chores, so that a message asks once (docs/DECISIONS.md, "Older slots go at the next loan, send
/// or update").
#[derive(Clone, Copy)]
pub enum Due {
    /// Nothing.
    Nothing,
    /// It looks whether an older slot lost its last holder.
    Clearing,
    /// It updates its connections.
    Connecting,
    /// Both.
    Both,
}

impl Due {
    /// Whether there is nothing to do.
    #[inline(always)]
    pub fn is_nothing(self) -> bool
        ensures connected { IsTrue result → is_to_connect self ≡ false }
        ensures cleared { IsTrue result → is_to_clear self ≡ false }
    {
        matches!(self, Due::Nothing)
    }

    /// Whether connections are to be updated.
    #[inline(always)]
    pub fn is_to_connect(self) -> bool
        ensures { result ≡ is_to_connect self }
    {
        matches!(self, Due::Connecting | Due::Both)
    }

    // Whether older slots are to be looked at.
    fn is_to_clear(self) -> bool
        ensures { result ≡ is_to_clear self }
    {
        matches!(self, Due::Clearing | Due::Both)
    }

    /// The same, but that connections are to be updated or not.
    pub fn with_connecting(self, connects: bool) -> Due
        ensures connects { is_to_connect result ≡ connects }
        ensures clears { is_to_clear result ≡ is_to_clear self }
    {
        due_for(connects, self.is_to_clear())
    }

    /// The same, but that older slots are to be looked at or not.
    pub fn with_clearing(self, clears: bool) -> Due
        ensures connects { is_to_connect result ≡ is_to_connect self }
        ensures clears { is_to_clear result ≡ clears }
    {
        due_for(self.is_to_connect(), clears)
    }
}

// What is due where this is.
fn due_for(connects: bool, clears: bool) -> Due
    ensures connects { is_to_connect result ≡ connects }
    ensures clears { is_to_clear result ≡ clears }
{
    match (connects, clears) {
        (false, false) => Due::Nothing,
        (false, true) => Due::Clearing,
        (true, false) => Due::Connecting,
        (true, true) => Due::Both,
    }
}
