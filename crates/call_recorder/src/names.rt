ghost use Rattle.std.specs.Prelude.{◌<◌, IfSome, length};

/// What a call is on, by the numbers that the domain gave it.
#[derive(Debug, Clone, Copy, PartialEq, Eq)]
pub enum Name {
    /// The publisher with this id.
    Publisher(u128),
    /// The subscriber with this id.
    Subscriber(u128),
    /// The loan of the message with this number.
    Loan(u128),
    /// The send of the message with this number, which waits.
    Blocked(u128),
    /// The message with this number, which this subscriber has borrowed.
    Sample {
        /// The id of the subscriber.
        subscriber: u128,
        /// The number of the message.
        number: u128,
    },
}

// What a command made, and where it is.
#[derive(Clone, Copy)]
pub(crate) struct Entry {
    pub(crate) name: Name,
    // The position of the command, counted from 0.
    pub(crate) position: usize,
}

/// The position that no command has: a command that names it is skipped.
pub const NOWHERE: usize = usize::MAX;

// Where an entry with this name is in the table.
pub(crate) fn place_of(table: &[Entry], name: Name) -> Option<usize>
    ensures { IfSome result (λ place. place < length table.now) }
{
    table.iter().position(|entry| entry.name == name)
}
