ghost use Rattle.std.specs.Prelude.{◌≡◌, ⊤};

use iox2_machine::{
    ConnectionFailure, Header, LoanError, PublisherCreateError, ReceiveError, SendError,
    SubscriberCreateError, UniquePublisherId, UniqueSubscriberId,
};
use std::alloc::AllocError;

/// The reply to a command of a run. It is this project's own.
#[derive(Debug, Copy, PartialEq, Eq)]
pub enum Reply<T, U> {
    /// The command was carried out, and has nothing to tell.
    Done,
    /// The command can't be carried out at its position, as `Command` says, and changed nothing.
    Skipped,
    /// A publisher was made, with this id.
    PublisherMade(UniquePublisherId),
    /// No publisher was made.
    PublisherRefused(PublisherCreateError),
    /// A subscriber was made, with this id.
    SubscriberMade(UniqueSubscriberId),
    /// No subscriber was made.
    SubscriberRefused(SubscriberCreateError),
    /// A loan was granted.
    Loaned,
    /// No loan was granted.
    LoanRefused(LoanError),
    /// A cell is unwritten, and the loan stays as it was.
    Unwritten,
    /// The message was sent, and that many receivers took it.
    Delivered(usize),
    /// The send waits for a receiver.
    Blocked,
    /// The send failed.
    SendRefused(SendError),
    /// The update failed.
    UpdateRefused(ConnectionFailure),
    /// A sample of this publisher was received.
    Sample(UniquePublisherId),
    /// No sample waits.
    NoSample,
    /// The receive failed.
    ReceiveRefused(ReceiveError),
    /// Whether any sample waits, a channel is in a state, or it has a disconnect hint.
    Has(bool),
    /// Whether the channel was closed at each connection before it was set.
    WereClosed(bool),
    /// The place of the connection, if there is one.
    Place(Option<usize>),
    /// The value that was read; nothing only for an unwritten cell of an unwritten loan.
    Cell(Option<T>),
    /// The header that was read.
    Header(Header),
    /// The user header that was read.
    UserHeader(U),
}

impl<T: Copy, U: Copy> Clone for Reply<T, U> {
    ghost is_clone = { λ original clone. clone ≡ original };

    ghost is_infallible = { λ _. ⊤ };

    fn clone(&self) -> Result<Self, AllocError> {
        Ok(*self)
    }
}
