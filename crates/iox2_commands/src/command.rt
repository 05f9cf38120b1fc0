ghost use Rattle.std.specs.Prelude.{◌≡◌, ⊤};

use crate::channel_calls::{PublisherChannelCall, SubscriberChannelCall};
use crate::new_publisher::NewPublisher;
use iox2_machine::DegradationAction;
use std::alloc::AllocError;
use std::time::Duration;

/// One call of a run, as plain data. It is this project's own.
///
/// `of` is the position in the list, counted from 0, of the command that made the port, loan, sample or
/// blocked send that the call is on. A loan keeps the name of its loan command through writes and
/// `AssumeInit`, a blocked send that of the `Send` or `SendCopy` that blocked. If `of` names nothing live
/// of the wanted kind, the command is skipped and changes nothing. So is one whose `at` is past the end, a
/// loan or `SendCopy` in a service of the other kind, and a loan, send, update or close of a publisher that
/// waits for a receiver, and one on a channel that the service's connections don't have. In a service whose
/// `units_per_element` isn't 1 each loan, `SendCopy` and `Receive` is skipped.
///
/// A connection of a publisher is named by its place, which `ConnectionPlace` replies: that is the place of
/// its subscriber, the lowest that was free when that was made.
#[derive(Debug, Copy, PartialEq, Eq)]
pub enum Command<T, U> {
    /// Does nothing.
    Nothing,
    /// Makes a publisher.
    CreatePublisher(NewPublisher),
    /// Makes a subscriber, with a degradation handler that always gives the answer named here.
    CreateSubscriber {
        /// How many messages of one publisher may wait; the service's limit if nothing is named. 0 means 1.
        buffer: Option<usize>,
        /// The answer of its degradation handler.
        degradation: DegradationAction,
    },
    /// Loans one unwritten value of a publisher in a service for single values.
    LoanUninit {
        /// The publisher.
        of: usize,
    },
    /// Loans one default value of a publisher in a service for single values.
    Loan {
        /// The publisher.
        of: usize,
    },
    /// Loans unwritten values of a publisher in a service for slices.
    LoanSlice {
        /// The publisher.
        of: usize,
        /// How many elements.
        len: usize,
    },
    /// Writes one cell of an unwritten loan.
    WriteCell {
        /// The loan.
        of: usize,
        /// The cell, below the loan's length.
        at: usize,
        /// What is written.
        value: T,
    },
    /// Writes every cell of an unwritten loan, which is written from then on.
    WriteAll {
        /// The loan.
        of: usize,
        /// What is written.
        value: T,
    },
    /// Takes an unwritten loan as written, if it has no unwritten cell.
    AssumeInit {
        /// The loan.
        of: usize,
    },
    /// Writes the user header of a loan.
    WriteHeader {
        /// The loan.
        of: usize,
        /// What is written.
        value: U,
    },
    /// Changes one value of a written loan.
    SetPayload {
        /// The loan.
        of: usize,
        /// The cell, below the loan's length.
        at: usize,
        /// What is written.
        value: T,
    },
    /// Sends a written loan whose publisher doesn't wait for a receiver.
    Send {
        /// The loan.
        of: usize,
    },
    /// Sends a written loan whose publisher doesn't wait for a receiver into a channel of one connection, and
    /// to nobody else.
    SendToConnection {
        /// The loan.
        of: usize,
        /// The channel.
        channel: usize,
        /// The place of the connection. Without one there nobody gets the message.
        connection: usize,
    },
    /// Loans a value of a publisher in a service for single values, writes it and sends it.
    SendCopy {
        /// The publisher.
        of: usize,
        /// What is sent.
        value: T,
    },
    /// Gives a loan back unsent.
    Discard {
        /// The loan.
        of: usize,
    },
    /// Tries a blocked send again.
    Retry {
        /// The blocked send.
        of: usize,
        /// The time since the send was blocked, which the backpressure handler is told.
        elapsed: Duration,
    },
    /// Lets a blocked send go on past the receiver that it waits for.
    GiveUp {
        /// The blocked send.
        of: usize,
    },
    /// Updates the connections of a port.
    Update {
        /// The port.
        of: usize,
    },
    /// Receives a sample.
    Receive {
        /// The subscriber.
        of: usize,
    },
    /// Asks whether any sample waits.
    HasSamples {
        /// The subscriber.
        of: usize,
    },
    /// Reads a value of a sample, or a cell of a loan.
    Read {
        /// The sample or loan.
        of: usize,
        /// The element, below the length.
        at: usize,
    },
    /// Reads the header of a sample or a loan.
    ReadHeader {
        /// The sample or loan.
        of: usize,
    },
    /// Reads the user header of a sample or a loan.
    ReadUserHeader {
        /// The sample or loan.
        of: usize,
    },
    /// Releases a sample.
    Release {
        /// The sample.
        of: usize,
    },
    /// Closes a port.
    Close {
        /// The port.
        of: usize,
    },
    /// Asks for the place of a publisher's connection to a subscriber.
    ConnectionPlace {
        /// The publisher.
        of: usize,
        /// The number of the subscriber's id.
        receiver: u128,
    },
    /// Asks about a channel of one of a publisher's connections, or closes it.
    PublisherChannel {
        /// The publisher.
        of: usize,
        /// The channel.
        channel: usize,
        /// The place of the connection.
        connection: usize,
        /// The question, or the change.
        call: PublisherChannelCall,
    },
    /// Asks about a channel of all of a subscriber's connections, or changes it.
    SubscriberChannel {
        /// The subscriber.
        of: usize,
        /// The channel.
        channel: usize,
        /// The question, or the change.
        call: SubscriberChannelCall,
    },
}

impl<T, U> Command<T, U> {
    /// The position that the command names, if it names one.
    pub fn of_mut(&mut self) -> Option<&mut usize> {
        match self {
            Command::Nothing | Command::CreatePublisher(_) | Command::CreateSubscriber { .. } => {
                None
            }
            Command::LoanUninit { of }
            | Command::Loan { of }
            | Command::LoanSlice { of, .. }
            | Command::WriteCell { of, .. }
            | Command::WriteAll { of, .. }
            | Command::AssumeInit { of }
            | Command::WriteHeader { of, .. }
            | Command::SetPayload { of, .. }
            | Command::Send { of }
            | Command::SendToConnection { of, .. }
            | Command::SendCopy { of, .. }
            | Command::Discard { of }
            | Command::Retry { of, .. }
            | Command::GiveUp { of }
            | Command::Update { of }
            | Command::Receive { of }
            | Command::HasSamples { of }
            | Command::Read { of, .. }
            | Command::ReadHeader { of }
            | Command::ReadUserHeader { of }
            | Command::Release { of }
            | Command::Close { of }
            | Command::ConnectionPlace { of, .. }
            | Command::PublisherChannel { of, .. }
            | Command::SubscriberChannel { of, .. } => Some(of),
        }
    }
}

impl<T: Copy, U: Copy> Clone for Command<T, U> {
    ghost is_clone = { λ original clone. clone ≡ original };

    ghost is_infallible = { λ _. ⊤ };

    fn clone(&self) -> Result<Self, AllocError> {
        Ok(*self)
    }
}
