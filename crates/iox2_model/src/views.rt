//! What a picture of the state shows.
use crate::model::Model;

/// What a command made, by its numbers. Later commands name it by the command's position in the list.
#[derive(Debug, Clone, Copy, PartialEq, Eq)]
pub enum Thing {
    /// Nothing.
    Nothing,
    /// The publisher with this id.
    Publisher(usize),
    /// The subscriber with this id.
    Subscriber(usize),
    /// The loan with this message number.
    Loan(usize),
    /// The blocked send of this publisher's message.
    BlockedSend {
        publisher: usize,
        message: usize,
    },
    /// The sample of this publisher's message, which this subscriber received.
    Sample {
        publisher: usize,
        subscriber: usize,
        message: usize,
    },
}

/// A message that waits in a channel other than 0: no subscriber receives it there.
#[derive(Debug, Clone, Copy, PartialEq, Eq)]
pub struct Elsewhere {
    pub channel: usize,
    pub message: usize,
}

impl Model {
    /// What the command at the position made, also where it isn't live any more.
    pub fn thing_at(&self, of: usize) -> Thing {
        self.made.get(of).copied().unwrap_or(Thing::Nothing)
    }

    /// One more than the greatest id that a port has had: ids are counted from 1.
    pub fn port_count(&self) -> usize {
        self.publishers.next().max(self.subscribers.next())
    }

    /// One more than the greatest number that a message has had: numbers are counted from 1.
    pub fn message_count(&self) -> usize {
        self.loans.next()
    }

    /// Whether the publisher is open.
    pub fn is_open_publisher(&self, publisher: usize) -> bool {
        self.is_present(publisher)
    }

    /// Whether the subscriber is open.
    pub fn is_open_subscriber(&self, subscriber: usize) -> bool {
        self.receiving_buffer(subscriber).is_some()
    }

    /// Whether the publisher delivers to the subscriber.
    pub fn delivers_to(&self, publisher: usize, subscriber: usize) -> bool {
        self.has_sender_end(publisher, subscriber)
    }

    /// The messages of the publisher that wait for the subscriber in channel 0, oldest first.
    pub fn waiting(&self, publisher: usize, subscriber: usize) -> &[usize] {
        match self.mailboxes.get(publisher, subscriber) {
            Some(mailbox) => mailbox.waiting(),
            None => &[],
        }
    }

    /// The messages of the publisher that wait in other channels than 0 of its connection with the
    /// subscriber, oldest first.
    pub fn elsewhere(&self, publisher: usize, subscriber: usize) -> &[Elsewhere] {
        match self.mailboxes.get(publisher, subscriber) {
            Some(mailbox) => mailbox.elsewhere(),
            None => &[],
        }
    }

    /// Whether the channel of the connection of the two is closed.
    pub fn is_closed(&self, publisher: usize, subscriber: usize, channel: usize) -> bool {
        self.is_closed_channel(publisher, subscriber, channel)
    }

    /// The subscriber of the publisher's connection at the place.
    pub fn receiver_at(&self, publisher: usize, place: usize) -> Option<usize> {
        self.sender_end(publisher, place)
    }

    /// How many places subscribers have had.
    pub fn subscriber_place_count(&self) -> usize {
        self.subscriber_places.len()
    }

    /// The messages of the publisher that the subscriber has received and not released.
    pub fn borrowed(&self, publisher: usize, subscriber: usize) -> &[usize] {
        match self.mailboxes.get(publisher, subscriber) {
            Some(mailbox) => mailbox.borrowed(),
            None => &[],
        }
    }

    /// The message whose send waits for a receiver, if one of the publisher's does.
    pub fn blocked_message(&self, publisher: usize) -> Option<usize> {
        match self.publishers.get(publisher) {
            Some(record) => record.blocked.map(|delivery| delivery.message),
            None => None,
        }
    }

    /// The publisher's messages that are lent or whose send is blocked.
    pub fn loans_of(&self, publisher: usize) -> &[usize] {
        match self.publishers.get(publisher) {
            Some(record) => record.loans.as_slice(),
            None => &[],
        }
    }

    /// The publisher's history, oldest message first.
    pub fn history_of(&self, publisher: usize) -> &[usize] {
        match self.publishers.get(publisher) {
            Some(record) => record.history.as_slice(),
            None => &[],
        }
    }

    /// The first value of a message that was sent.
    pub fn first_value(&self, message: usize) -> Option<u64> {
        let Some(entry) = self.entries.get(message) else {
            return None;
        };
        entry.values.first().copied()
    }

    /// How many values a message has that was sent.
    pub fn value_count(&self, message: usize) -> usize {
        match self.entries.get(message) {
            Some(entry) => entry.values.len(),
            None => 0,
        }
    }
}
