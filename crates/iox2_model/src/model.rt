use crate::error::ModelError;
use crate::mailboxes::Mailboxes;
use crate::memory::Memory;
use crate::numbered::Numbered;
use crate::records::{Delivery, Entry, Loan, Publisher, Subscriber};
use crate::views::Thing;
use iox2_commands::Reply;
use iox2_machine::{ConnectionFailure, ServiceConfig};
use std::alloc::Global;

/// The state of a domain of numbers or slices of numbers, with numbers as user headers.
#[derive(Drop)]
pub struct Model {
    pub(crate) alloc: Global,
    pub(crate) config: ServiceConfig,
    pub(crate) memory: Memory,
    refused_connections: u64,
    has_refused_segment: bool,
    // By id.
    pub(crate) publishers: Numbered<Publisher>,
    pub(crate) subscribers: Numbered<Subscriber>,
    // By the number of the message: loans in a user's hands, and messages that were sent.
    pub(crate) loans: Numbered<Loan>,
    pub(crate) entries: Numbered<Entry>,
    // By number: in which of its publisher's segments the message is, counted from 1.
    pub(crate) segments: Vec<usize>,
    pub(crate) mailboxes: Mailboxes,
    pub(crate) publisher_places: Vec<Option<usize>>,
    pub(crate) subscriber_places: Vec<Option<usize>>,
    // By the position of the command.
    pub(crate) made: Vec<Thing>,
}

/// What a command may be on.
#[derive(Clone, Copy, PartialEq, Eq)]
pub enum Kind {
    Publisher,
    Subscriber,
    UnwrittenLoan,
    WrittenLoan,
    BlockedSend,
    Sample,
}

// The first failure of an update, if there is one.
pub(crate) type Updated = Result<Option<ConnectionFailure>, ModelError>;

// The reply of a command, and what it made.
pub(crate) type Outcome = (Reply<u64, u64>, Thing);

impl Model {
    /// A new domain with these settings.
    pub fn new(alloc: Global, config: ServiceConfig, memory: Memory) -> Result<Model, ModelError> {
        let mut model = Model {
            alloc,
            config,
            memory,
            refused_connections: 0,
            has_refused_segment: false,
            publishers: Numbered::new(alloc)?,
            subscribers: Numbered::new(alloc)?,
            loans: Numbered::new(alloc)?,
            entries: Numbered::new(alloc)?,
            segments: Vec::new(alloc),
            mailboxes: Mailboxes::new(alloc),
            publisher_places: Vec::new(alloc),
            subscriber_places: Vec::new(alloc),
            made: Vec::new(alloc),
        };
        model.segments.push(0)?;
        Ok(model)
    }

    /// How many commands were carried out.
    pub fn command_count(&self) -> usize {
        self.made.len()
    }

    /// How many connections couldn't be allocated.
    pub fn refused_connections(&self) -> u64 {
        self.refused_connections
    }

    /// Whether a further segment of a publisher couldn't be allocated.
    pub fn has_refused_segment(&self) -> bool {
        self.has_refused_segment
    }

    /// How often a port, a connection or a segment asked for memory.
    pub fn questions(&self) -> usize {
        self.memory.questions()
    }

    // Whether allocating a connection fails this time, which is counted.
    pub(crate) fn refuses_connection(&mut self) -> bool {
        let refuses = self.memory.refuses();
        if refuses {
            self.refused_connections = self.refused_connections.saturating_add(1);
        }
        refuses
    }

    // Whether allocating a further segment fails this time, which is remembered.
    pub(crate) fn refuses_segment(&mut self) -> bool {
        let refuses = self.memory.refuses();
        if refuses {
            self.has_refused_segment = true;
        }
        refuses
    }

    /// Whether the command at this position made such a thing, which is still live.
    pub fn is_live(&self, of: usize, kind: Kind) -> bool {
        match kind {
            Kind::Publisher => self.publisher_at(of).is_some(),
            Kind::Subscriber => self.subscriber_at(of).is_some(),
            Kind::UnwrittenLoan => self.loan_at(of, false).is_some(),
            Kind::WrittenLoan => self.loan_at(of, true).is_some(),
            Kind::BlockedSend => self.blocked_at(of).is_some(),
            Kind::Sample => self.sample_at(of).is_some(),
        }
    }

    // ---- what a position names, where it is live

    pub(crate) fn publisher_at(&self, of: usize) -> Option<usize> {
        match self.thing_at(of) {
            Thing::Publisher(id) if self.is_present(id) => Some(id),
            _ => None,
        }
    }

    // A publisher that waits for no receiver.
    pub(crate) fn unblocked_at(&self, of: usize) -> Option<usize> {
        self.publisher_at(of).filter(|p| !self.is_blocked(*p))
    }

    pub(crate) fn subscriber_at(&self, of: usize) -> Option<usize> {
        match self.thing_at(of) {
            Thing::Subscriber(id) if self.receiving_buffer(id).is_some() => Some(id),
            _ => None,
        }
    }

    // The number of the loan.
    pub(crate) fn any_loan_at(&self, of: usize) -> Option<usize> {
        match self.thing_at(of) {
            Thing::Loan(message) if self.loans.get(message).is_some() => Some(message),
            _ => None,
        }
    }

    pub(crate) fn loan_at(&self, of: usize, is_written: bool) -> Option<usize> {
        let Thing::Loan(message) = self.thing_at(of) else {
            return None;
        };
        match self.loans.get(message) {
            Some(loan) if loan.is_written == is_written => Some(message),
            _ => None,
        }
    }

    // The publisher, and how far its send has come.
    pub(crate) fn blocked_at(&self, of: usize) -> Option<(usize, Delivery)> {
        let Thing::BlockedSend { publisher, message } = self.thing_at(of) else {
            return None;
        };
        match self.blocked_delivery(publisher) {
            Some(delivery) if delivery.message == message => Some((publisher, delivery)),
            _ => None,
        }
    }

    // The publisher, the subscriber and the message.
    pub(crate) fn sample_at(&self, of: usize) -> Option<(usize, usize, usize)> {
        match self.thing_at(of) {
            Thing::Sample {
                publisher,
                subscriber,
                message,
            } if self.mailboxes.is_borrowed(publisher, subscriber, message) => {
                Some((publisher, subscriber, message))
            }
            _ => None,
        }
    }

    // ---- ports

    pub(crate) fn is_present(&self, publisher: usize) -> bool {
        self.publishers.get(publisher).is_some()
    }

    // The publisher waits for a receiver. One that was closed doesn't.
    pub(crate) fn is_blocked(&self, publisher: usize) -> bool {
        self.blocked_delivery(publisher).is_some()
    }

    // The publisher's send that waits for a receiver.
    fn blocked_delivery(&self, publisher: usize) -> Option<Delivery> {
        match self.publishers.get(publisher) {
            None => None,
            Some(publisher) => publisher.blocked,
        }
    }

    // The buffer of a subscriber that takes messages.
    pub(crate) fn receiving_buffer(&self, subscriber: usize) -> Option<usize> {
        match self.subscribers.get(subscriber) {
            Some(record) if record.is_open => Some(record.buffer),
            _ => None,
        }
    }

    pub(crate) fn has_sender_end(&self, publisher: usize, subscriber: usize) -> bool {
        match self.subscribers.get(subscriber) {
            Some(record) => self.sender_end(publisher, record.port.place) == Some(subscriber),
            None => false,
        }
    }

    pub(crate) fn has_receiver_end(&self, publisher: usize, subscriber: usize) -> bool {
        match self.publishers.get(publisher) {
            Some(record) => self.receiver_end(subscriber, record.port.place) == Some(publisher),
            None => false,
        }
    }

    // The list of subscribers has changed.
    pub(crate) fn make_publishers_due(&mut self) {
        for id in 0..self.publishers.next() {
            if let Some(publisher) = self.publishers.get_mut(id) {
                publisher.port.is_due = true;
            }
        }
    }

    // The list of publishers has changed.
    pub(crate) fn make_subscribers_due(&mut self) {
        for id in 0..self.subscribers.next() {
            if let Some(subscriber) = self.subscribers.get_mut(id) {
                subscriber.port.is_due = true;
            }
        }
    }
}
