use crate::channel::Channel;
use crate::error::ModelError;
use crate::mailbox::Mailbox;
use std::alloc::Global;

// All mailboxes, by the publisher's id and then the subscriber's. One that isn't there is empty.
#[derive(Drop)]
pub(crate) struct Mailboxes {
    alloc: Global,
    rows: Vec<Vec<Mailbox>>,
}

impl Mailboxes {
    pub(crate) fn new(alloc: Global) -> Mailboxes {
        Mailboxes {
            alloc,
            rows: Vec::new(alloc),
        }
    }

    pub(crate) fn get(&self, publisher: usize, subscriber: usize) -> Option<&Mailbox> {
        let Some(row) = self.rows.get(publisher) else {
            return None;
        };
        row.get(subscriber)
    }

    pub(crate) fn get_mut(&mut self, publisher: usize, subscriber: usize) -> Option<&mut Mailbox> {
        let Some(row) = self.rows.get_mut(publisher) else {
            return None;
        };
        row.get_mut(subscriber)
    }

    // The mailbox, which is made where it isn't there.
    pub(crate) fn made(
        &mut self,
        publisher: usize,
        subscriber: usize,
    ) -> Result<&mut Mailbox, ModelError> {
        let rows = publisher.saturating_add(1).saturating_sub(self.rows.len());
        for _ in 0..rows {
            self.rows.push(Vec::new(self.alloc))?;
        }
        let Some(row) = self.rows.get_mut(publisher) else {
            return Err(ModelError::NoRule);
        };
        let boxes = subscriber.saturating_add(1).saturating_sub(row.len());
        for _ in 0..boxes {
            row.push(Mailbox::new(self.alloc))?;
        }
        row.get_mut(subscriber).ok_or(ModelError::NoRule)
    }

    pub(crate) fn has_data(&self, publisher: usize, subscriber: usize) -> bool {
        match self.get(publisher, subscriber) {
            None => false,
            Some(mailbox) => mailbox.has_data(),
        }
    }

    pub(crate) fn has_messages(&self, publisher: usize, subscriber: usize) -> bool {
        match self.get(publisher, subscriber) {
            None => false,
            Some(mailbox) => mailbox.has_messages(),
        }
    }

    pub(crate) fn channel(&self, publisher: usize, subscriber: usize, number: usize) -> Channel {
        match self.get(publisher, subscriber) {
            None => Channel::new(number),
            Some(mailbox) => mailbox.channel(number),
        }
    }

    pub(crate) fn has_borrows(&self, publisher: usize, subscriber: usize) -> bool {
        match self.get(publisher, subscriber) {
            None => false,
            Some(mailbox) => mailbox.has_borrows(),
        }
    }

    pub(crate) fn can_receive(&self, publisher: usize, subscriber: usize, limit: usize) -> bool {
        match self.get(publisher, subscriber) {
            None => false,
            Some(mailbox) => mailbox.can_receive(limit),
        }
    }

    pub(crate) fn is_borrowed(&self, publisher: usize, subscriber: usize, message: usize) -> bool {
        match self.get(publisher, subscriber) {
            None => false,
            Some(mailbox) => mailbox.is_borrowed(message),
        }
    }

    pub(crate) fn drop_waiting(&mut self, publisher: usize, subscriber: usize) {
        if let Some(mailbox) = self.get_mut(publisher, subscriber) {
            mailbox.drop_waiting();
        }
    }
}
