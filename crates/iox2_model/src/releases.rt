//! A sample is released; what is held no more goes.
use crate::error::ModelError;
use crate::model::Model;
use crate::places::{set_place, vacate};
use iox2_commands::Reply;

impl Model {
    // A departed publisher that has no message left is forgotten. A closed subscriber is gone with its
    // last borrowed message.
    pub(crate) fn release(&mut self, of: usize) -> Result<Reply<u64, u64>, ModelError> {
        let Some((p, q, message)) = self.sample_at(of) else {
            return Ok(Reply::Skipped);
        };
        if let Some(mailbox) = self.mailboxes.get_mut(p, q) {
            mailbox.release(message);
        }
        self.prune(q)?;
        self.free_if_unused(q)?;
        Ok(Reply::Done)
    }

    // The publisher wasn't closed, or some message of it waits or is borrowed.
    fn is_connected(&self, q: usize, p: usize) -> bool {
        self.is_present(p) || self.mailboxes.has_messages(p, q)
    }

    // The subscriber forgets the departed publishers that it has no more messages of.
    pub(crate) fn prune(&mut self, q: usize) -> Result<(), ModelError> {
        let mut ends = Vec::new(self.alloc);
        let mut expired = Vec::new(self.alloc);
        let Some(subscriber) = self.subscribers.get(q) else {
            return Ok(());
        };
        for place in 0..subscriber.port.ends.len() {
            let end = subscriber.port.end(place);
            let kept = end.filter(|p| self.is_connected(q, *p));
            set_place(&mut ends, place, kept)?;
        }
        for p in subscriber.expired.as_slice() {
            if self.is_connected(q, *p) {
                expired.push(*p)?;
            }
        }
        if let Some(subscriber) = self.subscribers.get_mut(q) {
            subscriber.port.ends = ends;
            subscriber.expired = expired;
        }
        Ok(())
    }

    // The subscriber was closed, and has borrowed nothing.
    fn is_unused(&self, q: usize) -> Result<bool, ModelError> {
        let Some(subscriber) = self.subscribers.get(q) else {
            return Ok(false);
        };
        if subscriber.is_open {
            return Ok(false);
        }
        let sources = subscriber.sources(self.alloc)?;
        Ok(!sources.iter().any(|p| self.mailboxes.has_borrows(*p, q)))
    }

    // A closed subscriber that has borrowed nothing is gone, and its place is free.
    pub(crate) fn free_if_unused(&mut self, q: usize) -> Result<(), ModelError> {
        if self.is_unused(q)? {
            self.subscribers.take(q);
            vacate(&mut self.subscriber_places, q);
            self.make_publishers_due();
        }
        Ok(())
    }
}
