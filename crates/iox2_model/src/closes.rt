//! Ports are closed.
use crate::error::ModelError;
use crate::model::Model;
use crate::places::vacate;
use iox2_commands::Reply;

impl Model {
    pub(crate) fn close(&mut self, of: usize) -> Result<Reply<u64, u64>, ModelError> {
        if let Some(p) = self.unblocked_at(of) {
            self.close_publisher(p)?;
            return Ok(Reply::Done);
        }
        if let Some(q) = self.subscriber_at(of) {
            self.close_subscriber(q)?;
            return Ok(Reply::Done);
        }
        Ok(Reply::Skipped)
    }

    // What is borrowed stays, and what waits stays where its subscriber is open and has its end.
    // Subscribers forget the departed publishers that they have no message of, and are due.
    fn close_publisher(&mut self, p: usize) -> Result<(), ModelError> {
        let Some(publisher) = self.publishers.get(p) else {
            return Err(ModelError::NoRule);
        };
        let place = publisher.port.place;
        for q in 0..self.subscribers.next() {
            if !self.keeps_waiting(q, place, p) {
                self.mailboxes.drop_waiting(p, q);
            }
        }
        self.publishers.take(p);
        vacate(&mut self.publisher_places, p);
        for q in 0..self.subscribers.next() {
            self.prune(q)?;
        }
        self.make_subscribers_due();
        Ok(())
    }

    // The subscriber is open and has its end of the mailbox with the publisher at the place.
    fn keeps_waiting(&self, q: usize, place: usize, p: usize) -> bool {
        match self.subscribers.get(q) {
            None => false,
            Some(subscriber) => { subscriber.is_open && subscriber.port.end(place) == Some(p) }
        }
    }

    // What waits from departed publishers is lost. It is gone at once where it has borrowed nothing.
    fn close_subscriber(&mut self, q: usize) -> Result<(), ModelError> {
        let Some(subscriber) = self.subscribers.get_mut(q) else {
            return Err(ModelError::NoRule);
        };
        subscriber.is_open = false;
        for p in 0..self.publishers.next() {
            if !self.is_present(p) {
                self.mailboxes.drop_waiting(p, q);
            }
        }
        self.make_publishers_due();
        self.prune(q)?;
        self.free_if_unused(q)
    }
}
