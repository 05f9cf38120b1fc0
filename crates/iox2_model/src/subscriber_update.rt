//! A subscriber's update: it goes over the publishers that are listed now, then over the places that
//! became empty.
use crate::error::ModelError;
use crate::model::{Model, Updated};
use crate::places::occupant;
use crate::port::Port;

// What becomes of a departed publisher.
#[derive(Clone, Copy)]
enum Retirement {
    Kept,
    // In place of this one.
    KeptFor(usize),
    Discarded,
    Refused,
}

impl Model {
    // The subscriber, where it is due, goes over the publishers' places. Returns the first failure,
    // which there is where a departed publisher couldn't be kept among the expired ones, and where a
    // connection can't be allocated and the subscriber's answer fails the call.
    pub(crate) fn update_subscriber(&mut self, q: usize) -> Updated {
        if !self.receiver_mut(q)?.take_due() {
            return Ok(None);
        }
        let mut first = None;
        for place in 0..self.publisher_places.len() {
            let failure = self.connect_at_place(q, place)?;
            first = first.or(failure);
        }
        for place in 0..self.publisher_places.len() {
            let failure = self.disconnect_at_place(q, place)?;
            first = first.or(failure);
        }
        Ok(first)
    }

    fn receiver_mut(&mut self, q: usize) -> Result<&mut Port, ModelError> {
        match self.subscribers.get_mut(q) {
            Some(subscriber) => Ok(&mut subscriber.port),
            None => Err(ModelError::NoRule),
        }
    }

    // The publisher from whose mailbox the subscriber's end at the place leads.
    pub(crate) fn receiver_end(&self, q: usize, place: usize) -> Option<usize> {
        self.subscribers.get(q)?.port.end(place)
    }

    // At a place with a publisher, an end to it stays or is made, after the earlier publisher
    // there was retired.
    fn connect_at_place(&mut self, q: usize, place: usize) -> Updated {
        let Some(p) = occupant(self.publisher_places.as_slice(), place) else {
            return Ok(None);
        };
        if let Some(old) = self.receiver_end(q, place) {
            if old == p {
                return Ok(None);
            }
            if let Some(failure) = self.retire(q, place, old)? {
                return Ok(Some(failure));
            }
        }
        if !self.has_sender_end(p, q) && self.refuses_connection() {
            return Ok(self.receiver_mut(q)?.failure());
        }
        self.receiver_mut(q)?.set_end(place, Some(p))?;
        Ok(None)
    }

    // At an empty place, the publisher that was there is retired.
    fn disconnect_at_place(&mut self, q: usize, place: usize) -> Updated {
        if occupant(self.publisher_places.as_slice(), place).is_some() {
            return Ok(None);
        }
        match self.receiver_end(q, place) {
            None => Ok(None),
            Some(old) => self.retire(q, place, old),
        }
    }

    // The departed publisher leaves the place, or that fails.
    fn retire(&mut self, q: usize, place: usize, old: usize) -> Updated {
        let retirement = self.retirement(q, old);
        let limit_is_kept = match retirement {
            Retirement::Refused => false,
            Retirement::Kept => {
                self.push_expired(q, old)?;
                true
            }
            Retirement::KeptFor(first) => {
                self.mailboxes.drop_waiting(first, q);
                self.forget_expired(q, first);
                self.push_expired(q, old)?;
                true
            }
            Retirement::Discarded => {
                self.mailboxes.drop_waiting(old, q);
                true
            }
        };
        if limit_is_kept {
            self.receiver_mut(q)?.set_end(place, None)?;
            return Ok(None);
        }
        self.receiver_mut(q)?.is_due = true;
        Ok(Some(Self::expired_buffer_full()))
    }

    // With room it is kept. Without room, it loses what waits if none of its messages is borrowed. If
    // some are, it takes the place of the first that has none borrowed, and is refused if there is no
    // such one.
    fn retirement(&self, q: usize, old: usize) -> Retirement {
        let Some(subscriber) = self.subscribers.get(q) else {
            return Retirement::Refused;
        };
        let limit = self
            .config
            .subscriber_expired_connection_buffer
            .max(self.config.subscriber_max_borrowed_samples);
        if subscriber.expired.len() < limit {
            return Retirement::Kept;
        }
        if !self.mailboxes.has_borrows(old, q) {
            return Retirement::Discarded;
        }
        for first in subscriber.expired.as_slice() {
            if !self.mailboxes.has_borrows(*first, q) {
                return Retirement::KeptFor(*first);
            }
        }
        Retirement::Refused
    }

    fn push_expired(&mut self, q: usize, p: usize) -> Result<(), ModelError> {
        if let Some(subscriber) = self.subscribers.get_mut(q) {
            subscriber.expired.push(p)?;
        }
        Ok(())
    }

    fn forget_expired(&mut self, q: usize, p: usize) {
        if let Some(subscriber) = self.subscribers.get_mut(q) {
            subscriber.expired.retain(|other| *other != p);
        }
    }
}
