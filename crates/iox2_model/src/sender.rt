//! A publisher's update: it goes over the subscribers that are listed now.
use crate::error::ModelError;
use crate::model::{Model, Updated};
use crate::places::occupant;
use crate::port::Port;
use std::alloc::Global;

impl Model {
    // The publisher, where it is due, goes over the subscribers' places. Returns the first failure,
    // which there is where a connection can't be allocated and the publisher's answer fails the call.
    pub(crate) fn update_publisher(&mut self, p: usize) -> Updated {
        if !self.sender_mut(p)?.take_due() {
            return Ok(None);
        }
        let mut first = None;
        for place in 0..self.subscriber_places.len() {
            let failure = self.update_sender_place(p, place)?;
            first = first.or(failure);
        }
        Ok(first)
    }

    fn sender_mut(&mut self, p: usize) -> Result<&mut Port, ModelError> {
        match self.publishers.get_mut(p) {
            Some(publisher) => Ok(&mut publisher.port),
            None => Err(ModelError::NoRule),
        }
    }

    // An end to the subscriber that is at the place stays, and what waits for it is lost where
    // it is closed. Any other end goes, and one to an open subscriber is made.
    fn update_sender_place(&mut self, p: usize, place: usize) -> Updated {
        let Some(q) = occupant(self.subscriber_places.as_slice(), place) else {
            self.disconnect_sender(p, place)?;
            return Ok(None);
        };
        let is_connected = self.sender_end(p, place) == Some(q);
        match self.receiving_buffer(q) {
            Some(_) if is_connected => {}
            Some(buffer) => {
                self.disconnect_sender(p, place)?;
                return self.connect_sender(p, place, q, buffer);
            }
            None if is_connected => self.mailboxes.drop_waiting(p, q),
            None => self.disconnect_sender(p, place)?,
        }
        Ok(None)
    }

    // The subscriber to whose mailbox the publisher's end at the place leads.
    pub(crate) fn sender_end(&self, p: usize, place: usize) -> Option<usize> {
        self.publishers.get(p)?.port.end(place)
    }

    // The end at the place goes, if there is one, and what waits in its mailbox with it.
    fn disconnect_sender(&mut self, p: usize, place: usize) -> Result<(), ModelError> {
        if let Some(q) = self.sender_end(p, place) {
            self.mailboxes.drop_waiting(p, q);
            self.sender_mut(p)?.set_end(place, None)?;
        }
        Ok(())
    }

    // An end to q is made at the place, and the last messages of the history that the buffer holds
    // wait there, unless channel 0 is closed. Where q has no end either, memory may be refused in place of that: the publisher
    // answers.
    fn connect_sender(&mut self, p: usize, place: usize, q: usize, buffer: usize) -> Updated {
        if !self.has_receiver_end(p, q) && self.refuses_connection() {
            return Ok(self.sender_mut(p)?.failure());
        }
        self.sender_mut(p)?.set_end(place, Some(q))?;
        let is_closed = self.is_closed_channel(p, q, 0);
        let messages = self.last_messages(p, if is_closed { 0 } else { buffer })?;
        self.mailboxes.made(p, q)?.set_waiting(messages.as_slice())?;
        Ok(None)
    }

    // The last messages of a publisher's history, at most that many.
    fn last_messages(&self, p: usize, count: usize) -> Result<Vec<usize>, ModelError> {
        let Some(publisher) = self.publishers.get(p) else {
            return Err(ModelError::NoRule);
        };
        last(self.alloc, publisher.history.as_slice(), count)
    }
}

// The last numbers of a list, at most that many.
pub(crate) fn last(
    alloc: Global,
    numbers: &[usize],
    count: usize,
) -> Result<Vec<usize>, ModelError> {
    let from = numbers.len().saturating_sub(count);
    let mut found = Vec::new(alloc);
    found.extend_from_slice(&numbers[from..])?;
    Ok(found)
}
