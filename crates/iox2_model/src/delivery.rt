//! A loan is sent; a send that is blocked is tried again or given up.
use crate::channel::CLOSED;
use crate::error::ModelError;
use crate::model::{Model, Outcome};
use crate::records::{Delivery, Entry, Loan, Put};
use crate::sender::last;
use crate::views::Thing;
use iox2_commands::Reply;
use iox2_machine::SendError;
use std::alloc::Global;
use std::ops::Range;

impl Model {
    // The written loan at the position, whose publisher waits for no receiver.
    fn sendable_at(&self, of: usize) -> Option<usize> {
        let Thing::Loan(message) = self.thing_at(of) else {
            return None;
        };
        match self.loans.get(message) {
            Some(loan) if loan.is_written && !self.is_blocked(loan.publisher) => Some(message),
            _ => None,
        }
    }

    pub(crate) fn send_loan(&mut self, of: usize) -> Result<Outcome, ModelError> {
        match self.sendable_at(of) {
            Some(message) => self.send(message),
            None => Ok((Reply::Skipped, Thing::Nothing)),
        }
    }

    // The written loan is sent. Of a closed publisher it is lost. Else connections are updated first;
    // where that fails the loan is given back.
    pub(crate) fn send(&mut self, message: usize) -> Result<Outcome, ModelError> {
        let Some(loan) = self.loans.take(message) else {
            return Err(ModelError::NoRule);
        };
        let publisher = loan.publisher;
        if !self.is_present(publisher) {
            let error = SendError::ConnectionBrokenSinceSenderNoLongerExists;
            return Ok((Reply::SendRefused(error), Thing::Nothing));
        }
        if let Some(failure) = self.update_publisher(publisher)? {
            self.return_loan(publisher, message);
            let error = SendError::ConnectionError(failure);
            return Ok((Reply::SendRefused(error), Thing::Nothing));
        }
        self.write_down(message, loan)?;
        self.enter_history(publisher, message)?;
        self.begin_delivery(publisher, message, 0, 0..usize::MAX)
    }

    // The written loan is sent into a channel of its publisher's connection at one place. Of a closed
    // publisher it is lost. Connections aren't updated, and it enters no history.
    pub(crate) fn send_to_connection(
        &mut self,
        of: usize,
        channel: usize,
        connection: usize,
    ) -> Result<Outcome, ModelError> {
        let Some(message) = self.sendable_at(of).filter(|_| self.has_channel(channel)) else {
            return Ok((Reply::Skipped, Thing::Nothing));
        };
        let Some(loan) = self.loans.take(message) else {
            return Err(ModelError::NoRule);
        };
        let publisher = loan.publisher;
        if !self.is_present(publisher) {
            let error = SendError::ConnectionBrokenSinceSenderNoLongerExists;
            return Ok((Reply::SendRefused(error), Thing::Nothing));
        }
        self.write_down(message, loan)?;
        let places = connection..connection.saturating_add(1);
        self.begin_delivery(publisher, message, channel, places)
    }

    // The message goes to the receivers at these places.
    fn begin_delivery(
        &mut self,
        publisher: usize,
        message: usize,
        channel: usize,
        places: Range<usize>,
    ) -> Result<Outcome, ModelError> {
        let delivery = Delivery {
            message,
            channel,
            place: places.start,
            end: places.end,
            count: 0,
            has_failed: false,
        };
        let reply = self.deliver(publisher, delivery)?;
        let made = match reply {
            Reply::Blocked => Thing::BlockedSend { publisher, message },
            _ => Thing::Nothing,
        };
        Ok((reply, made))
    }

    // The blocked send goes on at the receiver that it waits for. Connections aren't updated.
    pub(crate) fn retry(&mut self, of: usize) -> Result<Reply<u64, u64>, ModelError> {
        match self.blocked_at(of) {
            Some((p, delivery)) => self.deliver(p, delivery),
            None => Ok(Reply::Skipped),
        }
    }

    // The blocked send goes on behind the receiver that it waits for, which is skipped.
    pub(crate) fn give_up(&mut self, of: usize) -> Result<Reply<u64, u64>, ModelError> {
        let Some((p, delivery)) = self.blocked_at(of) else {
            return Ok(Reply::Skipped);
        };
        let place = delivery.place.saturating_add(1);
        self.deliver(p, Delivery { place, ..delivery })
    }

    // What was a loan is a message from now on.
    fn write_down(&mut self, message: usize, loan: Loan) -> Result<(), ModelError> {
        let values = values_of(self.alloc, loan.cells.as_slice())?;
        let entry = Entry {
            publisher: loan.publisher,
            user_header: loan.user_header,
            values,
        };
        self.entries.set(message, entry);
        Ok(())
    }

    // The message is last in the history, whose oldest leaves if it is full.
    fn enter_history(&mut self, p: usize, message: usize) -> Result<(), ModelError> {
        let alloc = self.alloc;
        let size = self.config.history_size;
        let Some(publisher) = self.publishers.get_mut(p) else {
            return Err(ModelError::NoRule);
        };
        publisher.history.push(message)?;
        publisher.history = last(alloc, publisher.history.as_slice(), size)?;
        Ok(())
    }

    // The message is put into the mailboxes to which the ends lead, by rising place, until a receiver
    // blocks it. Where none does the send ends, with an error where it failed at one.
    fn deliver(&mut self, p: usize, from: Delivery) -> Result<Reply<u64, u64>, ModelError> {
        let mut delivery = from;
        for place in from.place..self.end_count(p).min(from.end) {
            delivery.place = place;
            match self.put_at_end(p, delivery)? {
                Put::Taken => delivery.count = delivery.count.saturating_add(1),
                Put::Skipped => {}
                Put::Failed => delivery.has_failed = true,
                Put::Blocked => {
                    self.set_blocked(p, Some(delivery));
                    return Ok(Reply::Blocked);
                }
            }
        }
        self.set_blocked(p, None);
        self.return_loan(p, delivery.message);
        if delivery.has_failed {
            Ok(Reply::SendRefused(SendError::UnableToDeliver))
        } else {
            Ok(Reply::Delivered(delivery.count))
        }
    }

    fn set_blocked(&mut self, p: usize, blocked: Option<Delivery>) {
        if let Some(publisher) = self.publishers.get_mut(p) {
            publisher.blocked = blocked;
        }
    }

    // The channel of the connection takes no message.
    pub(crate) fn is_closed_channel(&self, p: usize, q: usize, channel: usize) -> bool {
        self.mailboxes.channel(p, q, channel).state == CLOSED
    }

    fn end_count(&self, p: usize) -> usize {
        match self.publishers.get(p) {
            None => 0,
            Some(publisher) => publisher.port.ends.len(),
        }
    }

    // The message is put into the mailbox to which the end at its place leads. Where there is none
    // nothing happens.
    fn put_at_end(&mut self, p: usize, delivery: Delivery) -> Result<Put, ModelError> {
        let Some(publisher) = self.publishers.get(p) else {
            return Err(ModelError::NoRule);
        };
        let when_full = publisher.when_full;
        match publisher.port.end(delivery.place) {
            None => Ok(Put::Skipped),
            Some(q) => self.put(p, q, delivery, when_full),
        }
    }

    // A closed receiver is skipped, and so is a closed channel. An open one takes the message where it has room, or where safe
    // overflow is on. What becomes of it where the receiver is full is the publisher's.
    fn put(
        &mut self,
        p: usize,
        q: usize,
        delivery: Delivery,
        when_full: Put,
    ) -> Result<Put, ModelError> {
        let Delivery {
            message,
            channel,
            ..
        } = delivery;
        let Some(buffer) = self.receiving_buffer(q) else {
            return Ok(Put::Skipped);
        };
        if self.is_closed_channel(p, q, channel) {
            return Ok(Put::Skipped);
        }
        let overflows = self.config.enable_safe_overflow;
        let mailbox = self.mailboxes.made(p, q)?;
        let takes = overflows || mailbox.has_room(channel, buffer);
        if !takes {
            return Ok(when_full);
        }
        mailbox.append(channel, buffer, message)?;
        Ok(Put::Taken)
    }
}

// The values of cells that are all written.
fn values_of(alloc: Global, cells: &[Option<u64>]) -> Result<Vec<u64>, ModelError> {
    let mut values = Vec::new(alloc);
    for cell in cells {
        let Some(value) = *cell else {
            return Err(ModelError::NoRule);
        };
        values.push(value)?;
    }
    Ok(values)
}
